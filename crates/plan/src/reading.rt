// Standard input, read to its end however long it is. What is kept stands for the whole.
ghost use Rattle.std.specs.Prelude.{◌≡◌, true, ◌+◌, ◌-◌, ◌≤◌, ◌<◌, length, take, OnErr, negsuc};
ghost use Rattle.plan_output.specs.Input.{most_kept};
ghost use Rattle.plan.specs.Answers.{answer_number, goes_on, is_end};
ghost use Rattle.plan.specs.Reading.{OneRead, SpaceRead, Counted, Settled, ReadOn, InputRead};

use plan_output::{MOST_KEPT, keep};
use std::io;
use std::io::Read;

// What reading has come to, which contracts name. A read that fails ends each method with its
// error.
#[derive(Drop)]
pub(crate) struct Reading {
    // How many bytes stand for all that came.
    pub(crate) kept: usize,
    // What the last read answered: how many bytes came, 0 at the end of the input. A failure stands
    // here too, though each method hands it on.
    // Kept: `RunPromise` and `OneRead` name the last answer.
    pub(crate) last: io::Result<usize>,
    // How many chunks may still be read.
    pub(crate) turns: u64,
}

impl Reading {
    // No read yet: a count that no input has, more may come, and no input has as many chunks as
    // there are turns.
    pub(crate) fn new() -> Reading
        ensures uncounted { most_kept < result.kept }
        ensures more { goes_on (answer_number result.last) ≡ true }
        ensures all_turns { result.turns ≡ 18446744073709551615 }
    {
        Reading {
            // Kept: a count that no input has says none, since `RunPromise` takes a number for kept.
            kept: usize::MAX,
            last: Ok(1),
            turns: u64::MAX,
        }
    }

    // Whether more may come behind the last read.
    fn goes_on(&self) -> bool
        ensures { result ≡ goes_on (answer_number self.now.last) }
    {
        matches!(self.last, Ok(came) if came > 0)
    }

    // Whether the last read saw the end of the input.
    pub(crate) fn is_end(&self) -> bool
        ensures { result ≡ is_end (answer_number self.now.last) }
    {
        matches!(self.last, Ok(0))
    }

    // Reads once, counts what came and notes the answer. More may come, and the space has room for
    // what is kept of it.
    // Kept: `more` at each method that reads: a type that said it would be another after each read.
    // Kept: `failed` and `turns` at each method: each is one line, and so would its name be.
    fn read_next<R: Read>(&mut self, reader: &mut R, space: &mut [u8]) -> io::Result<()>
        requires more { goes_on (answer_number self.old.last) ≡ true }
        requires space_not_empty { 1 ≤ length space.old }
        requires room { most_kept ≤ self.old.kept + length space.old }
        ensures one { OneRead (length space.old) self.old.kept self.new.kept
            (answer_number self.new.last) }
        ensures failed { OnErr result (answer_number self.new.last ≡ negsuc 0) }
        ensures turns { self.new.turns ≡ self.old.turns }
    {
        let before = self.kept;
        let read = reader.read(space);
        let more = read.unwrap_or(0);
        self.kept = keep(before, more);
        self.last = read;
        read?;
        Ok(())
    }

    // Reads once into the space behind what is kept. Bytes before it stay as they are.
    fn read_behind<R: Read>(
        &mut self,
        reader: &mut R,
        space: &mut [u8; MOST_KEPT],
    ) -> io::Result<()>
        requires more { goes_on (answer_number self.old.last) ≡ true }
        requires room { self.old.kept < most_kept }
        ensures one { OneRead (length space.old - self.old.kept) self.old.kept self.new.kept
            (answer_number self.new.last) }
        ensures failed { OnErr result (answer_number self.new.last ≡ negsuc 0) }
        ensures turns { self.new.turns ≡ self.old.turns }
        ensures before { take self.old.kept space.new ≡ take self.old.kept space.old }
    {
        let at = self.kept;
        self.read_next(reader, &mut space[at..])
    }

    // Fills the space from the start of the input, and reads only where there is room and more may
    // come.
    #[tactic(auto, using(crate::proofs::OneReads::within_room, crate::proofs::OneReads::grows_some, crate::proofs::OneReads::grows_none, crate::proofs::OneReads::failed_over))]
    fn fill_space<R: Read>(&mut self, reader: &mut R, space: &mut [u8; MOST_KEPT]) -> io::Result<()>
        requires none { self.old.kept ≡ 0 }
        requires more { goes_on (answer_number self.old.last) ≡ true }
        ensures filled { SpaceRead (length space.old) self.new.kept (answer_number self.new.last) }
        ensures failed { OnErr result (answer_number self.new.last ≡ negsuc 0) }
        ensures turns { self.new.turns ≡ self.old.turns }
    {
        // Kept: how far a turn goes is for the reader to say, so that no range counts it.
        while self.kept < space.len() {
            self.read_behind(reader, space)?;
            if !self.goes_on() {
                return Ok(());
            }
        }
        Ok(())
    }

    // Reads one chunk, which is only counted, and takes a turn for it.
    fn read_chunk<R: Read>(&mut self, reader: &mut R, chunk: &mut [u8]) -> io::Result<()>
        requires more { goes_on (answer_number self.old.last) ≡ true }
        requires room { most_kept < length chunk.old }
        requires turn { 1 ≤ self.old.turns }
        ensures one { OneRead (length chunk.old) self.old.kept self.new.kept
            (answer_number self.new.last) }
        ensures failed { OnErr result (answer_number self.new.last ≡ negsuc 0) }
        ensures turns { self.new.turns ≡ self.old.turns - 1 }
    {
        self.turns -= 1;
        self.read_next(reader, chunk)
    }

    // Reads chunks, behind a space that is full, to the end of the input or until the turns are
    // used up, which no input does.
    #[tactic(auto, using(crate::proofs::OneReads::counts_on, crate::proofs::OneReads::counts_none, crate::proofs::OneReads::failed_over))]
    fn count_on<R: Read>(&mut self, reader: &mut R) -> io::Result<()>
        requires more { goes_on (answer_number self.old.last) ≡ true }
        requires full { self.old.kept ≡ most_kept }
        ensures counted { Counted self.old.kept self.new.kept }
        ensures settled { Settled (answer_number self.new.last) self.new.turns }
        ensures failed { OnErr result (answer_number self.new.last ≡ negsuc 0) }
    {
        let mut chunk = [0u8; 65_536];
        // Kept: `Settled` names the turns that are left.
        while self.turns > 0 {
            self.read_chunk(reader, &mut chunk)?;
            if !self.goes_on() {
                return Ok(());
            }
        }
        Ok(())
    }

    // The choice: where the last read saw the end of the input, that is all; else the input is
    // counted on.
    fn read_on<R: Read>(&mut self, reader: &mut R) -> io::Result<()>
        requires space { SpaceRead most_kept self.old.kept (answer_number self.old.last) }
        ensures on { ReadOn self.old.kept self.new.kept (answer_number self.old.last)
            (answer_number self.new.last) self.new.turns }
        ensures failed { OnErr result (answer_number self.new.last ≡ negsuc 0) }
    {
        if self.goes_on() {
            return self.count_on(reader);
        }
        Ok(())
    }

    // Reads the whole input: its first bytes into the space, and then as many chunks as there are.
    // `kept` comes with a number that no input has, and begins at 0 here.
    #[tactic(auto, using(crate::proofs::WholeReads::input_read, crate::proofs::WholeReads::input_failed))]
    pub(crate) fn read_input<R: Read>(
        &mut self,
        reader: &mut R,
        space: &mut [u8; MOST_KEPT],
    ) -> io::Result<()>
        requires uncounted { most_kept < self.old.kept }
        requires more { goes_on (answer_number self.old.last) ≡ true }
        ensures read { InputRead self.new.kept (answer_number self.new.last) self.new.turns }
        ensures failed { OnErr result (answer_number self.new.last ≡ negsuc 0) }
    {
        self.kept = 0;
        self.fill_space(reader, space)?;
        self.read_on(reader)
    }
}
