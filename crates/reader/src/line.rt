// The lines of a text: the rack of equal disks, disk, left and served.
ghost use Rattle.std.specs.Prelude.{◌≡◌, true, length};
ghost use Rattle.plan_text.specs.Parse.{literal};
ghost use Rattle.plan_text.specs.Capped.{saturated};
ghost use Rattle.placement.specs.Packed.{disk_in};
ghost use Rattle.placement.specs.Plan.{left_accepted, most_left};
ghost use Rattle.plan_text.specs.Text.{left_head, served_line};
ghost use Rattle.plan_text.specs.Reading.{line, rack_body, sizes_accepted};
ghost use Rattle.reader.specs.Cursor.{parse_of, parse_by};
ghost use Rattle.reader.specs.Line.{line_end, sizes, LineRead, DiskRead};

use crate::cursor::Cursor;
use crate::pairs::{MarkedCopy, Pair};
use placement::{Rack, Slots, Streams, disk_slots, disk_streams};

// How many pairs a line has, and what they sum to.
#[derive(Clone, Copy)]
pub struct PairsLine {
    pub count: usize,
    pub sum: u64,
}

impl<'a> Cursor<'a> {
    // Reads a line feed; the line has to pass its test.
    pub(crate) fn end_line(&mut self, test: bool) -> Option<()>
        ensures { parse_of result self.new ≡ line_end test self.old }
    {
        self.eat(b'\n')?;
        if !test {
            return None;
        }
        Some(())
    }

    // Reads a rack, up to its closing bracket.
    fn rack(&mut self) -> Option<Rack>
        ensures { parse_by sizes result self.new ≡ rack_body saturated self.old }
    {
        self.eat_all(b"(rack ")?;
        let disks = self.number()?;
        self.eat(b' ')?;
        let slots = Slots(self.number()?);
        self.eat(b' ')?;
        let streams = Streams(self.number()?);
        self.eat(b')')?;
        Some(Rack {
            disks,
            slots,
            streams,
        })
    }

    // Reads the line of a rack of equal disks.
    #[tactic(auto, using(crate::proofs::Lines::line_parts))]
    pub(crate) fn rack_line(&mut self) -> Option<Rack>
        ensures { parse_by sizes result self.new
            ≡ line (rack_body saturated) sizes_accepted self.old }
    {
        let rack = self.rack()?;
        self.end_line(placement::accepted(rack))?;
        Some(rack)
    }

    // Reads a packed disk's line; its copies are stored in the disk's places.
    pub(crate) fn disk_line(
        &mut self,
        number: u32,
        disk: u64,
        copies: &mut [u64],
    ) -> Option<PairsLine>
        requires { length copies.old ≡ (disk_in «disk»).slots }
        ensures { DiskRead number (disk_in «disk») self.old self.new
            copies.old copies.new result }
    {
        self.eat_all(b"(disk ")?;
        self.eat_number(u64::from(number))?;
        let count = self.listed::<MarkedCopy>(copies)?;
        let sum = well_formed::total(&copies[..count]);
        let slots = disk_slots(disk);
        let streams = disk_streams(disk);
        let storable = well_formed::disk_accepted(slots, streams, &copies[..count]);
        self.end_line(storable)?;
        Some(PairsLine { count, sum })
    }

    // Reads the left line; its pairs are stored from the front.
    pub(crate) fn left_line(&mut self, left: &mut [u64]) -> Option<PairsLine>
        requires { length left.old ≡ most_left }
        ensures { LineRead left_head left_accepted self.old self.new left.old left.new result }
    {
        self.eat_all(b"(left")?;
        let count = self.listed::<Pair>(left)?;
        let sum = well_formed::total(&left[..count]);
        let accepted = well_formed::left_accepted(&left[..count]);
        self.end_line(accepted)?;
        Some(PairsLine { count, sum })
    }

    // Reads the served line, with the two sums as they must be.
    pub(crate) fn served_line(&mut self, served: u64, unserved: u64) -> Option<()>
        ensures { parse_of result self.new
            ≡ line (literal (served_line served unserved)) (λ a. true) self.old }
    {
        self.eat_all(b"(served ")?;
        self.eat_number(served)?;
        self.eat(b' ')?;
        self.eat_number(unserved)?;
        self.eat(b')')?;
        self.end_line(true)
    }
}
