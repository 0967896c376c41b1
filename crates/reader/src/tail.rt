// What stands behind the disk lines: the left line, the served line, and the end of the text.
ghost use Rattle.std.specs.Prelude.{◌≡◌, ◌≤◌, length};
ghost use Rattle.placement.specs.Plan.{most_left};
ghost use Rattle.reader.specs.Tail.{TailRead};

use crate::cursor::Cursor;
use crate::line::PairsLine;
use refusal::Refusal;

impl<'a> Cursor<'a> {
    // Reads from line `first` to the end of the text, behind disks that serve so many; the left
    // films are stored from the front.
    pub(crate) fn tail_lines(
        &mut self,
        first: u32,
        served: u64,
        left: &mut [u64],
    ) -> Result<PairsLine, Refusal>
        requires few { first ≤ 66 }
        requires room { length left.old ≡ most_left }
        ensures { TailRead first self.old served left.old left.new result }
    {
        let line = self.left_line(left).ok_or(Refusal::Line(first))?;
        self.served_line(served, line.sum)
            .ok_or(Refusal::Line(first + 1))?;
        if !self.is_done() {
            return Err(Refusal::Line(first + 2));
        }
        Ok(line)
    }
}
