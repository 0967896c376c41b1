// The first line, in either form: the rack is stored as packed disks.
ghost use Rattle.std.specs.Prelude.{◌≡◌, map, length};
ghost use Rattle.placement.specs.Rack.{most_disks};
ghost use Rattle.placement.specs.Tables.{item_in};
ghost use Rattle.plan_text.specs.Reading.{mixed_accepted};
ghost use Rattle.reader.specs.First.{MixedRead, FirstRead};

use crate::cursor::Cursor;
use crate::pairs::Pair;
use placement::disk_of;

// Whether disks stand in a mixed line: they are accepted, and they differ.
fn mixed_accepted(rack: &[u64]) -> bool
    ensures { result ≡ mixed_accepted (map item_in rack.now) }
{
    if placement::judge_rack(rack).is_err() {
        return false;
    }
    !well_formed::all_equal(rack)
}

impl<'a> Cursor<'a> {
    // Reads a mixed line: how many disks it has; they are stored from the front.
    fn mixed_line(&mut self, rack: &mut [u64]) -> Option<u32>
        requires { length rack.old ≡ most_disks }
        ensures { MixedRead self.old self.new rack.old rack.new result }
    {
        self.eat_all(b"(mixed")?;
        let count = self.listed::<Pair>(rack)?;
        let accepted = mixed_accepted(&rack[..count]);
        self.end_line(accepted)?;
        Some(count as u32)
    }

    // Reads the first line, in either form: how many disks it has; they are stored from the front.
    pub(crate) fn first_line(&mut self, rack: &mut [u64]) -> Option<u32>
        requires { length rack.old ≡ most_disks }
        ensures { FirstRead self.old self.new rack.new result }
    {
        let mut equal = self.clone().ok()?;
        let Some(said) = equal.rack_line() else {
            return self.mixed_line(rack);
        };
        *self = equal;
        rack[..said.disks as usize].fill(disk_of(said.slots, said.streams));
        Some(said.disks)
    }
}
