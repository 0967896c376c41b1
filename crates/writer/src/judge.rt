// Whether the lent tables hold a well-formed plan.
ghost use Rattle.std.specs.Prelude.{◌≡◌, ◌≤◌, ◌&&◌, map, length};
ghost use Rattle.placement.specs.Copies.{copy_of};
ghost use Rattle.placement.specs.Packed.{disk_in};
ghost use Rattle.placement.specs.Held.{front};
ghost use Rattle.placement.specs.Plan.{copies_accepted};
ghost use Rattle.plan_text.specs.Held.{unused_zero};
ghost use Rattle.plan_text.specs.WriteCall.{well_formed_call};
ghost use Rattle.writer.specs.Call.{disks_formed};

use crate::stated::StatedPlan;
use placement::{disk_slots, disk_streams};
use well_formed::{all_zero, disk_accepted, left_accepted};

// Whether one disk's places hold at most as many copies as slots, accepted ones, and zero entries
// behind them.
fn disk_formed(disk: u64, count: u32, places: &[u64]) -> bool
    requires { (disk_in disk).slots ≤ length places.now }
    ensures { result
        ≡ (unused_zero (disk_in disk).slots count places.now
        && copies_accepted (disk_in disk) (map copy_of (front count places.now))) }
{
    let slots = disk_slots(disk);
    if slots.0 < count {
        return false;
    }
    let used = count as usize;
    let end = slots.0 as usize;
    all_zero(&places[used..end]) && disk_accepted(slots, disk_streams(disk), &places[..used])
}

impl<'a> StatedPlan<'a> {
    // Whether every disk is formed.
    #[tactic(auto, using(crate::proofs::Calls::room_copies))]
    fn disks_formed(&self) -> bool
        ensures { result
            ≡ disks_formed self.now.rack self.now.tables.copies self.now.tables.counts }
    {
        // Kept: no range gives `first`; a disk's places begin behind the slots of all before it.
        let mut first = 0;
        for (disk, count) in self.rack.iter().zip(self.counts) {
            if !disk_formed(*disk, *count, &self.copies[first..]) {
                return false;
            }
            first += disk_slots(*disk).0 as usize;
        }
        true
    }

    // Whether the tables hold a well-formed plan: the disks, then what is left.
    pub(crate) fn is_formed(&self) -> bool
        ensures { result ≡ well_formed_call self.now }
    {
        self.disks_formed() && left_accepted(&self.left[..self.films as usize])
    }
}
