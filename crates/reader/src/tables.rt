// Storing the plan that was read in a lent list of packed disks and in lent tables.
ghost use Rattle.std.specs.Prelude.{◌≡◌, true, ◌*◌, ◌≤◌, ◌++◌, length, take, drop};
ghost use Rattle.placement.specs.Rack.{all_slots, most_disks, most_slots};
ghost use Rattle.placement.specs.Plan.{most_left};
ghost use Rattle.placement.specs.Tables.{room_for};
ghost use Rattle.placement.specs.LentTables.{held, SameSlices};
ghost use Rattle.reader.specs.Pass.{holds, disks_read};
ghost use Rattle.reader.specs.Stored.{front_copied, fronts_copied};

use crate::answer::PlanRead;
use crate::plan::OwnPlan;
use placement::LentTables;

// Stores the first n entries of a table in the first n places of another.
fn copy_front<T: Copy>(from: &[T], n: usize, to: &mut [T])
    requires { (n ≤ length from.now) × (n ≤ length to.old) }
    ensures { to.new ≡ take n from.now ++ drop n to.old }
{
    to[..n].copy_from_slice(&from[..n]);
}

impl OwnPlan {
    // Stores the plan that was read; there is room for it.
    pub(crate) fn store(&self, read: PlanRead, rack: &mut [u64], lent: &mut LentTables)
        requires disks { read.disks ≤ most_disks }
        requires slots { all_slots (disks_read read self.now) ≤ most_disks * most_slots }
        requires films { read.left ≤ most_left }
        requires rack_room { read.disks ≤ length rack.old }
        requires room { room_for (disks_read read self.now) read.left (held lent.old) ≡ true }
        ensures rack { rack.new ≡ front_copied read.disks self.now.rack rack.old }
        ensures held { held lent.new
            ≡ fronts_copied (disks_read read self.now) read.left (holds self.now) (held lent.old) }
        ensures same { SameSlices lent.old lent.new }
    {
        let disks = &self.rack[..read.disks as usize];
        let slots = placement::all_slots(disks);
        copy_front(&self.tables.copies, slots, lent.copies);
        copy_front(&self.tables.counts, disks.len(), lent.counts);
        copy_front(&self.tables.left, read.left as usize, lent.left);
        copy_front(&self.rack, disks.len(), rack);
    }
}
