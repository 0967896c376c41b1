// Planning after an earlier plan: the plan of a demand list, and a mark at each copy that the same
// disk held before.
#![tactic(auto)]

mod mark; // mark.rt: marks in the copy table

ghost use Rattle.std.specs.Prelude.{◌≡◌, OnErr};
ghost use Rattle.placement.specs.Packed.{disks_in};
ghost use Rattle.placement.specs.Tables.{tables};
ghost use Rattle.placement.specs.Planning.{call};
ghost use Rattle.planner.specs.Answers.{plan_numbers};
ghost use Rattle.plan_after.specs.AfterPromise.{PlanAfterPromise};

use mark::{HeldPlan, mark_disks};
use placement::PlanTables;
use planner::{PlanSums, plan, plan_behind};
use refusal::Refusal;

// Plans for a rack of disks, one number each, from the bytes of a demand list and of an earlier
// plan's text. The plan goes into the lent tables, each copy marked whose film the same disk held
// in the earlier plan. A refusal changes none of them.
// Kept: the three tables as slices, since this signature is public.
pub fn plan_after(
    rack: &[u64],
    list: &[u8],
    earlier: &[u8],
    copies: &mut [u64],
    counts: &mut [u32],
    left: &mut [u64],
) -> Result<PlanSums, Refusal>
    ensures promise { PlanAfterPromise
        (call (disks_in rack.now) list.now) earlier.now
        (tables copies.old counts.old left.old)
        (tables copies.new counts.new left.new)
        (plan_numbers result) }
    ensures unchanged { OnErr result
        (tables copies.new counts.new left.new ≡ tables copies.old counts.old left.old) }
{
    // Kept: `reader::read` takes a lent slice, and answers how many disks are in it.
    let mut rack_before = [0u64; 64];
    let mut before = PlanTables::new();
    let read = reader::read(
        earlier,
        &mut rack_before,
        &mut before.copies,
        &mut before.counts,
        &mut before.left,
    );
    match read {
        Err(refusal) => plan_behind(rack, list, copies, counts, left, Err(refusal)),
        Ok(told) => {
            let sums = plan(rack, list, copies, counts, left)?;
            let held = HeldPlan {
                rack: &rack_before[..told.disks as usize],
                copies: &before.copies,
                counts: &before.counts,
            };
            mark_disks(rack, copies, &held);
            Ok(sums)
        }
    }
}
