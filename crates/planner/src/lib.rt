// Planning: the bytes of a demand list to the lent tables, in steps of one module each.
#![tactic(auto)]

mod answer; // answer.rt: what planning answers where it is not refused
mod build; // build.rt: the working list from the records
mod fill; // fill.rt: one disk filled, and all disks
mod fulfil; // fulfil.rt: the plan of a list that is not refused
mod judge; // judge.rt: the refusals of planning
mod key; // key.rt: a film with its amount as one number
mod left; // left.rt: the left table
mod order; // order.rt: the order in which the disks are filled
mod shelf; // shelf.rt: shelf copies
mod store; // store.rt: entries in a lent table
mod window; // window.rt: the window of a disk
mod worklist; // worklist.rt: the working list as ascending numbers

ghost use Rattle.std.specs.Prelude.{◌≡◌, OnErr};
ghost use Rattle.refusal.specs.Numbers.{verdict_of};
ghost use Rattle.placement.specs.Packed.{disks_in};
ghost use Rattle.placement.specs.Tables.{tables};
ghost use Rattle.placement.specs.Planning.{call};
ghost use Rattle.placement.specs.PlanPromise.{PlanPromise};
ghost use Rattle.planner.specs.Answers.{plan_numbers};
ghost use Rattle.planner.specs.Behind.{BehindPromise};

pub use answer::PlanSums;
use fulfil::fill_tables;
use judge::judge;
use refusal::Refusal;

// Plans for a rack of disks, one number each, from the bytes of a demand list. A plan goes into the lent tables: each disk's copies from its first place on,
// the number of copies of each disk, and what is left. A refusal changes none of them.
pub fn plan(
    rack: &[u64],
    list: &[u8],
    copies: &mut [u64],
    counts: &mut [u32],
    left: &mut [u64],
) -> Result<PlanSums, Refusal>
    ensures promise { PlanPromise
        (call (disks_in rack.now) list.now)
        (tables copies.old counts.old left.old)
        (tables copies.new counts.new left.new)
        (plan_numbers result) }
    ensures unchanged { OnErr result
        (tables copies.new counts.new left.new ≡ tables copies.old counts.old left.old) }
{
    judge(rack, list, copies.len(), counts.len(), left.len())?;
    Ok(fill_tables(rack, list, copies, counts, left))
}

// Plans as `plan` does, unless another judgement, which stands behind planning's refusals, is a refusal.
pub fn plan_behind(
    rack: &[u64],
    list: &[u8],
    copies: &mut [u64],
    counts: &mut [u32],
    left: &mut [u64],
    behind: Result<(), Refusal>,
) -> Result<PlanSums, Refusal>
    ensures promise { BehindPromise
        (call (disks_in rack.now) list.now)
        (verdict_of behind)
        (tables copies.old counts.old left.old)
        (tables copies.new counts.new left.new)
        (plan_numbers result) }
    ensures unchanged { OnErr result
        (tables copies.new counts.new left.new ≡ tables copies.old counts.old left.old) }
{
    judge(rack, list, copies.len(), counts.len(), left.len()).and(behind)?;
    Ok(fill_tables(rack, list, copies, counts, left))
}
