// Planning for C.
ghost use Rattle.std.specs.Prelude.{◌≡◌};
ghost use Rattle.placement.specs.Tables.{tables};
ghost use Rattle.placement.specs.Planning.{call};
ghost use Rattle.placement.specs.PlanPromise.{PlanPromise};
ghost use Rattle.disk_entries.specs.Entries.{disks_of_entries};
ghost use Rattle.plan_after.specs.AfterPromise.{PlanAfterPromise};
ghost use Rattle.plan_terminal.specs.TerminalPromise.{TerminalPromise};
ghost use Rattle.planner.specs.Answers.{plan_numbers};
ghost use Rattle.jugfjord.specs.Numbers.{planned_fields};

use crate::held::held;
use disk_entries::{DiskEntry, pack};
use planner::PlanSums;
use refusal::Refusal;

// `struct jugfjord_planned` of the header.
// Kept: number and second, since C reads this struct of the header, which has them.
#[repr(C)]
#[derive(Clone, Copy, Debug, PartialEq, Eq, Default)]
pub struct Planned {
    pub number: u32,
    pub second: u32,
    pub served: u64,
    pub unserved: u64,
    pub left: u32,
}

// The numbers of planning's answer: those of a refusal, or of a plan.
impl From<Result<PlanSums, Refusal>> for Planned {
    ghost from_gives = { λ answer planned. planned_fields planned ≡ plan_numbers answer };

    fn from(answer: Result<PlanSums, Refusal>) -> Planned {
        match answer {
            Ok(sums) => Planned {
                served: sums.served,
                unserved: sums.unserved,
                left: sums.left,
                ..Planned::default()
            },
            // Kept: alike in four impls, since C reads four structs with other fields.
            Err(refusal) => Planned {
                number: refusal::number(refusal),
                second: refusal::second(refusal),
                ..Planned::default()
            },
        }
    }
}

// Kept: three functions with the tables as slices, since C calls each by name and lends them so.

// `planner::plan` with lent entries.
pub fn jugfjord_plan(
    rack: &[DiskEntry],
    list: &[u8],
    copies: &mut [u64],
    counts: &mut [u32],
    left: &mut [u64],
) -> Planned
    ensures { PlanPromise
        (call (disks_of_entries rack.now) list.now)
        (tables copies.old counts.old left.old)
        (tables copies.new counts.new left.new)
        (planned_fields result) }
{
    let packed = pack(rack);
    let disks = held(&packed);
    Planned::from(planner::plan(disks, list, copies, counts, left))
}

// `plan_terminal::plan_terminal` with lent entries.
pub fn jugfjord_plan_terminal(
    rack: &[DiskEntry],
    list: &[u8],
    copies: &mut [u64],
    counts: &mut [u32],
    left: &mut [u64],
) -> Planned
    ensures { TerminalPromise
        (call (disks_of_entries rack.now) list.now)
        (tables copies.old counts.old left.old)
        (tables copies.new counts.new left.new)
        (planned_fields result) }
{
    let packed = pack(rack);
    let disks = held(&packed);
    Planned::from(plan_terminal::plan_terminal(disks, list, copies, counts, left))
}

// `plan_after::plan_after` with lent entries.
pub fn jugfjord_plan_after(
    rack: &[DiskEntry],
    list: &[u8],
    earlier: &[u8],
    copies: &mut [u64],
    counts: &mut [u32],
    left: &mut [u64],
) -> Planned
    ensures { PlanAfterPromise
        (call (disks_of_entries rack.now) list.now) earlier.now
        (tables copies.old counts.old left.old)
        (tables copies.new counts.new left.new)
        (planned_fields result) }
{
    let packed = pack(rack);
    let disks = held(&packed);
    Planned::from(plan_after::plan_after(disks, list, earlier, copies, counts, left))
}
