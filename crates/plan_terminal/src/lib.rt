// Planning on the purser's terminal: the office's planner, for racks and lists that the terminal's tables hold.
#![tactic(auto)]

ghost use Rattle.std.specs.Prelude.{◌≡◌, cond, OnErr};
ghost use Rattle.refusal.specs.Verdict.{given, refused};
ghost use Rattle.refusal.specs.Numbers.{verdict_of};
ghost use Rattle.placement.specs.Packed.{disks_in};
ghost use Rattle.placement.specs.Records.{shape_judged};
ghost use Rattle.placement.specs.Tables.{tables};
ghost use Rattle.placement.specs.Planning.{call, rack_judged};
ghost use Rattle.planner.specs.Answers.{plan_numbers};
ghost use Rattle.plan_terminal.specs.Terminal.{fits_terminal};
ghost use Rattle.plan_terminal.specs.TerminalPromise.{TerminalPromise};

use demand_list::judge_shape;
use placement::judge_rack;
use planner::{PlanSums, plan};
use refusal::Refusal;

// The most disks and the most records that the terminal's tables hold.
pub const TERMINAL_DISKS: usize = 8;

pub const TERMINAL_RECORDS: usize = 96;

// Whether the terminal's tables hold the rack and the list.
fn fits_terminal(rack: &[u64], list: &[u8]) -> bool
    ensures { result ≡ fits_terminal (call (disks_in rack.now) list.now) }
{
    if TERMINAL_DISKS < rack.len() {
        return false;
    }
    list.len() / 8 <= TERMINAL_RECORDS
}

// The refusals of a call that the terminal's tables do not hold: the rack's, else that of the list's shape, else 17.
fn judge_size(rack: &[u64], list: &[u8]) -> Result<(), Refusal>
    ensures { verdict_of result
        ≡ cond (fits_terminal (call (disks_in rack.now) list.now)) (given tt)
        (rack_judged (disks_in rack.now) (shape_judged list.now (refused 17 0))) }
{
    if fits_terminal(rack, list) {
        return Ok(());
    }
    judge_rack(rack)?;
    judge_shape(list)?;
    Err(Refusal::TerminalTooSmall)
}

// Plans as `planner::plan` does, for up to 8 disks and 96 records. More of either is refused 17, behind 3 and before 7. A refusal changes none of the
// lent tables.
// Kept: the three tables as slices, since this signature is public.
pub fn plan_terminal(
    rack: &[u64],
    list: &[u8],
    copies: &mut [u64],
    counts: &mut [u32],
    left: &mut [u64],
) -> Result<PlanSums, Refusal>
    ensures promise { TerminalPromise
        (call (disks_in rack.now) list.now)
        (tables copies.old counts.old left.old)
        (tables copies.new counts.new left.new)
        (plan_numbers result) }
    ensures unchanged { OnErr result
        (tables copies.new counts.new left.new ≡ tables copies.old counts.old left.old) }
{
    judge_size(rack, list)?;
    plan(rack, list, copies, counts, left)
}
