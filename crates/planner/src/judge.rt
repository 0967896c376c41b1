// The refusals of planning, in the order of documents 01 and 02, from the rack, the list and the lengths of the lent tables.
ghost use Rattle.placement.specs.Packed.{disks_in};
ghost use Rattle.placement.specs.Planning.{call};
ghost use Rattle.planner.specs.Verdicts.{Judges};

use demand_list::{judge_list, judge_shape};
use placement::{judge_rack, room};
use refusal::Refusal;

// The first refusal of planning that applies, for tables of these lengths.
pub(crate) fn judge(
    rack: &[u64],
    list: &[u8],
    copies: usize,
    counts: usize,
    left: usize,
) -> Result<(), Refusal>
    ensures { Judges (call (disks_in rack.now) list.now) copies counts left result }
{
    judge_rack(rack)?;
    judge_shape(list)?;
    if !room(rack, list.len() / 8, copies, counts, left) {
        return Err(Refusal::TablesTooShort);
    }
    judge_list(list)
}
