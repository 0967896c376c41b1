// The plan of a call that is not refused: the list, the disks in order, the shelf copies, and what is left.
ghost use Rattle.std.specs.Prelude.{◌≡◌, ◌≤◌, length};
ghost use Rattle.placement.specs.Rack.{most_records};
ghost use Rattle.placement.specs.Packed.{disks_in};
ghost use Rattle.placement.specs.Tables.{tables};
ghost use Rattle.placement.specs.Planning.{call, sums_in, holding_call};
ghost use Rattle.planner.specs.Answers.{sums_of};
ghost use Rattle.planner.specs.Plannable.{Plannable};

use crate::answer::PlanSums;
use crate::build::build;
use crate::fill::fill_all;
use crate::left::store_left;
use crate::shelf::shelve_all;

// Plans into the lent tables, with `keys` as the working list. What is left is one run of it: the films of demand 0 without a slot, and
// behind them what the method leaves.
fn fill_with(
    rack: &[u64],
    list: &[u8],
    copies: &mut [u64],
    counts: &mut [u32],
    left: &mut [u64],
    keys: &mut [u64],
) -> PlanSums
    requires plannable { Plannable (call (disks_in rack.now) list.now) (tables copies.old counts.old left.old) }
    requires most_records_in_bounds { most_records ≤ length keys.old }
    ensures result_value { sums_of result ≡ sums_in (call (disks_in rack.now) list.now) }
    ensures left_after { tables copies.new counts.new left.new
        ≡ holding_call (call (disks_in rack.now) list.now) (tables copies.old counts.old left.old) }
{
    let records = list.len() / 8;
    let films = build(list, keys);
    let filled = fill_all(copies, counts, &mut keys[films..], records - films, rack);
    let placed = shelve_all(copies, counts, keys, films, rack);
    let rest = films - placed + filled.left;
    let unserved = store_left(left, &keys[placed..], rest, records);
    PlanSums {
        served: filled.served,
        unserved,
        left: rest as u32,
    }
}

// Plans into the lent tables.
pub(crate) fn fill_tables(
    rack: &[u64],
    list: &[u8],
    copies: &mut [u64],
    counts: &mut [u32],
    left: &mut [u64],
) -> PlanSums
    requires { Plannable (call (disks_in rack.now) list.now) (tables copies.old counts.old left.old) }
    ensures result_value { sums_of result ≡ sums_in (call (disks_in rack.now) list.now) }
    ensures left_after { tables copies.new counts.new left.new
        ≡ holding_call (call (disks_in rack.now) list.now) (tables copies.old counts.old left.old) }
{
    let mut keys = [0; 1024];
    fill_with(rack, list, copies, counts, left, &mut keys)
}
