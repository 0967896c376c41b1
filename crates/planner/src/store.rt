// Entries in a lent table: a run of the working list, zero entries behind.
ghost use Rattle.std.specs.Prelude.{◌≡◌, map, ◌+◌, ◌≤◌, ◌<◌, length, get_or};
ghost use Rattle.placement.specs.Disk.{last_film};
ghost use Rattle.placement.specs.Tables.{entry_of, padded, written};
ghost use Rattle.planner.specs.Copies.{run_of, less_last};

use crate::key;
use placement::entry_of;

// The entry at a place: the run's key, `over` less for its last one, and 0 behind the run.
fn entry_at(keys: &[u64], start: usize, size: usize, over: u32, place: usize) -> u64
    requires size_in_bounds { start + size ≤ length keys.now }
    requires over_bound { over ≤ (last_film (run_of keys.now start size)).amount }
    ensures { result ≡ get_or (map entry_of (less_last over (run_of keys.now start size))) place 0 }
{
    if size <= place {
        return 0;
    }
    let key = keys[start + place];
    if place + 1 < size {
        return key::as_entry(key);
    }
    entry_of(key::film(key), key::amount(key) - over)
}

// Stores the entries of a run, `over` less for its last one, and zeros behind them up to `places`.
pub(crate) fn store_entries(
    table: &mut [u64],
    keys: &[u64],
    start: usize,
    size: usize,
    over: u32,
    places: usize,
)
    requires size_in_bounds { (start + size ≤ length keys.now) × (size ≤ places) × (places ≤ length table.old) }
    requires over_bound { over ≤ (last_film (run_of keys.now start size)).amount }
    ensures { table.new
        ≡ written (padded places (map entry_of (less_last over (run_of keys.now start size)))) table.old }
{
    let mut place = 0;
    while place < places {
        table[place] = entry_at(keys, start, size, over, place);
        place += 1;
    }
}
