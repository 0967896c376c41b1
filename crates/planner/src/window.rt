// The search for a disk's window: opening films, sliding windows, the last window. The running total is a number of 32 bits. It is below
// the load when a film is added, so that no sum passes 1,065,534: a load of 65,535 less 1, and a demand of 1,000,000.
ghost use Rattle.std.specs.Prelude.{◌≡◌, ◌≤◌, ◌<◌, min, length, take};
ghost use Rattle.placement.specs.Items.{total};
ghost use Rattle.placement.specs.Rack.{disk, most_demand};
ghost use Rattle.placement.specs.Window.{window, within, slidings, last_window, first_reaching, window_of};
ghost use Rattle.placement.specs.WellFormed.{Each, Entry};
ghost use Rattle.planner.specs.Keys.{items_of};
ghost use Rattle.planner.specs.Search.{Opened};

use crate::key;

// A number of opening films and the sum of their amounts.
#[derive(Clone, Copy)]
struct Prefix {
    count: usize,
    sum: u32,
}

// A window of the list and the sum of its amounts.
#[derive(Clone, Copy)]
pub(crate) struct Found {
    pub(crate) start: usize,
    pub(crate) size: usize,
    pub(crate) sum: u32,
}

// The smaller of two numbers.
pub(crate) fn smaller(a: usize, b: usize) -> usize
    ensures { result ≡ min a b }
{
    if a < b {
        return a;
    }
    b
}

// The first opening films that reach the load, or the most that a disk takes.
fn opening(keys: &[u64], n: usize, slots: usize, load: u32) -> Prefix
    requires { (n ≤ length keys.now) × (1 ≤ load) × (load ≤ 65535) × Each (Entry most_demand) (items_of n keys.now) }
    ensures { Opened slots load (items_of n keys.now) result.count result.sum }
{
    let most = smaller(slots, n);
    let mut count = 0;
    let mut sum = 0;
    while count < most {
        sum += key::amount(keys[count]);
        count += 1;
        if load <= sum {
            return Prefix { count, sum };
        }
    }
    Prefix { count, sum }
}

// The first window of `slots` films from the second film on that reaches the load, or the last window. `first` is the sum
// of the window at the list's start, and the sum goes along: a turn takes the first film out and the next one in.
fn slide(keys: &[u64], n: usize, slots: usize, load: u32, first: u32) -> Found
    requires n_in_bounds { (n ≤ length keys.now) × (1 ≤ slots) × (load ≤ 65535) × Each (Entry most_demand) (items_of n keys.now) }
    requires first_value { (first ≡ total (take slots (items_of n keys.now))) × (first < load) }
    ensures size_value { window result.start result.size ≡ first_reaching load (items_of n keys.now) (slidings slots n) (last_window slots n) }
    ensures sum_value { result.sum ≡ total (within (window result.start result.size) (items_of n keys.now)) }
{
    let mut start = 0;
    let mut sum = first;
    while slots < n - start {
        sum = sum - key::amount(keys[start]) + key::amount(keys[start + slots]);
        start += 1;
        if load <= sum {
            return Found {
                start,
                size: slots,
                sum,
            };
        }
    }
    Found {
        start,
        size: n - start,
        sum,
    }
}

// The window of a disk, of the first `n` keys.
pub(crate) fn find_window(keys: &[u64], n: usize, slots: usize, load: u32) -> Found
    requires n_in_bounds { (n ≤ length keys.now) × (1 ≤ slots) }
    requires le_load { (1 ≤ load) × (load ≤ 65535) × Each (Entry most_demand) (items_of n keys.now) }
    ensures size_value { window result.start result.size ≡ window_of (disk slots load) (items_of n keys.now) }
    ensures sum_value { result.sum ≡ total (within (window result.start result.size) (items_of n keys.now)) }
{
    let first = opening(keys, n, slots, load);
    if load <= first.sum {
        return Found {
            start: 0,
            size: first.count,
            sum: first.sum,
        };
    }
    slide(keys, n, slots, load, first.sum)
}
