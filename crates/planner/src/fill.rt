// Filling disks: the next list after a window, one disk, and all disks in filling order.
ghost use Rattle.std.specs.Prelude.{◌≡◌, true, map, ◌+◌, ◌-◌, ◌≤◌, ◌<◌, length};
ghost use Rattle.placement.specs.Items.{item, enter, total};
ghost use Rattle.placement.specs.Rack.{disk, all_slots, rack_accepted, most_load, most_demand};
ghost use Rattle.placement.specs.Window.{window, outside};
ghost use Rattle.placement.specs.Disk.{last_film, copies_of, list_after};
ghost use Rattle.placement.specs.Method.{remaining, served as served_by};
ghost use Rattle.placement.specs.FillingOrder.{filling, placed};
ghost use Rattle.placement.specs.Tables.{entry_of, padded, written, places};
ghost use Rattle.placement.specs.Packed.{disks_in};
ghost use Rattle.placement.specs.WellFormed.{Each, Entry};
ghost use Rattle.planner.specs.Keys.{items_of};
ghost use Rattle.planner.specs.Copies.{run_of};
ghost use Rattle.planner.specs.Order.{Ordered};

use crate::order::{filling_order, first_places};
use crate::store::store_entries;
use crate::window::find_window;
use crate::{key, worklist};
use placement::{Slots, Streams, disk_slots, disk_streams};

// What filling one disk comes to: how many films are in the list then, the disk's copies and their viewers.
#[derive(Clone, Copy)]
pub(crate) struct Step {
    pub(crate) left: usize,
    pub(crate) copies: u32,
    pub(crate) served: u64,
}

// What a sum has above the load.
fn excess(sum: u32, load: u32) -> u32
    ensures { result ≡ sum - load }
{
    if sum < load {
        return 0;
    }
    sum - load
}

// Takes a window out of the list. `over` remains of its last film and returns to its sorted place. Answers how many films
// are in the list then.
fn take_window(keys: &mut [u64], n: usize, start: usize, size: usize, over: u32) -> usize
    requires size_bound { (start + size ≤ n) × (n ≤ length keys.old) }
    requires over_bound { over ≤ (last_film (run_of keys.old start size)).amount }
    ensures keys_after { items_of result keys.new ≡ enter (item (last_film (run_of keys.old start size)).film over) (outside (window start size) (items_of n keys.old)) }
    ensures upper_bound { result ≤ n }
{
    if over < 1 {
        worklist::remove(keys, n, start, size);
        return n - size;
    }
    let film = key::film(keys[start + (size - 1)]);
    worklist::remove(keys, n, start, size);
    worklist::enter(keys, n - size, key::make(film, over))
}

// Fills one disk: its copies go to the front of the lent table, and what they serve leaves the list.
pub(crate) fn fill_one(
    copies: &mut [u64],
    keys: &mut [u64],
    n: usize,
    slots: Slots,
    streams: Streams,
) -> Step
    requires slots_in_bounds { (slots.0 ≤ length copies.old) × (n ≤ length keys.old) }
    requires le_slots { (1 ≤ slots.0) × (1 ≤ streams.0) × (streams.0 ≤ most_load) × Each (Entry most_demand) (items_of n keys.old) }
    ensures copies_after { copies.new ≡ written (padded slots.0 (map entry_of (copies_of (disk slots.0 streams.0) (items_of n keys.old)))) copies.old }
    ensures keys_after { (items_of result.left keys.new ≡ list_after (disk slots.0 streams.0) (items_of n keys.old)) × (result.left ≤ n) }
    ensures copies_value { result.copies ≡ length (copies_of (disk slots.0 streams.0) (items_of n keys.old)) }
    ensures served_value { result.served ≡ total (copies_of (disk slots.0 streams.0) (items_of n keys.old)) }
{
    let places = slots.0 as usize;
    let load = streams.0;
    let found = find_window(keys, n, places, load);
    let start = found.start;
    let size = found.size;
    let sum = found.sum;
    let over = excess(sum, load);
    store_entries(copies, keys, start, size, over, places);
    let left = take_window(keys, n, start, size, over);
    Step {
        left,
        copies: size as u32,
        served: (sum - over) as u64,
    }
}

// What filling all disks comes to: how many films are left in the list, and the viewers of all copies.
#[derive(Clone, Copy)]
pub(crate) struct Filled {
    pub(crate) left: usize,
    pub(crate) served: u64,
}

// Fills the disks in the order of `order`. The part of the copy table from a disk's first place on is lent to the step that fills the disk.
fn fill_in_order(
    copies: &mut [u64],
    counts: &mut [u32],
    keys: &mut [u64],
    n: usize,
    rack: &[u64],
    order: &[u64],
    firsts: &[usize],
) -> Filled
    requires rack_in_bounds { (all_slots (disks_in rack.now) ≤ length copies.old) × (length rack.now ≤ length counts.old) × (n ≤ length keys.old) }
    requires rack_value { (rack_accepted (disks_in rack.now) ≡ true) × Each (Entry most_demand) (items_of n keys.old) }
    requires ordered { Ordered rack.now order.now firsts.now }
    ensures copies_after { copies.new ≡ written (places (disks_in rack.now) (placed (disks_in rack.now) (items_of n keys.old))) copies.old }
    ensures counts_after { counts.new ≡ written (map length (placed (disks_in rack.now) (items_of n keys.old))) counts.old }
    ensures keys_after { (items_of result.left keys.new ≡ remaining (filling (disks_in rack.now)) (items_of n keys.old)) × (result.left ≤ n) }
    ensures served_value { result.served ≡ served_by (placed (disks_in rack.now) (items_of n keys.old)) }
{
    let disks = rack.len();
    let mut filled = 0;
    let mut left = n;
    let mut served = 0;
    while filled < disks {
        let number = key::film(order[filled]) as usize;
        let disk = rack[number];
        let first = firsts[number];
        let step = fill_one(
            &mut copies[first..],
            keys,
            left,
            disk_slots(disk),
            disk_streams(disk),
        );
        counts[number] = step.copies;
        left = step.left;
        served += step.served;
        filled += 1;
    }
    Filled { left, served }
}

// Fills all disks, by ascending slots and equal ones by number.
pub(crate) fn fill_all(
    copies: &mut [u64],
    counts: &mut [u32],
    keys: &mut [u64],
    n: usize,
    rack: &[u64],
) -> Filled
    requires rack_in_bounds { (all_slots (disks_in rack.now) ≤ length copies.old) × (length rack.now ≤ length counts.old) × (n ≤ length keys.old) }
    requires rack_value { (rack_accepted (disks_in rack.now) ≡ true) × Each (Entry most_demand) (items_of n keys.old) }
    ensures copies_after { copies.new ≡ written (places (disks_in rack.now) (placed (disks_in rack.now) (items_of n keys.old))) copies.old }
    ensures counts_after { counts.new ≡ written (map length (placed (disks_in rack.now) (items_of n keys.old))) counts.old }
    ensures keys_after { (items_of result.left keys.new ≡ remaining (filling (disks_in rack.now)) (items_of n keys.old)) × (result.left ≤ n) }
    ensures served_value { result.served ≡ served_by (placed (disks_in rack.now) (items_of n keys.old)) }
{
    let mut order = [0u64; 64];
    let mut firsts = [0usize; 64];
    filling_order(rack, &mut order);
    first_places(rack, &mut firsts);
    fill_in_order(copies, counts, keys, n, rack, &order, &firsts)
}
