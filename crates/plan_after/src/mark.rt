// Marks in the copy table: 1 where the same disk held the same film before.
ghost use Rattle.std.specs.Prelude.{◌≡◌, map, ◌≤◌, length};
ghost use Rattle.placement.specs.Copies.{unmarked, layout_of};
ghost use Rattle.placement.specs.Rack.{all_slots};
ghost use Rattle.placement.specs.Packed.{disks_in};
ghost use Rattle.placement.specs.Tables.{copies_in, written};
ghost use Rattle.placement.specs.Held.{marked_from};
ghost use Rattle.plan_after.specs.Marking.{marked_entry, marked_places};
ghost use Rattle.plan_after.specs.Held.{HeldBefore};

use placement::{copy_film, disk_slots, with_mark};
use well_formed::absent;

// An earlier plan: its disks, and the tables with its copies.
#[derive(Clone, Copy)]
pub(crate) struct HeldPlan<'a> {
    pub(crate) rack: &'a [u64],
    pub(crate) copies: &'a [u64],
    pub(crate) counts: &'a [u32],
}

// An entry with the mark where its film is among the copies held, else as it was.
fn marked_entry(entry: u64, held: &[u64]) -> u64
    ensures { result ≡ marked_entry (map unmarked (copies_in held.now)) «entry» }
{
    if absent(copy_film(entry), held, 0) {
        return entry;
    }
    with_mark(entry)
}

// Marks the places of one disk by the copies that it held.
fn mark_places(places: &mut [u64], held: &[u64])
    ensures { places.new ≡ map (marked_entry (map unmarked (copies_in held.now))) places.old }
{
    for place in places.iter_mut() {
        *place = marked_entry(*place, held);
    }
}

// Marks the places of the disks that held something before, each by what it held.
pub(crate) fn mark_disks(rack: &[u64], copies: &mut [u64], held: &HeldPlan)
    requires rack_in_bounds { all_slots (disks_in rack.now) ≤ length copies.old }
    requires held_before { HeldBefore (disks_in held.now.rack.now) held.now.copies.now held.now.counts.now }
    ensures { copies.new
        ≡ written (marked_places (disks_in rack.now) copies.old
        (layout_of (marked_from (disks_in held.now.rack.now) held.now.copies.now held.now.counts.now))) copies.old }
{
    // Kept: disks' places differ in number, so no `chunks`; a rest to split is no plainer.
    let mut first = 0usize;
    let mut held_first = 0usize;
    for ((disk, held_disk), count) in rack.iter().zip(held.rack).zip(held.counts) {
        let end = first + disk_slots(*disk).0 as usize;
        let held_end = held_first + *count as usize;
        mark_places(&mut copies[first..end], &held.copies[held_first..held_end]);
        first = end;
        held_first += disk_slots(*held_disk).0 as usize;
    }
}
