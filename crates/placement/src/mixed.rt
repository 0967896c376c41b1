// A rack of large and small disks, one number each: its refusals, its slots, and the room that its plans need.
ghost use Rattle.std.specs.Prelude.{◌≡◌, true, ◌*◌, ◌≤◌, min, leb, length};
ghost use Rattle.refusal.specs.Verdict.{given};
ghost use Rattle.refusal.specs.Numbers.{verdict_of};
ghost use Rattle.placement.specs.Rack.{most_disks, most_slots, disk_in_range, all_in_range, disks_in_range, same_ratio, all_slots, first_slots, first_load};
ghost use Rattle.placement.specs.Packed.{disk_in, disks_in};
ghost use Rattle.placement.specs.Tables.{room_in};
ghost use Rattle.placement.specs.Planning.{ratio_judged_from, rack_judged};

use crate::packed::{disk_slots, disk_streams};
use crate::rack::{Slots, Streams, in_range};
use crate::{MOST_DISKS, MOST_SLOTS, MOST_STREAMS};
use refusal::Refusal;

// The most slots of an accepted rack.
const MOST_PLACES: usize = 2_048;

// Whether a disk's slots and streams are in their ranges.
fn in_ranges(disk: u64) -> bool
    ensures { result ≡ disk_in_range (disk_in «disk») }
{
    in_range(MOST_SLOTS, disk_slots(disk).0) && in_range(MOST_STREAMS, disk_streams(disk).0)
}

// Whether every disk is in its ranges.
// Kept: like two functions of well_formed, but each is this one line over a test of its own.
fn all_in_range(rack: &[u64]) -> bool
    ensures { result ≡ all_in_range (disks_in rack.now) }
{
    rack.iter().all(|disk| in_ranges(*disk))
}

// Whether there are 1 to 64 disks, each in its ranges.
fn disks_in_range(rack: &[u64]) -> bool
    ensures { result ≡ disks_in_range (disks_in rack.now) }
{
    (1..=MOST_DISKS as usize).contains(&rack.len()) && all_in_range(rack)
}

// Whether a disk's streams are to its slots as `streams` to `slots`.
fn same_ratio(slots: Slots, streams: Streams, disk: u64) -> bool
    ensures { result ≡ same_ratio slots.0 streams.0 (disk_in «disk») }
{
    u64::from(disk_streams(disk).0) * u64::from(slots.0)
        == u64::from(streams.0) * u64::from(disk_slots(disk).0)
}

// The first disk of another ratio than disk 1.
fn judge_ratios(rack: &[u64]) -> Result<(), Refusal>
    requires { disks_in_range (disks_in rack.now) ≡ true }
    ensures { verdict_of result
        ≡ ratio_judged_from (first_slots (disks_in rack.now)) (first_load (disks_in rack.now)) 1 (disks_in rack.now) (given tt) }
{
    let slots = disk_slots(rack[0]);
    let streams = disk_streams(rack[0]);
    for (d, disk) in rack.iter().enumerate() {
        if !same_ratio(slots, streams, *disk) {
            return Err(Refusal::RatioDiffers(d as u32 + 1));
        }
    }
    Ok(())
}

// The refusals of a rack: 12, then 13 with the disk.
pub fn judge_rack(rack: &[u64]) -> Result<(), Refusal>
    ensures { verdict_of result ≡ rack_judged (disks_in rack.now) (given tt) }
{
    if !disks_in_range(rack) {
        return Err(Refusal::DisksOutOfRange);
    }
    judge_ratios(rack)
}

// All slots of a rack, or 2,048 where they are more. An accepted rack has no more.
pub fn all_slots(rack: &[u64]) -> usize
    ensures { result ≡ min (all_slots (disks_in rack.now)) (most_disks * most_slots) }
{
    let mut sum = 0;
    for disk in rack {
        let slots = disk_slots(*disk).0 as usize;
        if MOST_PLACES - sum < slots {
            return MOST_PLACES;
        }
        sum += slots;
    }
    sum
}

// Whether so many places are enough for all slots: each disk takes its own.
fn slots_fit(rack: &[u64], places: usize) -> bool
    ensures { result ≡ leb (all_slots (disks_in rack.now)) places }
{
    let mut free = places;
    for disk in rack {
        let slots = disk_slots(*disk).0 as usize;
        if free < slots {
            return false;
        }
        free -= slots;
    }
    true
}

// Whether tables of these lengths have a place for each slot, each disk and each of `films` left films.
// Kept: three lengths, since this signature is public; `LentTables::has_room` has them by its tables.
pub fn room(rack: &[u64], films: usize, copies: usize, counts: usize, left: usize) -> bool
    ensures { result ≡ room_in (disks_in rack.now) films copies counts left }
{
    slots_fit(rack, copies) && rack.len() <= counts && films <= left
}
