// The rack as a caller lends it: a slice of disk entries, read and written by two functions.
#![tactic(auto)]

ghost use Rattle.std.specs.Prelude.{◌≡◌, ◌++◌, min, length, take, drop};
ghost use Rattle.placement.specs.Packed.{disk_in};
ghost use Rattle.disk_entries.specs.Entries.{disk_of, disks_of_entries, held_disks};

use placement::{Slots, Streams, disk_of, disk_slots, disk_streams};

// One more than the most disks: a packed rack of so many disks is too long.
pub const MOST_PACKED: usize = 65;

// A disk as a caller lends it: `struct jugfjord_disk` of the header.
#[repr(C)]
#[derive(Clone, Copy, Debug, PartialEq, Eq, Hash)]
pub struct DiskEntry {
    pub slots: Slots,
    pub streams: Streams,
}

// Disks as numbers: the first `count` of `disks`. What they hold is all that a packed rack says; no function looks further.
// Kept: `held_count` and `unpack` answer for counts above 65 too, which an ArrayVec excludes.
#[derive(Clone, Copy, Debug)]
pub struct PackedDisks {
    pub count: usize,
    pub disks: [u64; 65],
}

// The entry's disk as one number.
impl From<DiskEntry> for u64 {
    ghost from_gives = { λ entry number. disk_in number ≡ disk_of entry };

    fn from(entry: DiskEntry) -> u64 {
        disk_of(entry.slots, entry.streams)
    }
}

// The entry of a disk's number.
impl From<u64> for DiskEntry {
    ghost from_gives = { λ number entry. disk_of entry ≡ disk_in number };

    fn from(number: u64) -> DiskEntry {
        DiskEntry {
            slots: disk_slots(number),
            streams: disk_streams(number),
        }
    }
}

// How many disks are held.
pub fn held_count(packed: PackedDisks) -> usize
    ensures { result ≡ length (held_disks packed) }
{
    packed.count.min(MOST_PACKED)
}

// How many of the disks fit into `room` entries.
fn fitting(packed: PackedDisks, room: usize) -> usize
    ensures { result ≡ min (length (held_disks packed)) room }
{
    held_count(packed).min(room)
}

// The disks of the lent entries, as many as there is room for.
pub fn pack(rack: &[DiskEntry]) -> PackedDisks
    ensures { held_disks result ≡ take 65 (disks_of_entries rack.now) }
{
    let count = rack.len().min(MOST_PACKED);
    let mut disks = [0; 65];
    for (i, entry) in rack[..count].iter().enumerate() {
        disks[i] = u64::from(*entry);
    }
    PackedDisks { count, disks }
}

// Puts the disks into the front of the lent entries, as many as fit. The entries behind them stay as they are.
pub fn unpack(packed: PackedDisks, rack: &mut [DiskEntry])
    ensures { disks_of_entries rack.new
        ≡ take (length rack.old) (held_disks packed)
        ++ drop (length (held_disks packed)) (disks_of_entries rack.old) }
{
    let count = fitting(packed, rack.len());
    for (i, number) in packed.disks[..count].iter().enumerate() {
        rack[i] = DiskEntry::from(*number);
    }
}
