// The rack of document 01: slots, streams, N equal disks, and their ranges.
ghost use Rattle.std.specs.Prelude.{◌≡◌};
ghost use Rattle.placement.specs.Rack.{in_range, sizes_in_range};

use crate::{MOST_DISKS, MOST_SLOTS, MOST_STREAMS};

// How many films a disk can store: 01's k.
#[repr(C)]
#[derive(Clone, Copy, Debug, PartialEq, Eq, PartialOrd, Ord, Hash)]
pub struct Slots(pub u32);

// How many viewers a disk can serve at a time: 01's load L.
#[repr(C)]
#[derive(Clone, Copy, Debug, PartialEq, Eq, PartialOrd, Ord, Hash)]
pub struct Streams(pub u32);

// A rack of equal disks: 01's N, k and L.
#[derive(Clone, Copy, Debug, PartialEq, Eq, Hash)]
pub struct Rack {
    pub disks: u32,
    pub slots: Slots,
    pub streams: Streams,
}

// Whether a number is at least 1 and at most a limit.
pub fn in_range(most: u32, n: u32) -> bool
    ensures { result ≡ in_range most n }
{
    (1..=most).contains(&n)
}

// Whether each of the rack's numbers is in its range.
pub fn accepted(rack: Rack) -> bool
    ensures { result ≡ sizes_in_range rack.disks rack.slots.0 rack.streams.0 }
{
    in_range(MOST_DISKS, rack.disks)
        && in_range(MOST_SLOTS, rack.slots.0)
        && in_range(MOST_STREAMS, rack.streams.0)
}
