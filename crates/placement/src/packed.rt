// A disk as one number: its slots in the low 32 bits, its streams in the high 32 bits. A rack is a slice of such numbers.
ghost use Rattle.std.specs.Prelude.{◌≡◌};
ghost use Rattle.placement.specs.Rack.{disk};
ghost use Rattle.placement.specs.Packed.{packed_disk, disk_in};

use crate::entry::{entry_amount, entry_film, entry_of};
use crate::rack::{Slots, Streams};

// The number of a disk.
pub fn disk_of(slots: Slots, streams: Streams) -> u64
    ensures value { result ≡ packed_disk (disk slots.0 streams.0) }
    ensures result_value { disk_in result ≡ disk slots.0 streams.0 }
{
    entry_of(slots.0, streams.0)
}

// The slots of a disk.
pub fn disk_slots(disk: u64) -> Slots
    ensures { result.0 ≡ (disk_in «disk»).slots }
{
    Slots(entry_film(disk))
}

// The streams of a disk.
pub fn disk_streams(disk: u64) -> Streams
    ensures { result.0 ≡ (disk_in «disk»).load }
{
    Streams(entry_amount(disk))
}
