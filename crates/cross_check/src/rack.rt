// The disks of a case's rack.
use crate::case::Case;
use crate::draw::{draw, from_to};
use crate::fault::Fault;
use crate::full::Full;
use crate::plain::Disk;
use arrayvec::ArrayVec;

// The most disks of a case, one more than a rack may have.
pub(crate) const MOST_DISKS: usize = 65;

pub(crate) type Rack = ArrayVec<Disk, MOST_DISKS>;

// The disk that has a fault: the first, the last or any.
fn faulty_disk(case: &Case, place: u64) -> u32 {
    match draw(case.number, place, 4) {
        0 => 0,
        1 => case.disks.wrapping_sub(1),
        _ => draw(case.number, place | 64, case.disks),
    }
}

// A disk with a fault, if this is one of a disk: a number at or beyond its limits, or one more or
// one fewer than the ratio wants.
fn with_fault(mut disk: Disk, fault: Option<Fault>) -> Disk {
    match fault {
        Some(Fault::NoSlots) => disk.slots = 0,
        Some(Fault::TooManySlots) => disk.slots = 33,
        Some(Fault::SlotsAboveRatio) => disk.slots = disk.slots.wrapping_add(1),
        Some(Fault::SlotsBelowRatio) => disk.slots = disk.slots.wrapping_sub(1),
        Some(Fault::NoLoad) => disk.load = 0,
        Some(Fault::LoadTooLarge) => disk.load = 65_536,
        Some(Fault::LoadAboveRatio) => disk.load = disk.load.wrapping_add(1),
        Some(Fault::LoadBelowRatio) => disk.load = disk.load.wrapping_sub(1),
        _ => {}
    }
    disk
}

// Disk i, counted from 0: so many times the case's slots and load, with the faults that it has.
fn disk(case: &Case, i: u32) -> Disk {
    let size = from_to(case.number, 6_000 + u64::from(i), 1, case.sizes);
    let mut disk = Disk {
        slots: case.slots.wrapping_mul(size),
        load: case.load.wrapping_mul(size),
    };
    for (fault, place) in case.faults.iter().zip([25, 26]) {
        if faulty_disk(case, place) == i {
            disk = with_fault(disk, *fault);
        }
    }
    disk
}

// The disks of a case.
pub(crate) fn rack_of(case: &Case) -> Result<Rack, Full> {
    let mut rack = Rack::new();
    rack.extend((0..case.disks).map(|i| disk(case, i)))?;
    Ok(rack)
}
