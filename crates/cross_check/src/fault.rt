// The faults for which a case is to be refused.
use crate::draw::draw;

// What is wrong with the rack, the list or the lent tables of a case, or with one of its disks or
// records.
#[derive(Clone, Copy, Debug, PartialEq, Eq)]
pub(crate) enum Fault {
    NoDisks,
    TooManyDisks,
    NoSlots,
    TooManySlots,
    NoLoad,
    LoadTooLarge,
    OddBytes,
    TooManyRecords,
    ShortTable,
    FilmZero,
    FilmTooLarge,
    DemandTooLarge,
    FilmRepeated,
    LoadAboveRatio,
    LoadBelowRatio,
    SlotsAboveRatio,
    SlotsBelowRatio,
    ServiceClip,
}

// How many numbers faults are drawn from.
const DRAWN: u32 = 21;

// A number that is none of them.
#[derive(Clone, Copy, Debug, PartialEq, Eq)]
pub(crate) struct UnknownFault(u32);

impl TryFrom<u32> for Fault {
    type Error = UnknownFault;

    fn try_from(drawn: u32) -> Result<Fault, UnknownFault> {
        match drawn {
            0 => Ok(Fault::NoDisks),
            1 => Ok(Fault::TooManyDisks),
            2 => Ok(Fault::NoSlots),
            3 => Ok(Fault::TooManySlots),
            4 => Ok(Fault::NoLoad),
            5 => Ok(Fault::LoadTooLarge),
            6 => Ok(Fault::OddBytes),
            7 => Ok(Fault::TooManyRecords),
            8 | 9 => Ok(Fault::ShortTable),
            10 => Ok(Fault::FilmZero),
            11 => Ok(Fault::FilmTooLarge),
            12 => Ok(Fault::DemandTooLarge),
            13 | 14 => Ok(Fault::FilmRepeated),
            15 | 16 => Ok(Fault::LoadAboveRatio),
            17 => Ok(Fault::LoadBelowRatio),
            18 => Ok(Fault::SlotsAboveRatio),
            19 => Ok(Fault::SlotsBelowRatio),
            20 => Ok(Fault::ServiceClip),
            _ => Err(UnknownFault(drawn)),
        }
    }
}

impl Fault {
    // The fault that a place of a case draws.
    pub(crate) fn drawn(case: u64, place: u64) -> Option<Fault> {
        Fault::try_from(draw(case, place, DRAWN)).ok()
    }
}
