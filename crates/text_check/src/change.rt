// What a case changes.
use crate::lent::Part;

// What is set or lent in a case, at the case's place and with its value.
#[derive(Clone, Copy, PartialEq, Eq)]
pub(crate) enum Change {
    // The film or the viewers of a copy.
    CopyFilm,
    CopyViewers,
    // The number of a disk's copies.
    Count,
    // The film or the amount of an entry of the left table.
    LeftFilm,
    LeftAmount,
    // The number of disks that is stated.
    StatedDisks,
    // The slots or the streams of a disk.
    Slots,
    Streams,
    // The number of left films that is stated.
    StatedLeft,
    // Fewer places of one part.
    Lend(Part),
    // A byte of the text.
    TextByte,
    // A disk, which is made like another.
    LikeDisk,
}

// A number of a file of cases that says of no change.
#[derive(Drop)]
pub(crate) struct NoChange;

impl TryFrom<usize> for Change {
    type Error = NoChange;

    fn try_from(number: usize) -> Result<Change, NoChange> {
        match number {
            1 => Ok(Change::CopyFilm),
            2 => Ok(Change::CopyViewers),
            3 => Ok(Change::Count),
            4 => Ok(Change::LeftFilm),
            5 => Ok(Change::LeftAmount),
            6 => Ok(Change::StatedDisks),
            7 => Ok(Change::Slots),
            8 => Ok(Change::Streams),
            9 => Ok(Change::StatedLeft),
            10 => Ok(Change::Lend(Part::Rack)),
            11 => Ok(Change::Lend(Part::Copies)),
            12 => Ok(Change::Lend(Part::Counts)),
            13 => Ok(Change::Lend(Part::Left)),
            14 => Ok(Change::Lend(Part::Text)),
            15 => Ok(Change::TextByte),
            16 => Ok(Change::LikeDisk),
            _ => Err(NoChange),
        }
    }
}
