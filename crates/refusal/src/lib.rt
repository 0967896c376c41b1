// Why an operation declines: the refusals of documents 01 and 02 as one enum, with the number and the second number of each.
#![tactic(auto)]

ghost use Rattle.std.specs.Prelude.{◌≡◌};
ghost use Rattle.refusal.specs.Numbers.{number_of, second_of};

use std::error::Error;
use std::fmt;

// The refusals of documents 01 and 02. specs/Numbers.antt gives number and values for each case.
#[derive(Clone, Copy, Debug, PartialEq, Eq, Hash)]
pub enum Refusal {
    RackOutOfRange,
    ListLength,
    TooManyRecords,
    FilmOutOfRange(u32),
    DemandOutOfRange(u32),
    FilmRepeated(u32),
    TablesTooShort,
    TextTooLong,
    Line(u32),
    NotWellFormed,
    SpaceTooShort,
    DisksOutOfRange,
    RatioDiffers(u32),
    TooManyDisks,
    FirstLinesDiffer,
    ServiceClip(u32),
    TerminalTooSmall,
}

// As text_check prints it: the number, and the second number where the documents name one.
impl fmt::Display for Refusal {
    fn fmt<W: fmt::Write>(&self, f: &mut fmt::Formatter<W>) -> fmt::Result {
        write!(f, "refused {}", number(*self))?;
        match second(*self) {
            0 => Ok(()),
            named => write!(f, " {named}"),
        }
    }
}

impl Error for Refusal {}

// The number of a refusal.
pub fn number(refusal: Refusal) -> u32
    ensures { result ≡ number_of refusal }
{
    match refusal {
        Refusal::RackOutOfRange => 1,
        Refusal::ListLength => 2,
        Refusal::TooManyRecords => 3,
        Refusal::FilmOutOfRange(_) => 4,
        Refusal::DemandOutOfRange(_) => 5,
        Refusal::FilmRepeated(_) => 6,
        Refusal::TablesTooShort => 7,
        Refusal::TextTooLong => 8,
        Refusal::Line(_) => 9,
        Refusal::NotWellFormed => 10,
        Refusal::SpaceTooShort => 11,
        Refusal::DisksOutOfRange => 12,
        Refusal::RatioDiffers(_) => 13,
        Refusal::TooManyDisks => 14,
        Refusal::FirstLinesDiffer => 15,
        Refusal::ServiceClip(_) => 16,
        Refusal::TerminalTooSmall => 17,
    }
}

// The second number of a refusal: a record's position, a line or a disk, 0 where the documents name none.
pub fn second(refusal: Refusal) -> u32
    ensures { result ≡ second_of refusal }
{
    match refusal {
        Refusal::RackOutOfRange => 0,
        Refusal::ListLength => 0,
        Refusal::TooManyRecords => 0,
        Refusal::FilmOutOfRange(position) => position,
        Refusal::DemandOutOfRange(position) => position,
        Refusal::FilmRepeated(position) => position,
        Refusal::TablesTooShort => 0,
        Refusal::TextTooLong => 0,
        Refusal::Line(line) => line,
        Refusal::NotWellFormed => 0,
        Refusal::SpaceTooShort => 0,
        Refusal::DisksOutOfRange => 0,
        Refusal::RatioDiffers(disk) => disk,
        Refusal::TooManyDisks => 0,
        Refusal::FirstLinesDiffer => 0,
        Refusal::ServiceClip(position) => position,
        Refusal::TerminalTooSmall => 0,
    }
}
