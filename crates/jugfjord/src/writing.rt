// Writing for C.
ghost use Rattle.std.specs.Prelude.{◌≡◌};
ghost use Rattle.placement.specs.Tables.{tables};
ghost use Rattle.plan_text.specs.WriteCall.{write_call};
ghost use Rattle.disk_entries.specs.Entries.{disks_of_entries};
ghost use Rattle.writer.specs.Answers.{written_numbers};
ghost use Rattle.writer.specs.WritePromise.{WritePromise};
ghost use Rattle.jugfjord.specs.Numbers.{written_fields};

use crate::held::held;
use disk_entries::{DiskEntry, pack};
use refusal::Refusal;

// `struct jugfjord_written` of the header.
// Kept: number and second, since C reads this struct of the header, which has them.
#[repr(C)]
#[derive(Clone, Copy, Debug, PartialEq, Eq, Default)]
pub struct WrittenNumbers {
    pub number: u32,
    pub second: u32,
    pub length: u64,
}

// The numbers of writing's answer: those of a refusal, or the length of the text.
impl From<Result<u64, Refusal>> for WrittenNumbers {
    ghost from_gives = { λ answer written. written_fields written ≡ written_numbers answer };

    fn from(answer: Result<u64, Refusal>) -> WrittenNumbers {
        match answer {
            Ok(length) => WrittenNumbers {
                length,
                ..WrittenNumbers::default()
            },
            // Kept: alike in four impls, since C reads four structs with other fields.
            Err(refusal) => WrittenNumbers {
                number: refusal::number(refusal),
                second: refusal::second(refusal),
                ..WrittenNumbers::default()
            },
        }
    }
}

// `writer::write` with lent entries.
// Kept: the tables as three slices, since C lends them so.
pub fn jugfjord_write(
    rack: &[DiskEntry],
    copies: &[u64],
    counts: &[u32],
    left: &[u64],
    left_films: u32,
    text: &mut [u8],
) -> WrittenNumbers
    ensures { WritePromise
        (write_call (disks_of_entries rack.now) (tables copies.now counts.now left.now) left_films)
        text.old text.new (written_fields result) }
{
    let packed = pack(rack);
    let disks = held(&packed);
    WrittenNumbers::from(writer::write(disks, copies, counts, left, left_films, text))
}
