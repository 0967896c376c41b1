// The cases of a file. A case is a line of nine numbers in columns and a label, and behind it the
// bytes of its text, if no case before it has them.
ghost use Rattle.std.specs.Prelude.{◌≤◌};

use crate::change::Change;
use crate::lent::Lent;
use crate::plan::{SPACE, UNUSED_BYTE};
use reader::PlanRead;

// The columns: where the next case starts, where the label ends, where the bytes start and how many
// they are, the length of the text, the byte that fills it up, what is changed, at which place, and
// with which value; and the label.
const NEXT: usize = 0;

const LABEL_END: usize = 7;

const FROM: usize = 14;

const GIVEN: usize = 21;

const TOTAL: usize = 28;

const FILL: usize = 35;

const WHAT: usize = 42;

const PLACE: usize = 49;

const VALUE: usize = 56;

const LABEL: usize = 67;

#[derive(Clone, Copy)]
pub(crate) struct Case<'a> {
    file: &'a [u8],
    // Where the next case starts.
    pub(crate) next: usize,
    pub(crate) label: &'a [u8],
    // Where the bytes of the text start, how many they are, its length, and what fills it up.
    from: usize,
    given: usize,
    total: usize,
    fill: u8,
    pub(crate) change: Option<Change>,
    pub(crate) place: usize,
    pub(crate) value: usize,
}

// The number whose digits start at a column of a line.
fn number_at(line: &[u8], column: usize) -> usize {
    let bytes = line.get(column..).unwrap_or(&[]).iter();
    let digits = bytes.take_while(|byte| byte.is_ascii_digit());
    digits.fold(0, |number: usize, digit| {
        let digit = usize::from(digit.wrapping_sub(b'0'));
        number.wrapping_mul(10).wrapping_add(digit)
    })
}

// The least significant byte of a number.
fn low_byte(n: usize) -> u8 {
    (n & 0xff) as u8
}

impl<'a> Case<'a> {
    // The case that starts at a place of the file, if the file has that place.
    pub(crate) fn at(file: &'a [u8], start: usize) -> Option<Case<'a>> {
        if start >= file.len() {
            return None;
        }
        let line = &file[start..];
        let number = |column: usize| number_at(line, column);
        Some(Case {
            file,
            next: number(NEXT),
            label: file
                .get(start.saturating_add(LABEL)..number(LABEL_END))
                .unwrap_or(&[]),
            from: number(FROM),
            given: number(GIVEN),
            total: number(TOTAL),
            fill: low_byte(number(FILL)),
            change: Change::try_from(number(WHAT)).ok(),
            place: number(PLACE),
            value: number(VALUE),
        })
    }

    // The byte at a place of the text.
    fn text_byte(&self, place: usize) -> u8 {
        if place < self.given {
            let byte = self.file.get(self.from.wrapping_add(place));
            byte.copied().unwrap_or(0)
        } else {
            self.fill
        }
    }

    // How many bytes of its space the text takes.
    pub(crate) fn text_length(&self) -> usize
        ensures { result ≤ 65600 }
    {
        self.total.min(SPACE)
    }

    // The text in its space, with the byte that the case sets.
    pub(crate) fn text_space(&self) -> [u8; SPACE] {
        let mut space = [UNUSED_BYTE; SPACE];
        for (place, byte) in space.iter_mut().take(self.total).enumerate() {
            *byte = self.text_byte(place);
        }
        if self.change == Some(Change::TextByte) {
            if let Some(byte) = space.get_mut(self.place) {
                *byte = low_byte(self.value);
            }
        }
        space
    }

    // The value that the case sets, in 32 bits: the largest one where it does not fit.
    pub(crate) fn value_of_32_bits(&self) -> u32 {
        u32::try_from(self.value).unwrap_or(u32::MAX)
    }

    // The numbers of disks and of left films that are stated: those that were read, or what the
    // case sets. A disk that is made like another is stated too.
    pub(crate) fn stated(&self, read: PlanRead) -> PlanRead {
        let place = u32::try_from(self.place).unwrap_or(u32::MAX);
        let n = self.value_of_32_bits();
        match self.change {
            Some(Change::StatedDisks) => PlanRead { disks: n, ..read },
            Some(Change::StatedLeft) => PlanRead { left: n, ..read },
            Some(Change::LikeDisk) => PlanRead {
                disks: read.disks.max(place.wrapping_add(1)),
                ..read
            },
            _ => read,
        }
    }

    // What the case lends.
    pub(crate) fn lent(&self) -> Lent {
        match self.change {
            Some(Change::Lend(part)) => Lent::at_most(part, self.value),
            _ => Lent::whole(),
        }
    }
}
