// A plan's rack and tables, with more places than the largest plan needs, so that it is seen what a
// call leaves untouched.
use crate::answer::Contents;
use crate::case::Case;
use crate::change::Change;
use crate::digest::Digest;
use crate::lent::{Lent, Part};
use reader::PlanRead;
use refusal::Refusal;

// The places of the copy table, of the rack and the count table, of the left table and of the space
// for text.
const COPIES: usize = 2_056;

const DISKS: usize = 72;

const LEFT: usize = 1_032;

pub(crate) const SPACE: usize = 65_600;

// What every place holds before a call: a number that no plan has, an entry of it twice, and a byte
// that no text has.
const UNUSED: u32 = 3_000_000_000;

const UNUSED_ENTRY: u64 = 12_884_901_891_000_000_000;

pub(crate) const UNUSED_BYTE: u8 = 238;

// The digest of a rack and tables that hold this in every place.
const UNTOUCHED: Digest = Digest(6_987_961_416_249_245_696);

#[derive(Drop)]
pub(crate) struct Plan {
    rack: [u64; DISKS],
    copies: [u64; COPIES],
    counts: [u32; DISKS],
    left: [u64; LEFT],
}

// An entry with another number in its lower half: a film, or the slots of a disk.
// Kept: by bits, apart from the library, whose entries are what is tried.
fn with_low(entry: u64, n: u32) -> u64 {
    (entry >> 32 << 32) | u64::from(n)
}

// An entry with another number in its upper half: viewers, an amount, or the streams of a disk.
fn with_high(entry: u64, n: u32) -> u64 {
    (entry & 0xffff_ffff) | (u64::from(n) << 32)
}

// Changes what is at a place of a table, if the table has that place.
fn set_at<T: Copy, F: FnOnce(T) -> T>(table: &mut [T], place: usize, change: F)
    requires { F.IsAlwaysCallable change }
{
    if let Some(entry) = table.get_mut(place) {
        *entry = change(*entry);
    }
}

impl Plan {
    // A rack and tables that are unused in every place.
    fn unused() -> Plan {
        Plan {
            rack: [UNUSED_ENTRY; DISKS],
            copies: [UNUSED_ENTRY; COPIES],
            counts: [UNUSED; DISKS],
            left: [UNUSED_ENTRY; LEFT],
        }
    }

    // Reads a text into the places that are lent of an unused rack and unused tables.
    pub(crate) fn read(lent: Lent, text: &[u8]) -> (Plan, Result<PlanRead, Refusal>) {
        let mut plan = Plan::unused();
        let answer = reader::read(
            &text[..lent.places(Part::Text, text.len())],
            &mut plan.rack[..lent.places(Part::Rack, DISKS)],
            &mut plan.copies[..lent.places(Part::Copies, COPIES)],
            &mut plan.counts[..lent.places(Part::Counts, DISKS)],
            &mut plan.left[..lent.places(Part::Left, LEFT)],
        );
        (plan, answer)
    }

    // Sets what the case sets in the rack or in a table.
    pub(crate) fn set(&mut self, case: Case<'_>) {
        let place = case.place;
        let n = case.value_of_32_bits();
        let Some(change) = case.change else {
            return;
        };
        match change {
            Change::CopyFilm => set_at(&mut self.copies, place, |entry| with_low(entry, n)),
            Change::CopyViewers => set_at(&mut self.copies, place, |entry| with_high(entry, n)),
            Change::Count => set_at(&mut self.counts, place, |_| n),
            Change::LeftFilm => set_at(&mut self.left, place, |entry| with_low(entry, n)),
            Change::LeftAmount => set_at(&mut self.left, place, |entry| with_high(entry, n)),
            Change::Slots => set_at(&mut self.rack, place, |disk| with_low(disk, n)),
            Change::Streams => set_at(&mut self.rack, place, |disk| with_high(disk, n)),
            Change::LikeDisk => {
                let like = self.rack.get(case.value).copied().unwrap_or(0);
                set_at(&mut self.rack, place, |_| like);
            }
            Change::StatedDisks | Change::StatedLeft | Change::Lend(_) | Change::TextByte => {}
        }
    }

    // Writes the places that are lent to a space, as many disks and left films as are stated.
    pub(crate) fn write(
        &self,
        lent: Lent,
        stated: PlanRead,
        space: &mut [u8],
    ) -> Result<u64, Refusal> {
        let disks = lent.places(Part::Rack, DISKS).min(stated.disks as usize);
        let length = lent.places(Part::Text, space.len());
        writer::write(
            &self.rack[..disks],
            &self.copies[..lent.places(Part::Copies, COPIES)],
            &self.counts[..lent.places(Part::Counts, DISKS)],
            &self.left[..lent.places(Part::Left, LEFT)],
            stated.left,
            &mut space[..length],
        )
    }

    // What every place of the rack and of the tables holds.
    pub(crate) fn contents(&self) -> Contents {
        let entries = self.rack.iter().chain(self.copies.iter()).copied();
        let counts = self.counts.iter().map(|count| u64::from(*count));
        let left = self.left.iter().copied();
        Contents {
            digest: entries
                .chain(counts)
                .chain(left)
                .fold(Digest(0), Digest::with),
            untouched: UNTOUCHED,
        }
    }
}
