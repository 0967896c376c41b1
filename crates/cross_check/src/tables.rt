// The tables that both planners' answers stand in.
use crate::plain::{Entry, Planned};

// The places of each table, more than a case can need.
const MOST_COPIES: usize = 2_100;

const MOST_DISKS: usize = 80;

const MOST_LEFT: usize = 1_040;

// What every place of the tables holds before a run: a number that no plan has, and an entry of it
// twice.
const UNUSED: u32 = 3_000_000_000;

const UNUSED_ENTRY: u64 = 12_884_901_891_000_000_000;

// The tables, with entries as the library has them.
#[derive(Clone, Copy, PartialEq, Eq)]
pub(crate) struct Tables {
    pub(crate) copies: [u64; MOST_COPIES],
    pub(crate) counts: [u32; MOST_DISKS],
    pub(crate) left: [u64; MOST_LEFT],
}

// An entry as one number: the film, and from bit 32 on its viewers.
// Kept: by bits, apart from the library, whose entries are what is compared.
impl From<Entry> for u64 {
    fn from(entry: Entry) -> u64 {
        u64::from(entry.film) | (u64::from(entry.viewers) << 32)
    }
}

// Writes entries into the first places of a table.
fn write(table: &mut [u64], entries: &[Entry]) {
    for (place, entry) in table.iter_mut().zip(entries) {
        *place = u64::from(*entry);
    }
}

impl Tables {
    // Tables that nobody wrote into.
    pub(crate) fn unused() -> Tables {
        Tables {
            copies: [UNUSED_ENTRY; MOST_COPIES],
            counts: [UNUSED; MOST_DISKS],
            left: [UNUSED_ENTRY; MOST_LEFT],
        }
    }

    // Tables with a plan of the plain planner.
    pub(crate) fn with(plan: &Planned) -> Tables {
        let mut tables = Tables::unused();
        write(&mut tables.copies, &plan.copies);
        for (place, count) in tables.counts.iter_mut().zip(&plan.counts) {
            *place = *count;
        }
        write(&mut tables.left, &plan.left);
        tables
    }
}
