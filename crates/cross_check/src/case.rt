// The cases: racks of equal and of unequal disks and lists of ten families, and faults for those
// that are to be refused.
use crate::draw::{draw, from_to};
use crate::fault::Fault;

// One of the three tables that are lent.
#[derive(Clone, Copy, Debug, PartialEq, Eq)]
pub(crate) enum Table {
    Copies,
    Counts,
    Left,
}

// A case: how many disks, their slots and load, and up to how many times as large a disk can be;
// how many records, of which demands; how many times load and demands are taken, so that windows
// meet the load exactly; one more than how many times the load can be added to a demand, so that
// what is left of a film equals other demands; how many bytes stand behind the records, which table
// is lent too short, and the faults of all kinds.
#[derive(Clone, Copy, Debug)]
pub(crate) struct Case {
    pub(crate) number: u64,
    pub(crate) disks: u32,
    pub(crate) slots: u32,
    pub(crate) load: u32,
    pub(crate) sizes: u32,
    pub(crate) records: u32,
    pub(crate) low: u32,
    pub(crate) high: u32,
    pub(crate) factor: u32,
    pub(crate) folds: u32,
    pub(crate) odd_bytes: usize,
    pub(crate) short: Option<Table>,
    pub(crate) faults: [Option<Fault>; 2],
}

// Of each family the most disks, slots, load and records, and the lowest and the highest demand.
const FAMILIES: [[u32; 6]; 10] = [
    [4, 4, 12, 8, 0, 9],
    [6, 5, 10, 16, 1, 3],
    [5, 4, 9, 9, 1, 3],
    [4, 5, 6, 12, 1, 2],
    [8, 32, 40, 2, 0, 60],
    [16, 12, 200, 129, 0, 99],
    [8, 4, 1, 12, 0, 4],
    [64, 32, 65_535, 40, 0, 1_000_000],
    [4, 4, 12, 8, 0, 9],
    [4, 4, 12, 8, 0, 9],
];

// The family of a case: its number's last digit.
fn family(number: u64) -> u64 {
    number % 10
}

// A case of equal disks as the table of families has it.
fn base_case(number: u64) -> Case {
    let [disks, slots, load, records, low, high] = FAMILIES[(number % 10) as usize];
    Case {
        number,
        disks: from_to(number, 0, 1, disks),
        slots: from_to(number, 1, 1, slots),
        load: from_to(number, 2, 1, load),
        sizes: 1,
        records: from_to(number, 3, 0, records),
        low,
        high,
        factor: 1,
        folds: 1,
        odd_bytes: 0,
        short: None,
        faults: [None; 2],
    }
}

// Load and demands taken once, twice or four times.
fn exact(case: Case) -> Case {
    let factor = match draw(case.number, 4, 3) {
        0 => 1,
        1 => 2,
        _ => 4,
    };
    Case {
        load: case.load.wrapping_mul(factor),
        factor,
        ..case
    }
}

// Many films.
fn many(case: Case) -> Case {
    Case {
        records: from_to(case.number, 3, 30, 129),
        ..case
    }
}

// The largest rack, now and then with as many records as a list may have, or demands as large as
// they may be.
fn largest(mut case: Case) -> Case {
    case.disks = 64;
    case.slots = 32;
    if draw(case.number, 5, 3) == 0 {
        case.low = 1_000_000;
    }
    if case.number % 2_500 == 7 {
        case.records = 1_024;
        case.low = 0;
    }
    case
}

// Up to 64 disks in one of two cases.
fn crowded(mut case: Case) -> Case {
    if draw(case.number, 19, 2) == 0 {
        case.disks = from_to(case.number, 0, 5, 64);
    }
    case
}

// A case of equal disks of its family.
fn of_family(number: u64) -> Case {
    let case = base_case(number);
    match family(number) {
        2 => Case { folds: 3, ..case },
        3 => exact(case),
        5 => many(case),
        7 => largest(case),
        8 | 9 => crowded(case),
        _ => case,
    }
}

// Smaller slots and load for the largest racks, so that their disks can differ.
fn smaller(mut case: Case) -> Case {
    if family(case.number) == 7 {
        case.slots = from_to(case.number, 1, 1, 16);
        case.load = from_to(case.number, 2, 1, 16_383);
    }
    case
}

// Three of four cases have disks of unequal sizes, as far as the ranges of slots and load go.
fn unequal(case: Case) -> Case {
    if draw(case.number, 17, 4) == 0 {
        return case;
    }
    let case = smaller(case);
    let by_slots = 32u32.checked_div(case.slots).unwrap_or(0);
    let by_load = 65_535u32.checked_div(case.load).unwrap_or(0);
    let sizes = from_to(case.number, 18, 2, 8).min(by_slots).min(by_load);
    Case { sizes, ..case }
}

// The table that is lent too short.
fn short_table(number: u64) -> Table {
    match from_to(number, 11, 1, 3) {
        1 => Table::Copies,
        2 => Table::Counts,
        _ => Table::Left,
    }
}

// The case with a fault of the number of disks, of the list's length or of the tables, if this is
// one.
fn with_fault(mut case: Case, fault: Option<Fault>) -> Case {
    match fault {
        Some(Fault::NoDisks) => case.disks = 0,
        Some(Fault::TooManyDisks) => case.disks = 65,
        Some(Fault::OddBytes) => case.odd_bytes = from_to(case.number, 9, 1, 7) as usize,
        Some(Fault::TooManyRecords) => case.records = from_to(case.number, 10, 1_025, 1_029),
        Some(Fault::ShortTable) => case.short = Some(short_table(case.number)),
        _ => {}
    }
    case
}

// The case of a number. Families 8 and 9 have a fault, family 9 a second one.
pub(crate) fn case_of(number: u64) -> Case {
    let faults = match family(number) {
        8 => [Fault::drawn(number, 6), None],
        9 => [Fault::drawn(number, 6), Fault::drawn(number, 7)],
        _ => [None; 2],
    };
    let case = Case {
        faults,
        ..unequal(of_family(number))
    };
    faults
        .iter()
        .fold(case, |case, fault| with_fault(case, *fault))
}
