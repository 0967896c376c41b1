// A plain planner, written from the words of document 01 and of 02's requests P1 and P2 alone, that
// the proved planner is compared with. Its records stay in the order of the file. For each number
// of slots it goes through all disks and fills those that have as many. Each disk makes its list
// anew, each film of demand 0 looks for its slot anew, and each sum is made anew. A record whose
// film is on the disks, and of which nothing is left, leaves the records.
mod filling;
mod records;
mod refusals;
mod shelf;

use crate::full::Full;
use arrayvec::ArrayVec;
use filling::{FilledDisk, fill_disks};
use records::{Records, records_of};
use refusals::judge;
use shelf::shelve_films;
use std::iter::repeat_n;

// A disk of a rack.
#[derive(Clone, Copy, Debug, Default, PartialEq, Eq)]
pub(crate) struct Disk {
    pub(crate) slots: u32,
    pub(crate) load: u32,
}

// A record, a copy or a left film: the film, and how many viewers want it, get it or are left.
#[derive(Clone, Copy, Debug, Default, PartialEq, Eq)]
pub(crate) struct Entry {
    pub(crate) film: u32,
    pub(crate) viewers: u32,
}

// How many places of each table are lent.
#[derive(Clone, Copy, Debug)]
pub(crate) struct Lengths {
    pub(crate) copies: usize,
    pub(crate) counts: usize,
    pub(crate) left: usize,
}

// What is asked of a planner.
#[derive(Clone, Copy)]
pub(crate) struct Call<'a> {
    pub(crate) rack: &'a [Disk],
    pub(crate) list: &'a [u8],
    pub(crate) lent: Lengths,
}

// A refusal's number and second number, as the documents have them.
// Kept: what may not change: the documents' numbers are compared with those of `refusal::number`.
#[derive(Clone, Copy, Debug, PartialEq, Eq)]
pub(crate) struct Refused(pub(crate) u32, pub(crate) u64);

// What a plan serves and leaves, and how many films it leaves.
#[derive(Clone, Copy, Debug, PartialEq, Eq)]
pub(crate) struct Sums {
    pub(crate) served: u64,
    pub(crate) unserved: u64,
    pub(crate) left: u64,
}

// The most disks of a rack that is planned, and the most slots of all of them.
const MOST_DISKS: usize = 64;

const MOST_SLOTS: usize = 2_048;

type CopyTable = ArrayVec<Entry, MOST_SLOTS>;

type CountTable = ArrayVec<u32, MOST_DISKS>;

// A plan: its sums, and what it writes into the first places of each table.
#[derive(Debug, Drop)]
pub(crate) struct Planned {
    pub(crate) sums: Sums,
    pub(crate) copies: CopyTable,
    pub(crate) counts: CountTable,
    pub(crate) left: Records,
}

// The sum of a number of each item.
pub(crate) fn total<T, F: Fn(&T) -> u32>(items: &[T], number: F) -> u64
    requires { F.IsAlwaysCallable number }
{
    let mut sum = 0u64;
    for item in items {
        sum = sum.wrapping_add(u64::from(number(item)));
    }
    sum
}

// How many slots a rack has.
pub(crate) fn all_slots(rack: &[Disk]) -> usize {
    total(rack, |disk| disk.slots) as usize
}

// Plans a call, or refuses it.
pub(crate) fn plan(call: &Call) -> Result<Result<Planned, Refused>, Full> {
    let records = records_of(call.list)?;
    match judge(call, &records) {
        Ok(()) => Ok(Ok(plan_records(call.rack, records)?)),
        Err(refused) => Ok(Err(refused)),
    }
}

// Plans records that are not refused.
fn plan_records(rack: &[Disk], mut records: Records) -> Result<Planned, Full> {
    let left_places = records.len();
    let mut disks = fill_disks(rack, &mut records)?;
    shelve_films(&mut disks, &mut records)?;
    records.sort_unstable_by_key(|record| record.film);
    let copies = copy_table(&disks)?;
    let sums = Sums {
        served: total(&copies, |copy| copy.viewers),
        unserved: total(&records, |record| record.viewers),
        left: records.len() as u64,
    };
    fill_up(&mut records, left_places)?;
    Ok(Planned {
        sums,
        copies,
        counts: count_table(&disks)?,
        left: records,
    })
}

// How many copies each disk has.
fn count_table(disks: &[FilledDisk]) -> Result<CountTable, Full> {
    let counts = disks.iter().map(|filled| filled.copies.len());
    let mut table = CountTable::new();
    table.extend(counts.map(|count| u32::try_from(count).unwrap_or(u32::MAX)))?;
    Ok(table)
}

// Appends empty places to a table that is shorter than `len`.
fn fill_up<const N: usize>(table: &mut ArrayVec<Entry, N>, len: usize) -> Result<(), Full> {
    table.extend(repeat_n(Entry::default(), len.saturating_sub(table.len())))?;
    Ok(())
}

// The copies disk by disk, with empty places for the slots that are free.
fn copy_table(disks: &[FilledDisk]) -> Result<CopyTable, Full> {
    let mut table = CopyTable::new();
    for filled in disks {
        let end = table.len().saturating_add(filled.disk.slots as usize);
        table.try_extend_from_slice(&filled.copies)?;
        fill_up(&mut table, end)?;
    }
    Ok(table)
}
