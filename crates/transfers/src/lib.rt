// Transfers from an old plan to a new one, in rounds in which every disk and the loader take part
// in at most one.
#![tactic(auto)]

mod answer; // answer.rt: what transfers answer
mod count; // count.rt: the table of counts
mod lacking; // lacking.rt: the new copies that the old plan lacks
mod rounds; // rounds.rt: which ends are busy in which round
mod schedule; // schedule.rt: the transfers one after the other
mod sources; // sources.rt: where a film is copied from
mod stored; // stored.rt: stored copies as numbers
mod texts; // texts.rt: the two texts

ghost use Rattle.std.specs.Prelude.{◌≡◌, OnErr};
ghost use Rattle.transfer_schedule.specs.Counts.{ends};
ghost use Rattle.transfer_schedule.specs.Transfers.{texts_verdict};
ghost use Rattle.transfer_schedule.specs.TransfersPromise.{TransfersPromise, CountsPromise, CountedPromise};
ghost use Rattle.transfers.specs.Keys.{WorkedOut};
ghost use Rattle.transfers.specs.Answers.{transfer_numbers};

pub use answer::InRounds;
use count::count_transfers;
use refusal::Refusal;
use schedule::transfers_between;
use texts::read_texts;

// The rows of a table of counts: one for the loader and each disk.
const ROWS: usize = 9;

// The most transfers: one for each copy of a new plan.
pub(crate) const MOST_TRANSFERS: usize = 256;

// Works out the transfers of two texts: their entries stand in front, or the answer is a refusal of
// the texts.
fn work_out(
    old: &[u8],
    new: &[u8],
    entries: &mut [u64; MOST_TRANSFERS],
) -> Result<InRounds, Refusal>
    ensures { WorkedOut (texts_verdict old.now new.now) entries.new (transfer_numbers result) }
{
    let mut oldkeys = [0u64; MOST_TRANSFERS];
    let mut newkeys = [0u64; MOST_TRANSFERS];
    let (old_copies, new_copies) = read_texts(old, new, &mut oldkeys, &mut newkeys)?;
    Ok(transfers_between(&oldkeys[..old_copies], &newkeys[..new_copies], entries))
}

// Gives the transfers from an old plan's text to a new one's: the lent list gets an entry for each,
// and the lent table their counts by source and destination. A refusal changes neither.
pub fn transfers_counted(
    old: &[u8],
    new: &[u8],
    list: &mut [u64],
    counts: &mut [[u32; 9]],
) -> Result<InRounds, Refusal>
    ensures promise { CountedPromise old.now new.now list.old list.new
        counts.old counts.new (transfer_numbers result) }
    ensures unchanged { OnErr result ((list.new ≡ list.old) × (counts.new ≡ counts.old)) }
{
    let mut entries = [0u64; MOST_TRANSFERS];
    let made = work_out(old, new, &mut entries)?;
    let n = made.transfers as usize;
    if list.len() < n {
        return Err(Refusal::TablesTooShort);
    }
    if counts.len() < ROWS {
        return Err(Refusal::TablesTooShort);
    }
    let listed = &entries[..n];
    list[..n].copy_from_slice(listed);
    let table = count_transfers([[0; 9]; 9], listed);
    counts[..ROWS].copy_from_slice(&table);
    Ok(made)
}

// Gives the transfers from an old plan's text to a new one's: the lent list gets an entry for each.
// A refusal changes nothing.
pub fn transfers(old: &[u8], new: &[u8], list: &mut [u64]) -> Result<InRounds, Refusal>
    ensures promise { TransfersPromise old.now new.now list.old list.new ends (transfer_numbers result) }
    ensures unchanged { OnErr result (list.new ≡ list.old) }
{
    let mut table = [[0u32; 9]; 9];
    transfers_counted(old, new, list, &mut table)
}

// The counts of the transfers from an old plan's text to a new one's, all zero where the texts are
// refused.
pub fn transfer_counts(old: &[u8], new: &[u8]) -> [[u32; 9]; 9]
    ensures { CountsPromise old.now new.now result }
{
    let mut list = [0u64; MOST_TRANSFERS];
    let mut counts = [[0u32; 9]; 9];
    let _ = transfers_counted(old, new, &mut list, &mut counts);
    counts
}
