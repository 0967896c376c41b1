// The records of a list.
use crate::full::Full;
use crate::plain::Entry;
use arrayvec::ArrayVec;

// The records of a list: up to five more than a list may have.
pub(crate) type Records = ArrayVec<Entry, 1_029>;

// The record in eight bytes: film and demand, each least significant byte first.
fn record(bytes: &[u8]) -> Option<Entry> {
    let (film, rest) = bytes.split_first_chunk::<4>()?;
    let demand = rest.first_chunk::<4>()?;
    Some(Entry {
        film: u32::from_le_bytes(*film),
        viewers: u32::from_le_bytes(*demand),
    })
}

// The records of a list in the order of the file.
pub(crate) fn records_of(list: &[u8]) -> Result<Records, Full> {
    let mut records = Records::new();
    records.extend(list.chunks_exact(8).filter_map(record))?;
    Ok(records)
}
