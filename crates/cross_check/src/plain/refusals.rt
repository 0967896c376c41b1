// Planning's refusals: 12, 13, 2, 3 and 7 of a call, and 4, 16, 5 and 6 of a record.
use crate::plain::{Call, Disk, Entry, Refused, all_slots};

// Whether the slots or the load of a disk are outside their ranges.
fn is_outside(disk: &Disk) -> bool {
    !(1..=32).contains(&disk.slots) || !(1..=65_535).contains(&disk.load)
}

// Whether a disk's load times the first disk's slots differs from the first disk's load times its
// slots.
fn differs(disk: &Disk, first: &Disk) -> bool {
    let here = u64::from(disk.load).wrapping_mul(u64::from(first.slots));
    let there = u64::from(first.load).wrapping_mul(u64::from(disk.slots));
    here != there
}

// Refuses a rack that is outside its ranges, or a disk of another ratio than the first.
fn judge_rack(rack: &[Disk]) -> Result<(), Refused> {
    let first = rack.first().ok_or(Refused(12, 0))?;
    if rack.len() > 64 || rack.iter().any(is_outside) {
        return Err(Refused(12, 0));
    }
    match rack.iter().position(|disk| differs(disk, first)) {
        Some(place) => Err(Refused(13, (place as u64).wrapping_add(1))),
        None => Ok(()),
    }
}

// Whether a table is lent too short for the disks and so many records.
fn lacks_places(call: &Call, records: usize) -> bool {
    let lent = call.lent;
    lent.copies < all_slots(call.rack) || lent.counts < call.rack.len() || lent.left < records
}

// Refuses a call for its rack, the length of its list or the tables.
fn judge_call(call: &Call) -> Result<(), Refused> {
    judge_rack(call.rack)?;
    let records = call.list.len() / 8;
    if call.list.len() % 8 != 0 {
        return Err(Refused(2, 0));
    }
    if records > 1_024 {
        return Err(Refused(3, 0));
    }
    if lacks_places(call, records) {
        return Err(Refused(7, 0));
    }
    Ok(())
}

// The number of a record's refusal, if it has one behind these others.
fn record_refusal(earlier: &[Entry], record: &Entry) -> Option<u32> {
    match record.film {
        0 | 65_536.. => Some(4),
        50_000..=65_535 => Some(16),
        _ if record.viewers > 1_000_000 => Some(5),
        film if earlier.iter().any(|other| other.film == film) => Some(6),
        _ => None,
    }
}

// Refuses the first record that is to be refused.
fn judge_records(records: &[Entry]) -> Result<(), Refused> {
    for (i, record) in records.iter().enumerate() {
        if let Some(number) = record_refusal(&records[..i], record) {
            return Err(Refused(number, (i as u64).wrapping_add(1)));
        }
    }
    Ok(())
}

// The first refusal that a call with these records gets.
pub(crate) fn judge(call: &Call, records: &[Entry]) -> Result<(), Refused> {
    judge_call(call)?;
    judge_records(records)
}
