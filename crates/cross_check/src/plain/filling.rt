// Filling the disks one after the other, the small ones first.
use crate::full::Full;
use crate::plain::records::Records;
use crate::plain::{Disk, Entry, MOST_DISKS, total};
use arrayvec::ArrayVec;

// A disk, and the copies on it, at most one for each of 32 slots.
#[derive(Debug, Default, Drop)]
pub(crate) struct FilledDisk {
    pub(crate) disk: Disk,
    pub(crate) copies: ArrayVec<Entry, 32>,
}

// The disks of a rack in its order.
pub(crate) type FilledRack = ArrayVec<FilledDisk, MOST_DISKS>;

impl FilledDisk {
    // A disk without copies.
    fn empty(disk: &Disk) -> FilledDisk {
        FilledDisk {
            disk: *disk,
            copies: ArrayVec::new(),
        }
    }

    // Whether it has fewer copies than slots.
    pub(crate) fn has_free_slot(&self) -> bool {
        self.copies.len() < self.disk.slots as usize
    }
}

// The list of a disk: the records with a demand, by demand and then film.
fn list_of(records: &[Entry]) -> Result<Records, Full> {
    let mut list = Records::new();
    list.extend(records.iter().copied().filter(|record| record.viewers > 0))?;
    list.sort_unstable_by_key(|record| (record.viewers, record.film));
    Ok(list)
}

// The window of a disk in its list: the first films in a row that reach the load, as many as the
// disk has slots, or all up to there if they are fewer; else the last ones of the list.
fn window_of<'a>(list: &'a [Entry], disk: &Disk) -> &'a [Entry] {
    let slots = disk.slots as usize;
    for end in 1..=list.len() {
        let window = &list[end.saturating_sub(slots)..end];
        if total(window, |record| record.viewers) >= u64::from(disk.load) {
            return window;
        }
    }
    &list[list.len().saturating_sub(slots)..]
}

// Stores a copy on a disk, and takes its viewers from the record of its film. A film of which
// nothing is left leaves the records.
pub(crate) fn store(
    filled: &mut FilledDisk,
    records: &mut Records,
    copy: Entry,
) -> Result<(), Full> {
    filled.copies.try_push(copy)?;
    for record in records.iter_mut() {
        if record.film == copy.film {
            record.viewers = record.viewers.saturating_sub(copy.viewers);
        }
    }
    records.retain(|record| record.film != copy.film || record.viewers > 0);
    Ok(())
}

// Fills a disk from its window: each film gets its viewers, the last one only as many as the load
// has left.
fn fill(filled: &mut FilledDisk, records: &mut Records) -> Result<(), Full> {
    let list = list_of(records)?;
    let mut load_left = filled.disk.load;
    for record in window_of(&list, &filled.disk) {
        let viewers = record.viewers.min(load_left);
        load_left = load_left.saturating_sub(viewers);
        store(filled, records, Entry { viewers, ..*record })?;
    }
    Ok(())
}

// Fills the disks of a rack by ascending slots, and those of as many slots by number.
pub(crate) fn fill_disks(rack: &[Disk], records: &mut Records) -> Result<FilledRack, Full> {
    let mut disks = FilledRack::new();
    disks.extend(rack.iter().map(FilledDisk::empty))?;
    for slots in 1..=32 {
        for filled in disks.iter_mut() {
            if filled.disk.slots == slots {
                fill(filled, records)?;
            }
        }
    }
    Ok(disks)
}
