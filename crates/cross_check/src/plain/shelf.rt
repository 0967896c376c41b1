// The shelf copies: after all disks are planned, films of demand 0 go to the slots that are free.
use crate::full::Full;
use crate::plain::filling::{FilledRack, store};
use crate::plain::records::Records;

// Takes the films of demand 0 in ascending order, and stores each on the lowest disk with fewer
// copies than slots. Where there is no such disk the film stays among the records, and is left.
pub(crate) fn shelve_films(disks: &mut FilledRack, records: &mut Records) -> Result<(), Full> {
    let mut films = Records::new();
    films.extend(records.iter().copied().filter(|record| record.viewers == 0))?;
    films.sort_unstable_by_key(|record| record.film);
    for film in &films {
        if let Some(filled) = disks.iter_mut().find(|filled| filled.has_free_slot()) {
            store(filled, records, *film)?;
        }
    }
    Ok(())
}
