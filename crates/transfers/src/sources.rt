// Sources: the first disk of an old plan that holds a film, searched from a place that is noted for
// the film.
ghost use Rattle.std.specs.Prelude.{◌≡◌, map, ◌≤◌, length};
ghost use Rattle.transfer_schedule.specs.Stored.{source_of};
ghost use Rattle.transfer_schedule.specs.Fits.{most_transfers};
ghost use Rattle.transfers.specs.Keys.{stored_in, NoneBefore, NoneBefore-prop, SearchStarts};

use crate::stored::DISK;

// Films are noted by their remainder by this number.
const REMAINDERS: u64 = 4_096;

// Notes where the search for each film starts, by its remainder. The place
// itself is what is noted, so that it is counted.
pub(crate) fn note_starts(old: &[u64], starts: &mut [u16; 4_096])
    requires { length old.now ≤ most_transfers }
    ensures { SearchStarts starts.new (map stored_in old.now) }
{
    for i in (0..old.len()).rev() {
        starts[(old[i] % REMAINDERS) as usize] = i as u16;
    }
}

// The copies of an old plan, with the places from where each film is searched among them.
#[derive(Clone, Copy)]
pub(crate) struct Sources<'a> {
    pub(crate) old: &'a [u64],
    pub(crate) starts: &'a [u16; 4_096],
    ghost none_before: { NoneBefore starts.now (map stored_in old.now) } by { NoneBefore-prop starts.now (map stored_in old.now) },
}

impl<'a> Sources<'a> {
    // The first disk of the old plan that holds a film, or 0, the loader.
    pub(crate) fn source_of(&self, film: u64) -> u64
        ensures { result ≡ source_of (map stored_in self.now.old.now) «film» }
    {
        let old = self.old;
        let start = self.starts[(film % REMAINDERS) as usize] as usize;
        let behind = &old[start.min(old.len())..];
        for key in behind {
            if *key % DISK == film {
                return *key / DISK;
            }
        }
        0
    }
}
