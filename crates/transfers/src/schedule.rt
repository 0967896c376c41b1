// The schedule: each copy that the old plan lacks gets its transfer, one after the other.
ghost use Rattle.std.specs.Prelude.{◌≡◌, [], Ok, map, ◌+◌, ◌≤◌, ◌<◌, length};
ghost use Rattle.placement.specs.WellFormed.{Each};
ghost use Rattle.transfer_schedule.specs.Schedule.{transfer, place_all, schedule as schedule_of, rounds_of};
ghost use Rattle.transfer_schedule.specs.Fits.{most_transfers, CopyFits, TransferFits};
ghost use Rattle.transfer_schedule.specs.Transfers.{transfer_entry};
ghost use Rattle.transfer_schedule.specs.Words.{InOrder};
ghost use Rattle.transfers.specs.Keys.{stored_in, row_length, PlacedNext, TransfersMade};
ghost use Rattle.transfers.specs.Answers.{transfer_numbers};

use crate::MOST_TRANSFERS;
use crate::answer::InRounds;
use crate::lacking::put_lacking;
use crate::rounds::Rounds;
use crate::sources::{Sources, note_starts};
use crate::stored::DISK;

// The entry of a transfer: the film has the lowest 16 bits, source and destination 8 each, and the
// round all above.
fn entry_of(source: u64, destination: u64, film: u64, round: u64) -> u64
    requires { TransferFits (transfer source destination film round) }
    ensures { result ≡ transfer_entry (transfer source destination film round) }
{
    ((round * 256 + destination) * 256 + source) * 65536 + film
}

// The entry of the transfer of a copy behind those that are placed, whose ends are busy in its
// round from then on.
fn place(key: u64, sources: &Sources, rounds: &mut Rounds) -> u64
    requires copy_fits { CopyFits (stored_in key)
        × Each CopyFits (map stored_in sources.now.old.now) }
    requires placed { rounds.old.placed < row_length }
    ensures placed_next { PlacedNext (map stored_in sources.now.old.now) (stored_in key) rounds.old.placed rounds.old.busy rounds.new.busy result }
    ensures placed { rounds.new.placed ≡ rounds.old.placed + 1 }
{
    let film = key % DISK;
    let destination = key / DISK;
    let source = sources.source_of(film);
    let round = rounds.take(source as usize, destination as usize);
    entry_of(source, destination, film, round as u64)
}

// Turns the keys of copies into the entries of their transfers, and answers the largest round, 0
// without any.
fn place_all(sources: &Sources, keys: &mut [u64]) -> u64
    requires { Each CopyFits (map stored_in sources.now.old.now)
        × Each CopyFits (map stored_in keys.old) × (length keys.old ≤ most_transfers) }
    ensures keys_after { keys.new ≡ map transfer_entry (place_all (map stored_in sources.now.old.now) [] (map stored_in keys.old)) }
    ensures value { result ≡ rounds_of (place_all (map stored_in sources.now.old.now) [] (map stored_in keys.old)) }
{
    let mut rounds = Rounds::new();
    let mut last = 0u64;
    for key in keys.iter_mut() {
        let entry = place(*key, sources, &mut rounds);
        *key = entry;
        last = last.max(entry / 65536 / 256 / 256);
    }
    last
}

// The transfers from some copies to others, with their number and that of their rounds. The keys of
// the copies that the old ones lack stand among the entries first. No copy is noted among the
// starts of searches at first, since 256 is behind all of them.
pub(crate) fn transfers_between(
    old: &[u64],
    new: &[u64],
    entries: &mut [u64; MOST_TRANSFERS],
) -> InRounds
    requires olds { Each CopyFits (map stored_in old.now) × InOrder (map stored_in old.now)
        × (length old.now ≤ most_transfers) }
    requires news { Each CopyFits (map stored_in new.now) × InOrder (map stored_in new.now)
        × (length new.now ≤ most_transfers) }
    ensures { TransfersMade (schedule_of (map stored_in old.now) (map stored_in new.now)) entries.new (transfer_numbers (Ok result)) }
{
    let mut starts = [256u16; 4096];
    note_starts(old, &mut starts);
    let n = put_lacking(old, new, entries);
    let sources = Sources {
        old,
        starts: &starts,
    };
    let rounds = place_all(&sources, &mut entries[..n]);
    InRounds {
        transfers: n as u32,
        rounds: rounds as u32,
    }
}
