// The faults of demand records, looked for record by record.
ghost use Rattle.std.specs.Prelude.{◌≡◌, ◌/◌, ◌≤◌, length};
ghost use Rattle.refusal.specs.Verdict.{given};
ghost use Rattle.refusal.specs.Numbers.{verdict_of};
ghost use Rattle.placement.specs.Rack.{most_records};
ghost use Rattle.placement.specs.Records.{records_judged};

use crate::number::number32;
use placement::{MOST_DEMAND, MOST_FILM, MOST_PLAN_FILM, in_range};
use refusal::Refusal;

// The first fault of the records, in one pass that marks the film of each.
pub(crate) fn judge_records(list: &[u8]) -> Result<(), Refusal>
    requires { length list.now / 8 ≤ most_records }
    ensures { verdict_of result ≡ records_judged list.now (given tt) }
{
    // Kept: a place for every number of 16 bits, since memory is fixed and films come in any order.
    let mut seen = [false; 65536];
    for (i, record) in list.chunks_exact(8).enumerate() {
        let film = number32(record, 0);
        let demand = number32(record, 4);
        let position = i as u32 + 1;
        if !in_range(MOST_PLAN_FILM, film) {
            return Err(Refusal::FilmOutOfRange(position));
        }
        if MOST_FILM < film {
            return Err(Refusal::ServiceClip(position));
        }
        if MOST_DEMAND < demand {
            return Err(Refusal::DemandOutOfRange(position));
        }
        let place = film as usize;
        if seen[place] {
            return Err(Refusal::FilmRepeated(position));
        }
        seen[place] = true;
    }
    Ok(())
}
