// The left films of a plan: few enough, strictly ascending, in range, each with an amount in range.
ghost use Rattle.std.specs.Prelude.{◌≡◌, map};
ghost use Rattle.placement.specs.Tables.{item_in};
ghost use Rattle.placement.specs.Plan.{every, ascending_above, left_film_accepted, left_accepted};

use placement::{MOST_DEMAND, MOST_PLAN_FILM, entry_amount, entry_film, in_range};

// Document 01's most left films.
const MOST_LEFT: usize = 1_024;

// Whether one left film and its amount are in range.
fn left_film_accepted(left: u64) -> bool
    ensures { result ≡ left_film_accepted (item_in left) }
{
    in_range(MOST_PLAN_FILM, entry_film(left)) && entry_amount(left) <= MOST_DEMAND
}

// Whether every left film is accepted.
// Kept: like all_in_range of placement, but one line over a test of its own.
fn every_left_film_accepted(left: &[u64]) -> bool
    ensures { result ≡ every left_film_accepted (map item_in left.now) }
{
    left.iter().all(|film| left_film_accepted(*film))
}

// Whether the films ascend strictly from above 0.
fn films_ascend(left: &[u64]) -> bool
    ensures { result ≡ ascending_above 0 (map item_in left.now) }
{
    let mut last = 0;
    for entry in left {
        let film = entry_film(*entry);
        if film <= last {
            return false;
        }
        last = film;
    }
    true
}

// Whether a well-formed plan can have these left films.
pub fn left_accepted(left: &[u64]) -> bool
    ensures { result ≡ left_accepted (map item_in left.now) }
{
    left.len() <= MOST_LEFT && films_ascend(left) && every_left_film_accepted(left)
}
