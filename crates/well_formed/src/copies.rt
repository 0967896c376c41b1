// The copies of one disk: films distinct and in range, at most the disk's streams in sum, and marks of 0 or 1.
ghost use Rattle.std.specs.Prelude.{◌≡◌, map, eqb, drop};
ghost use Rattle.placement.specs.Items.{occurrences};
ghost use Rattle.placement.specs.Copies.{unmarked};
ghost use Rattle.placement.specs.Rack.{disk};
ghost use Rattle.placement.specs.Tables.{copy_in, copies_in};
ghost use Rattle.placement.specs.Plan.{copy_accepted, every, distinct_films, disk_accepted, marks_accepted, copies_accepted};

use crate::sum::total;
use placement::{MOST_PLAN_FILM, Slots, Streams, copy_film, copy_mark, in_range};

// Whether one copy has a film in range, with viewers or without.
fn copy_accepted(copy: u64) -> bool
    ensures { result ≡ copy_accepted (unmarked (copy_in copy)) }
{
    in_range(MOST_PLAN_FILM, copy_film(copy))
}

// Whether every copy is accepted.
// Kept: like all_in_range of placement, but one line over a test of its own.
fn every_copy_accepted(copies: &[u64]) -> bool
    ensures { result ≡ every copy_accepted (map unmarked (copies_in copies.now)) }
{
    copies.iter().all(|copy| copy_accepted(*copy))
}

// Whether no copy from a place on has the film.
pub fn absent(film: u32, copies: &[u64], from: usize) -> bool
    ensures { result ≡ eqb (occurrences film (map unmarked (copies_in (drop from copies.now)))) 0 }
{
    copies
        .iter()
        .skip(from)
        .all(|copy| copy_film(*copy) != film)
}

// Whether no film stands twice: each is absent behind its own place.
fn distinct_films(copies: &[u64]) -> bool
    ensures { result ≡ distinct_films (map unmarked (copies_in copies.now)) }
{
    for (i, copy) in copies.iter().enumerate() {
        if !absent(copy_film(*copy), copies, i + 1) {
            return false;
        }
    }
    true
}

// Whether a disk of so many slots and streams can hold the copies, whatever their marks.
fn copies_fit(slots: Slots, streams: Streams, copies: &[u64]) -> bool
    ensures { result ≡ disk_accepted (disk slots.0 streams.0) (map unmarked (copies_in copies.now)) }
{
    copies.len() <= slots.0 as usize
        && distinct_films(copies)
        && every_copy_accepted(copies)
        && total(copies) <= u64::from(streams.0)
}

// Whether every mark is 0 or 1.
fn marks_accepted(copies: &[u64]) -> bool
    ensures { result ≡ marks_accepted (copies_in copies.now) }
{
    copies.iter().all(|copy| copy_mark(*copy) <= 1)
}

// Whether a well-formed plan can have these copies on a disk of so many slots and streams.
// Kept: slots and streams as two, since this signature is public, and `copies_fit` has its own.
pub fn disk_accepted(slots: Slots, streams: Streams, copies: &[u64]) -> bool
    ensures { result ≡ copies_accepted (disk slots.0 streams.0) (copies_in copies.now) }
{
    copies_fit(slots, streams, copies) && marks_accepted(copies)
}
