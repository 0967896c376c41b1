// The pairs or copies of a line.
ghost use Rattle.std.specs.Prelude.{◌≡◌};
ghost use Rattle.placement.specs.Items.{item};
ghost use Rattle.plan_text.specs.Parse.{pair_start};
ghost use Rattle.plan_text.specs.Capped.{saturated};
ghost use Rattle.reader.specs.Cursor.{parse_by};
ghost use Rattle.reader.specs.Pairs.{halves_end, PairsRead};

use crate::cursor::Cursor;
use placement::{MARK, MOST_PLAN_FILM, entry_of};

// What a line lists in its brackets.
pub trait Listed {
    ghost use Rattle.std.specs.Prelude.{◌≡◌, ℕ, List};
    ghost use Rattle.placement.specs.Items.{Item, item};
    ghost use Rattle.plan_text.specs.Parse.{Parse};
    ghost use Rattle.reader.specs.Cursor.{parse_by};

    // how one is read from the front of a text, as the halves of its entry
    ghost reads: { List ℕ → Parse Item };

    // Reads one: the low and the high half of its entry.
    fn read(cursor: &mut Cursor) -> Option<(u32, u32)>
        ensures { parse_by (λ p. item p.0 p.1) result cursor.new ≡ reads cursor.old };
}

// Two numbers.
pub struct Pair;

impl Listed for Pair {
    ghost use Rattle.plan_text.specs.Parse.{pair};
    ghost use Rattle.plan_text.specs.Capped.{saturated};

    ghost reads = { pair saturated };

    fn read(cursor: &mut Cursor) -> Option<(u32, u32)> {
        let (film, amount) = cursor.pair_start()?;
        cursor.eat(b')')?;
        Some((film, amount))
    }
}

// A film and its viewers, where the film may be marked as held.
pub struct MarkedCopy;

impl Listed for MarkedCopy {
    ghost use Rattle.reader.specs.Pairs.{halves_read};

    ghost reads = { halves_read };

    #[tactic(auto, using(crate::proofs::CopyEnds::halves_parts))]
    fn read(cursor: &mut Cursor) -> Option<(u32, u32)> {
        let (film, viewers) = cursor.pair_start()?;
        let low = cursor.copy_end(film, viewers)?;
        Some((low, viewers))
    }
}

impl<'a> Cursor<'a> {
    // Reads the two numbers of a pair.
    fn pair_start(&mut self) -> Option<(u32, u32)>
        ensures { parse_by (λ p. item p.0 p.1) result self.new ≡ pair_start saturated self.old }
    {
        self.eat(b'(')?;
        let film = self.number()?;
        self.eat(b' ')?;
        let amount = self.number()?;
        Some((film, amount))
    }

    // Reads the end of a copy of this film; the mark goes into the low half.
    #[tactic(auto, using(crate::proofs::CopyEnds::end_large, crate::proofs::CopyEnds::end_closed, crate::proofs::CopyEnds::end_held))]
    fn copy_end(&mut self, film: u32, viewers: u32) -> Option<u32>
        ensures { parse_by (λ f. item f viewers) result self.new
            ≡ halves_end (item film viewers) self.old }
    {
        if film > MOST_PLAN_FILM {
            return None;
        }
        if self.eat(b')').is_some() {
            return Some(film);
        }
        self.eat_all(b" held)")?;
        Some(film + MARK)
    }

    // Reads what a line lists up to its closing bracket, as much as there are places, and stores
    // the entries from the front.
    pub(crate) fn listed<L: Listed>(&mut self, entries: &mut [u64]) -> Option<usize>
        ensures { PairsRead L.reads self.old self.new entries.old entries.new result }
    {
        let mut here = self.clone().ok()?;
        for (n, entry) in entries.iter_mut().enumerate() {
            if here.eat(b' ').is_none() {
                here.eat(b')')?;
                *self = here;
                return Some(n);
            }
            let (low, high) = L::read(&mut here)?;
            *entry = entry_of(low, high);
        }
        here.eat(b')')?;
        *self = here;
        Some(entries.len())
    }
}
