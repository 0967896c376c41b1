// The sum of the amounts of entries.
ghost use Rattle.std.specs.Prelude.{map};
ghost use Rattle.placement.specs.Tables.{item_in};
ghost use Rattle.well_formed.specs.Sum.{Summed};

use placement::entry_amount;

// The sum of all amounts, or the largest number of 64 bits where the sum passes it.
pub fn total(entries: &[u64]) -> u64
    ensures { Summed (map item_in entries.now) result }
{
    entries
        .iter()
        .map(|entry| u64::from(entry_amount(*entry)))
        .fold(0, u64::saturating_add)
}
