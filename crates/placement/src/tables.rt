// The copy table, the count table and the left table, which always go together.
ghost use Rattle.std.specs.Prelude.{◌≡◌};
ghost use Rattle.placement.specs.Packed.{disks_in};
ghost use Rattle.placement.specs.Tables.{tables, own_tables, room_for};
ghost use Rattle.placement.specs.LentTables.{held};

use crate::mixed::room;

// The tables that a caller lends for a plan.
#[derive(Drop)]
pub struct LentTables<'a, 'b, 'c> {
    pub copies: &'a mut [u64],
    pub counts: &'b mut [u32],
    pub left: &'c mut [u64],
}

impl<'a, 'b, 'c> LentTables<'a, 'b, 'c> {
    // Whether the tables have a place for each slot and each disk of a rack, and for so many left
    // films.
    pub fn has_room(&self, rack: &[u64], films: usize) -> bool
        ensures { result ≡ room_for (disks_in rack.now) films (held self.now) }
    {
        room(
            rack,
            films,
            self.copies.len(),
            self.counts.len(),
            self.left.len(),
        )
    }
}

// Tables of one's own with room for the largest plan.
#[derive(Drop)]
pub struct PlanTables {
    pub copies: [u64; 2048],
    pub counts: [u32; 64],
    pub left: [u64; 1024],
}

impl PlanTables {
    // Tables of zeros.
    pub fn new() -> PlanTables
        ensures { tables result.copies result.counts result.left ≡ own_tables }
    {
        PlanTables {
            copies: [0; 2048],
            counts: [0; 64],
            left: [0; 1024],
        }
    }
}
