// A plan as the lent tables state it.
use std::marker::Model;

// The tables of a plan with the stated number of left films: the rack is accepted, and the tables
// have room for both.
#[derive(Drop)]
pub(crate) struct StatedPlan<'a> {
    pub(crate) rack: &'a [u64],
    pub(crate) copies: &'a [u64],
    pub(crate) counts: &'a [u32],
    pub(crate) left: &'a [u64],
    pub(crate) films: u32,
}

impl<'a> Model for StatedPlan<'a> {
    ghost use Rattle.placement.specs.Packed.{disks_in};
    ghost use Rattle.placement.specs.Tables.{tables};
    ghost use Rattle.plan_text.specs.WriteCall.{WriteCall, write_call};
    ghost use Rattle.writer.specs.Call.{Stated};

    ghost Value = { WriteCall };

    ghost view = { λ p. write_call (disks_in p.rack.now) (tables p.copies.now p.counts.now p.left.now) p.films };

    ghost invariant = { λ p. Stated (write_call (disks_in p.rack.now) (tables p.copies.now p.counts.now p.left.now) p.films) };
}
