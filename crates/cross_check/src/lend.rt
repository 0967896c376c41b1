// What a case lends: how many places of each table.
use crate::case::{Case, Table};
use crate::draw::draw;
use crate::plain::{Disk, Lengths, all_slots};

// How many places of a table are lent where so many are needed: one fewer if that is the fault of
// the case, or up to two more.
fn lent(case: &Case, table: Table, needed: usize) -> usize {
    if case.short == Some(table) {
        return needed.saturating_sub(1);
    }
    let place = match table {
        Table::Copies => 21,
        Table::Counts => 22,
        Table::Left => 23,
    };
    needed.saturating_add(draw(case.number, place, 3) as usize)
}

// How many places of each table the case lends.
pub(crate) fn lengths_of(case: &Case, rack: &[Disk]) -> Lengths {
    Lengths {
        copies: lent(case, Table::Copies, all_slots(rack)),
        counts: lent(case, Table::Counts, rack.len()),
        left: lent(case, Table::Left, case.records as usize),
    }
}
