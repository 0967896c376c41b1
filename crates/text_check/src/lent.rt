// The places of the rack, of the tables and of the text that a case lends.
ghost use Rattle.std.specs.Prelude.{◌≤◌};

// What a call is lent.
#[derive(Clone, Copy, PartialEq, Eq)]
pub(crate) enum Part {
    Rack,
    Copies,
    Counts,
    Left,
    Text,
}

// All places of each part, or of one part no more than so many.
#[derive(Clone, Copy)]
pub(crate) struct Lent {
    limit: Option<(Part, usize)>,
}

impl Lent {
    // All places are lent.
    pub(crate) fn whole() -> Lent {
        Lent { limit: None }
    }

    // Of one part no more than so many places are lent.
    pub(crate) fn at_most(part: Part, places: usize) -> Lent {
        Lent {
            limit: Some((part, places)),
        }
    }

    // How many places of a part with this length are lent.
    pub(crate) fn places(self, part: Part, length: usize) -> usize
        ensures { result ≤ length }
    {
        match self.limit {
            Some((limited, places)) if limited == part => places.min(length),
            _ => length,
        }
    }
}
