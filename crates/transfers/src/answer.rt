// What transfers answer where nothing is refused.

// The number of transfers and the number of rounds.
#[derive(Clone, Copy, Debug, PartialEq, Eq)]
pub struct InRounds {
    pub transfers: u32,
    pub rounds: u32,
}
