// What reading answers where it does not refuse.

// A plan that was read: the number of disks, what is served and not served, and the number of
// left films.
#[derive(Clone, Copy, Debug, PartialEq, Eq)]
pub struct PlanRead {
    pub disks: u32,
    pub served: u64,
    pub unserved: u64,
    pub left: u32,
}
