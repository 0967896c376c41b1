// What planning answers where it is not refused.

// A plan's S, U and number of left films. specs/Answers.antt gives the numbers of an answer.
#[derive(Clone, Copy, Debug, PartialEq, Eq)]
pub struct PlanSums {
    pub served: u64,
    pub unserved: u64,
    pub left: u32,
}
