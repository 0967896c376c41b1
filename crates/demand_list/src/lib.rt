// Demand lists: the numbers in their bytes, and the list's refusals.
#![tactic(auto)]

mod judge; // judge.rt: the shape of a list, and the whole list
mod number; // number.rt: numbers of 32 bits in bytes
mod records; // records.rt: the faults that are looked for record by record

pub use judge::{judge_list, judge_shape};
pub use number::number32;
