// The C library as Rattle calls it: numbers and slices in, structs of numbers out. `jugfjord_c`
// exports each function to C.
#![tactic(auto)]

mod held;
mod planning;
mod reading;
mod transferring;
mod writing;

pub use planning::{Planned, jugfjord_plan, jugfjord_plan_after, jugfjord_plan_terminal};
pub use reading::{ReadPlan, jugfjord_judge, jugfjord_read};
pub use transferring::{Transferred, jugfjord_transfers};
pub use writing::{WrittenNumbers, jugfjord_write};
