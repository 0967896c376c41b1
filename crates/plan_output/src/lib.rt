// What the program `plan` prints: one function from the bytes of its input to the bytes of its output.
#![tactic(auto)]

mod input;
mod printing;

pub use input::{MOST_KEPT, keep};
pub use printing::output;
