// Tests of what lent tables hold: copies of a disk, left films, unused places, equal disks, and sums. Every function answers for every argument.
#![tactic(auto)]

mod copies;
mod left;
mod places;
mod racks;
mod sum;

pub use copies::{absent, disk_accepted};
pub use left::left_accepted;
pub use places::all_zero;
pub use racks::all_equal;
pub use sum::total;
