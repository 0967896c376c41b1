// The vocabulary of film racks: slots, streams, the rack, the limits of document 01, entries of tables, and the room that a plan needs.
#![tactic(auto)]

mod entry; // entry.rt: an entry of a table as one number
mod mixed; // mixed.rt: a rack of large and small disks, its refusals and its room
mod packed; // packed.rt: a disk as one number
mod rack; // rack.rt: slots, streams and the rack of equal disks, and their ranges
mod tables; // tables.rt: the three tables of a plan

pub use entry::{MARK, copy_film, copy_mark, entry_amount, entry_film, entry_of, with_mark};
pub use mixed::{all_slots, judge_rack, room};
pub use packed::{disk_of, disk_slots, disk_streams};
pub use rack::{Rack, Slots, Streams, accepted, in_range};
pub use tables::{LentTables, PlanTables};

// The limits of document 01's table.
pub const MOST_DISKS: u32 = 64;

pub const MOST_SLOTS: u32 = 32;

pub const MOST_STREAMS: u32 = 65_535;

pub const MOST_RECORDS: usize = 1_024;

// The largest film number in a demand list, and the largest in a plan. The numbers between are service clips (document 02).
pub const MOST_FILM: u32 = 49_999;

pub const MOST_PLAN_FILM: u32 = 65_535;

pub const MOST_DEMAND: u32 = 1_000_000;
