// Runs the proved planner and the plain planner on many racks and lists, compares every place of
// every table and every number of the answers, and prints the tally.
#![tactic(auto)]

mod case;
mod compare;
mod draw;
mod fault;
mod full;
mod lend;
mod list;
mod plain;
mod rack;
mod tables;

use case::case_of;
use compare::{Compared, compare};
use full::Full;
use std::{fmt, io};

// How many cases are run.
const CASES: u64 = 25_000;

// How many cases ran, how many were refused, how many were planned for unequal disks, what was
// served and left in all, how many copies stand on all disks, how many films are left, and how many
// cases differ.
#[derive(Clone, Copy, Debug, Default)]
struct Tally {
    cases: u64,
    refused: u64,
    mixed: u64,
    served: u64,
    unserved: u64,
    copies: u64,
    left_films: u64,
    differ: u64,
}

impl Tally {
    // Counts a case more.
    fn count(&mut self, compared: &Compared) {
        self.cases = self.cases.wrapping_add(1);
        self.differ = self.differ.wrapping_add(u64::from(!compared.is_same));
        match compared.sums {
            Ok(sums) => {
                self.mixed = self.mixed.wrapping_add(u64::from(compared.is_mixed));
                self.served = self.served.wrapping_add(sums.served);
                self.unserved = self.unserved.wrapping_add(sums.unserved);
                self.copies = self.copies.wrapping_add(compared.copies);
                self.left_films = self.left_films.wrapping_add(sums.left);
            }
            Err(_) => self.refused = self.refused.wrapping_add(1),
        }
    }
}

impl fmt::Display for Tally {
    fn fmt<W: fmt::Write>(&self, f: &mut fmt::Formatter<W>) -> fmt::Result {
        let tally = *self;
        writeln!(f, "cases {}", tally.cases)?;
        writeln!(f, "refused {}", tally.refused)?;
        writeln!(f, "mixed {}", tally.mixed)?;
        writeln!(f, "served {}", tally.served)?;
        writeln!(f, "left {}", tally.unserved)?;
        writeln!(f, "copies {}", tally.copies)?;
        writeln!(f, "left films {}", tally.left_films)?;
        write!(f, "differ {}", tally.differ)
    }
}

// Runs so many cases.
fn run_cases(cases: u64) -> Result<Tally, Full> {
    let mut tally = Tally::default();
    for number in 0..cases {
        tally.count(&compare(&case_of(number))?);
    }
    Ok(tally)
}

// Runs all cases and writes the tally.
fn main(rt: HostRuntime) -> io::Result<()> {
    let tally = run_cases(CASES)?;
    println!(rt; "{tally}")
}
