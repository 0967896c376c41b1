// Runs texts through reading and writing, and prints what happened: lines damaged in every way that
// 01 names, numbers at and beyond each limit, long texts, tables too short, racks of unequal disks,
// and calls of writing.
#![tactic(auto)]

mod answer;
mod case;
mod change;
mod digest;
mod lent;
mod plan;
mod reading;
mod writing;

ghost use Rattle.std.specs.Prelude.{◌≤◌, length, IfOk};

use case::Case;
use std::io::Read;
use std::rt::Files;
use std::{fs, io, iter};

// The bytes that are read of a file of cases.
const FILE: usize = 131_072;

// Reads as much of a file of cases as the space holds: no bytes of a missing one.
// Kept: like plan_cases', but a crate for both would be longer than the four lines.
fn read_file<'a>(rt: &impl Files, name: &str, space: &'a mut [u8]) -> io::Result<&'a [u8]>
    ensures { IfOk result (λ read. length read.now ≤ length space.old) }
{
    let Ok(file) = fs::open(rt, name) else {
        return Ok(&[]);
    };
    let most = space.len();
    let read = io::copy(&mut file.take(most as u64), &mut &mut *space)?;
    Ok(&space[..most.min(read as usize)])
}

// Runs the cases of a file, behind the label of each.
fn run_file<R: Files + Print, F: Fn(Case<'_>) -> io::Result<()>>(
    rt: &R,
    name: &str,
    run: F,
) -> io::Result<()>
    requires { F.IsAlwaysCallable run }
{
    let mut space = [0u8; FILE];
    let file = read_file(rt, name, &mut space)?;
    let cases = iter::successors(Case::at(file, 0), |case| Case::at(file, case.next));
    for case in cases.take(file.len()) {
        rt.write_all(case.label)?;
        run(case)?;
    }
    Ok(())
}

// Runs all cases.
fn main(rt: HostRuntime) -> io::Result<()> {
    for name in ["lines", "limits", "long", "lending", "unequal", "racks"] {
        println!(rt; "reading {name}")?;
        run_file(&rt, name, |case| reading::run(&rt, case))?;
    }
    println!(rt; "writing")?;
    run_file(&rt, "writing", |case| writing::run(&rt, case))
}
