// Prints, for many inputs, a label and what the program `plan` prints: for each file that the file `names` lists, and for a long
// input of which the program keeps a part.
#![tactic(auto)]

ghost use Rattle.std.specs.Prelude.{◌≤◌, length, IfOk};

use plan_output::{MOST_KEPT, keep, output};
use std::io::Read;
use std::rt::Files;
use std::{fs, io, str};

// The bytes that are read of a file, or of the list of names.
const SHORT: usize = 1_024;

// Reads as much of a file as the space holds. A missing file is said so and has no bytes, and a
// name that is no text is one of a missing file.
// Kept: like text_check's, but a crate for both would be longer than the four lines.
fn read_file<'a>(
    rt: &(impl Files + Print),
    name: &[u8],
    space: &'a mut [u8],
) -> io::Result<&'a [u8]>
    ensures { IfOk result (λ read. length read.now ≤ length space.old) }
{
    if let Ok(name) = str::from_utf8(name) {
        if let Ok(file) = fs::open(rt, name) {
            let most = space.len();
            let read = io::copy(&mut file.take(most as u64), &mut &mut *space)?;
            return Ok(&space[..most.min(read as usize)]);
        }
    }
    println!(rt; "no such file")?;
    Ok(&[])
}

// Prints what `plan` prints for an input, in space for the longest output.
fn show(rt: &impl Print, input: &[u8]) -> io::Result<()> {
    let mut text = [0u8; 43_885];
    let length = output(input, &mut text).min(text.len());
    rt.write_all(&text[..length])
}

// Prints the name of the file and the output for it.
fn run_file(rt: &(impl Files + Print), name: &[u8]) -> io::Result<()> {
    let mut space = [0u8; SHORT];
    let input = read_file(rt, name, &mut space)?;
    rt.write_all(name)?;
    println!(rt)?;
    show(rt, input)
}

// Runs the files that are listed, a name a line.
fn run_names(rt: &(impl Files + Print), names: &[u8]) -> io::Result<()> {
    for line in names.split_inclusive(|byte| *byte == b'\n') {
        if let Some(name) = line.strip_suffix(b"\n") {
            run_file(rt, name)?;
        }
    }
    Ok(())
}

// Prints the label of a long input, and the output for the part of it that is kept, counted in two halves.
fn run_long(rt: &(impl Files + Print), length: usize) -> io::Result<()> {
    let mut input = [0u8; MOST_KEPT];
    read_file(rt, b"long", &mut input)?;
    let half = length / 2;
    let kept = keep(keep(0, half), length - half);
    println!(rt; "long {length}")?;
    show(rt, &input[..kept])
}

// Runs the files, then 1,024 records, 1,025 with and without odd bytes, and of 1,026 records and of 1 MiB what is kept.
fn main(rt: HostRuntime) -> io::Result<()> {
    let mut space = [0u8; SHORT];
    let names = read_file(&rt, b"names", &mut space)?;
    run_names(&rt, names)?;
    for length in [8_204, 8_212, 8_215, 8_220, 8_223, 1_048_576, 1_048_588] {
        run_long(&rt, length)?;
    }
    Ok(())
}
