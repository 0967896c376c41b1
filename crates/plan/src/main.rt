// Reads a rack and a demand list from standard input and writes the text of its plan, or the line of a refusal, to standard
// output.
#![tactic(auto)]

mod failure;
mod reading;
mod writing;

ghost use Rattle.std.specs.Prelude.{◌≡◌, true, ◌≤◌, ◌<◌, length, take, OnOk, OnErr, IfErr};
ghost use Rattle.std.specs.Io.KnownBytes.{Appends};
ghost use Rattle.plan_output.specs.Input.{most_kept};
ghost use Rattle.plan_output.specs.Output.{output_of};
ghost use Rattle.plan_output.specs.OutputPromise.{most_output};
ghost use Rattle.plan.specs.Answers.{answer_number, goes_on, is_end};
ghost use Rattle.plan.specs.RunPromise.{RunPromise};
ghost use Rattle.plan.specs.Running.{AfterFailure, saw_end};
ghost use Rattle.plan.specs.Writing.{AppendsPart};

use failure::Failure;
use plan_output::{MOST_KEPT, output};
use reading::Reading;
use std::io;
use std::io::{Error, ErrorKind, Read, Write};
use writing::write_out;

// Writes the output of an input: all of it, and nothing else.
fn send<W: Write>(writer: &mut W, input: &[u8], bytes: &[u8]) -> io::Result<()>
    requires { bytes.now ≡ output_of input.now }
    ensures whole { OnOk result (Appends (W.contents writer.old) (W.contents writer.new)
        (output_of input.now)) }
    ensures part { OnErr result (AppendsPart (W.contents writer.old) (W.contents writer.new)
        (output_of input.now)) }
{
    write_out(writer, bytes)
}

// Works out the output for an input that was read to its end, at the front of the space, and sends
// it.
fn print<W: Write>(
    writer: &mut W,
    reading: &Reading,
    input: &[u8],
    text: &mut [u8],
) -> io::Result<()>
    requires end_seen { is_end (answer_number reading.now.last) ≡ true }
    requires room { most_output ≤ length text.old }
    ensures made { take (length (output_of input.now)) text.new ≡ output_of input.now }
    ensures whole { OnOk result (Appends (W.contents writer.old) (W.contents writer.new)
        (output_of input.now)) }
    ensures part { OnErr result (AppendsPart (W.contents writer.old) (W.contents writer.new)
        (output_of input.now)) }
{
    let n = output(input, text);
    send(writer, input, &text[..n])
}

// Reads the input and, where its end was seen, prints the output for it.
// Kept: `new` gives three facts, `run` asks them and `read_input` two: a name would hide which.
#[tactic(auto, using(crate::proofs::RunPromises::run_unseen, crate::proofs::RunPromises::run_seen, crate::proofs::OneReads::failed_unseen, crate::proofs::Writes::keeps_same))]
fn run<R: Read, W: Write>(
    reader: &mut R,
    writer: &mut W,
    input: &mut [u8; MOST_KEPT],
    text: &mut [u8],
    reading: &mut Reading,
) -> Result<(), Failure>
    requires text_room { most_output ≤ length text.old }
    requires uncounted { most_kept < reading.old.kept }
    requires more { goes_on (answer_number reading.old.last) ≡ true }
    requires all_turns { reading.old.turns ≡ 18446744073709551615 }
    ensures promise { RunPromise input.new
        reading.new.kept (answer_number reading.new.last) reading.new.turns
        text.old text.new }
    ensures seen { is_end (answer_number reading.new.last) ≡ saw_end result }
    ensures sent { OnOk result (Appends (W.contents writer.old) (W.contents writer.new)
        (output_of (take reading.new.kept input.new))) }
    ensures failed { IfErr result (λ f. AfterFailure f
        (W.contents writer.old) (W.contents writer.new)
        (output_of (take reading.new.kept input.new))) }
{
    reading.read_input(reader, input).map_err(Failure::Unread)?;
    if !reading.is_end() {
        return Err(Failure::Unread(Error::from(ErrorKind::FileTooLarge)));
    }
    let kept = &input[..reading.kept];
    print(writer, reading, kept, text).map_err(Failure::Unwritten)
}

// Makes the space for what is kept of an input and one that every output fits.
fn main(rt: HostRuntime) {
    let mut input = [0u8; MOST_KEPT];
    let mut text = [0u8; 43_885];
    let done = run(
        &mut rt.stdin(),
        &mut rt.stdout(),
        &mut input,
        &mut text,
        &mut Reading::new(),
    );
    if let Err(failure) = done {
        let _ = eprintln!(rt; "plan: {failure}");
    }
}
