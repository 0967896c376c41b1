// The text that the program `plan` prints for an input: the plan text, or the line of a refusal.
ghost use Rattle.std.specs.Prelude.{◌≡◌, true};
ghost use Rattle.refusal.specs.Numbers.{number_of, second_of};
ghost use Rattle.placement.specs.Rack.{disks_of, sizes_in_range};
ghost use Rattle.placement.specs.Planning.{call};
ghost use Rattle.plan_text.specs.RefusalLine.{refusal_text};
ghost use Rattle.writer.specs.Answers.{written_numbers};
ghost use Rattle.plan_output.specs.Output.{printed_for};
ghost use Rattle.plan_output.specs.OutputPromise.{OutputPromise};
ghost use Rattle.writer.specs.Shown.{Shown};

use demand_list::number32;
use placement::{PlanTables, Rack, Slots, Streams, accepted, disk_of};
use refusal::Refusal;
use writer::write_refusal;

// N, k and L take this many bytes.
const HEAD: usize = 12;

// Writes the line of a refusal.
fn refuse(refusal: Refusal, text: &mut [u8]) -> usize
    ensures { Shown (refusal_text (number_of refusal) (second_of refusal)) text.old text.new result }
{
    let number = refusal::number(refusal);
    let second = refusal::second(refusal);
    write_refusal(number, second, text)
}

// The length of the text that was written, 0 where none was.
fn length_of(written: Result<u64, Refusal>) -> usize
    ensures { result ≡ (written_numbers written).values }
{
    written.unwrap_or(0) as usize
}

// Plans for N equal disks into tables made for it, with room for the largest rack and the longest list, and writes the text
// of the plan or the line of the refusal.
fn print_plan(rack: Rack, list: &[u8], text: &mut [u8]) -> usize
    requires { sizes_in_range rack.disks rack.slots.0 rack.streams.0 ≡ true }
    ensures { Shown (printed_for (call (disks_of rack) list.now)) text.old text.new result }
{
    let equal = [disk_of(rack.slots, rack.streams); 64];
    let disks = &equal[..rack.disks as usize];
    let mut own = PlanTables::new();
    match planner::plan(disks, list, &mut own.copies, &mut own.counts, &mut own.left) {
        Ok(sums) => length_of(writer::write(
            disks,
            &own.copies,
            &own.counts,
            &own.left,
            sums.left,
            text,
        )),
        Err(refusal) => refuse(refusal, text),
    }
}

// Writes what `plan` prints for this input, and answers how many bytes that is, or 0 where the space is too short.
// Kept: 0 and no Option for a space that is too short, since `OutputPromise` names that answer.
pub fn output(input: &[u8], text: &mut [u8]) -> usize
    ensures { OutputPromise input.now text.old text.new result }
{
    if input.len() < HEAD {
        return refuse(Refusal::ListLength, text);
    }
    let rack = Rack {
        disks: number32(input, 0),
        slots: Slots(number32(input, 4)),
        streams: Streams(number32(input, 8)),
    };
    if !accepted(rack) {
        return refuse(Refusal::RackOutOfRange, text);
    }
    print_plan(rack, &input[HEAD..], text)
}
