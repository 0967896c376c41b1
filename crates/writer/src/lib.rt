// The writer of plan texts: from the lent tables to bytes in the lent space.
#![tactic(auto)]

mod entries; // entries.rt: the pairs and the copies of a line
mod judge; // judge.rt: whether the tables hold a well-formed plan
mod line; // line.rt: the lines of a text
mod number; // number.rt: words and decimal numbers
mod refusal_line; // refusal_line.rt: the line of a refusal
mod sink; // sink.rt: what takes the bytes: a lent space, or a count
mod stated; // stated.rt: a plan as the tables state it
mod text; // text.rt: the whole text of a plan

ghost use Rattle.std.specs.Prelude.{◌≡◌, OnErr};
ghost use Rattle.placement.specs.Packed.{disks_in};
ghost use Rattle.placement.specs.Tables.{tables};
ghost use Rattle.plan_text.specs.WriteCall.{write_call};
ghost use Rattle.writer.specs.Answers.{written_numbers};
ghost use Rattle.writer.specs.WritePromise.{WritePromise};

use crate::sink::{Count, Space};
use crate::stated::StatedPlan;
use refusal::Refusal;
pub use refusal_line::write_refusal;

// Writes the text of the plan held to the lent space. Every refusal is judged, and the length
// known, before the first byte.
// Kept: what may not change: `write` is public, with these slices; inside they are a `StatedPlan`.
pub fn write(
    rack: &[u64],
    copies: &[u64],
    counts: &[u32],
    left: &[u64],
    films: u32,
    text: &mut [u8],
) -> Result<u64, Refusal>
    ensures promise { WritePromise
        (write_call (disks_in rack.now) (tables copies.now counts.now left.now) films)
        text.old text.new (written_numbers result) }
    ensures unchanged { OnErr result (text.new ≡ text.old) }
{
    placement::judge_rack(rack)?;
    if !placement::room(rack, films as usize, copies.len(), counts.len(), left.len()) {
        return Err(Refusal::TablesTooShort);
    }
    let plan = StatedPlan {
        rack,
        copies,
        counts,
        left,
        films,
    };
    if !plan.is_formed() {
        return Err(Refusal::NotWellFormed);
    }
    let mut count = Count { bytes: 0 };
    plan.put_text(&mut count);
    let length = count.bytes;
    if text.len() < length {
        return Err(Refusal::SpaceTooShort);
    }
    plan.put_text(&mut Space { out: text, at: 0 });
    Ok(length as u64)
}
