// The reader of plan texts: a text is judged line by line, and its plan is stored in a lent list
// of packed disks and lent tables.
#![tactic(auto)]

mod answer; // answer.rt: what reading answers where it does not refuse
mod call; // call.rt: the judgement of a text, and of what is lent for its plan
mod class; // class.rt: the classes of bytes
mod cursor; // cursor.rt: the bytes that are not read yet, and steps over them
mod disks; // disks.rt: the lines of all disks
mod first; // first.rt: the first line, in either form
mod line; // line.rt: each kind of line
mod pairs; // pairs.rt: the pairs of a line
mod plan; // plan.rt: a plan of one's own, and the lines that are read into it
mod tables; // tables.rt: storing the plan in what is lent
mod tail; // tail.rt: the lines behind the disks

ghost use Rattle.std.specs.Prelude.{◌≡◌, OnErr};
ghost use Rattle.placement.specs.Packed.{disks_in};
ghost use Rattle.placement.specs.Tables.{tables};
ghost use Rattle.reader.specs.Answers.{numbers_of};
ghost use Rattle.reader.specs.Promise.{ReadPromise, JudgePromise};

pub use answer::PlanRead;
use placement::LentTables;
use plan::OwnPlan;
use refusal::Refusal;

// Reads a text: its plan is stored in the lent list of packed disks and the lent tables, or a
// refusal changes none of them.
// Kept: four slices beside the text, since this signature is public; inside stands `LentTables`.
// A function of its own in the compiled code, so that its arrays are gone where planning follows.
#[inline(never)]
pub fn read(
    text: &[u8],
    rack: &mut [u64],
    copies: &mut [u64],
    counts: &mut [u32],
    left: &mut [u64],
) -> Result<PlanRead, Refusal>
    ensures promise { ReadPromise text.now (disks_in rack.old)
        (tables copies.old counts.old left.old) (disks_in rack.new)
        (tables copies.new counts.new left.new) (numbers_of result) }
    ensures unchanged_rack { OnErr result (disks_in rack.new ≡ disks_in rack.old) }
    ensures unchanged { OnErr result
        (tables copies.new counts.new left.new ≡ tables copies.old counts.old left.old) }
{
    let mut plan = OwnPlan::new();
    let read = plan.judge(text)?;
    let mut lent = LentTables {
        copies,
        counts,
        left,
    };
    if !plan.fits(read, rack, &lent) {
        return Err(Refusal::TablesTooShort);
    }
    plan.store(read, rack, &mut lent);
    Ok(read)
}

// Judges a text with nothing lent, so that it is never refused by 7.
pub fn judge_text(text: &[u8]) -> Result<PlanRead, Refusal>
    ensures { JudgePromise text.now (numbers_of result) }
{
    let mut plan = OwnPlan::new();
    plan.judge(text)
}
