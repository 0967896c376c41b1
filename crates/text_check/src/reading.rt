// The cases of reading: each text through reading and the judgement without tables, and a plan that
// was read through writing.
use crate::answer::ReadAnswer;
use crate::case::Case;
use crate::digest::Digest;
use crate::lent::Lent;
use crate::plan::{Plan, SPACE, UNUSED_BYTE};
use reader::PlanRead;
use std::io;

// Writes a plan that was read, and says whether the space then has the digest of the space of the
// case's text.
fn print_rewritten(rt: &impl Print, plan: &Plan, read: PlanRead, text: Digest) -> io::Result<()> {
    let mut space = [UNUSED_BYTE; SPACE];
    let _ = plan.write(Lent::whole(), read, &mut space);
    if Digest::of_bytes(&space) == text {
        print!(rt; ", written the same")
    } else {
        print!(rt; ", not written the same")
    }
}

// Runs a case of reading, and says what happened.
pub(crate) fn run(rt: &impl Print, case: Case<'_>) -> io::Result<()> {
    let space = case.text_space();
    let text = &space[..case.text_length()];
    let (plan, read) = Plan::read(case.lent(), text);
    let answer = ReadAnswer(read);
    let judged = ReadAnswer(reader::judge_text(text));
    let tables = plan.contents();
    print!(rt; ": read {answer}, judged {judged}, tables {tables}")?;
    if let Ok(read) = read {
        print_rewritten(rt, &plan, read, Digest::of_bytes(&space))?;
    }
    println!(rt)
}
