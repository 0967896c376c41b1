// The cases of writing: a rack and tables that were read from a text, with one place or number set,
// and a line that says what writing gave.
use crate::answer::{Contents, ReadAnswer, WriteAnswer};
use crate::case::Case;
use crate::digest::Digest;
use crate::lent::Lent;
use crate::plan::{Plan, SPACE, UNUSED_BYTE};
use std::io;

// The digest of a space that holds its unused byte in every place.
const UNTOUCHED: Digest = Digest(2_270_514_100_495_366_144);

// Runs a case of writing, and says what happened. Where no plan was read the space is read.
pub(crate) fn run(rt: &impl Print, case: Case<'_>) -> io::Result<()> {
    let text = case.text_space();
    let (mut plan, read) = Plan::read(Lent::whole(), &text[..case.text_length()]);
    plan.set(case);
    let mut space = [UNUSED_BYTE; SPACE];
    if let Ok(read) = read {
        let written = plan.write(case.lent(), case.stated(read), &mut space);
        print!(rt; ": {}", WriteAnswer(written))?;
    } else {
        let (_, answer) = Plan::read(case.lent(), &space);
        print!(rt; ": {}", ReadAnswer(answer))?;
    }
    let contents = Contents {
        digest: Digest::of_bytes(&space),
        untouched: UNTOUCHED,
    };
    println!(rt; ", space {contents}")
}
