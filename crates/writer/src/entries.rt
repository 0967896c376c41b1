// The entries of a line: pairs, or copies with their marks.
ghost use Rattle.std.specs.Prelude.{ℕ, List};
ghost use Rattle.placement.specs.Tables.{item_in, copy_in};
ghost use Rattle.plan_text.specs.Text.{pair_text, mark_end, copy_text, spaced_text};

use crate::number::{put_two, put_word};
use crate::sink::Sink;

// How an entry of a table stands in a line.
pub(crate) trait EntryText {
    ghost text: { ℕ → List ℕ };

    fn put<S: Sink>(sink: &mut S, entry: u64)
        ensures { S.takes sink.old (text entry) sink.new };
}

// An entry of the left table, or a disk: two numbers.
pub(crate) struct Pair;

impl EntryText for Pair {
    ghost text = { λ entry. pair_text (item_in entry) };

    fn put<S: Sink>(sink: &mut S, entry: u64) {
        sink.put_byte(b'(');
        put_two(
            sink,
            u64::from(placement::entry_film(entry)),
            u64::from(placement::entry_amount(entry)),
        );
    }
}

// Puts the end of a copy with this mark.
fn put_mark<S: Sink>(sink: &mut S, mark: u32)
    ensures { S.takes sink.old (mark_end mark) sink.new }
{
    if mark == 0 {
        sink.put_byte(b')');
        return;
    }
    put_word(sink, b" held)");
}

// An entry of the copy table: film, viewers and mark.
pub(crate) struct MarkedCopy;

impl EntryText for MarkedCopy {
    ghost text = { λ entry. copy_text (copy_in entry) };

    fn put<S: Sink>(sink: &mut S, entry: u64) {
        sink.put_byte(b'(');
        sink.put_number(u64::from(placement::copy_film(entry)));
        sink.put_byte(b' ');
        sink.put_number(u64::from(placement::entry_amount(entry)));
        put_mark(sink, placement::copy_mark(entry));
    }
}

// Puts the entries of a line, each with a space before it, and the line's closing bracket.
pub(crate) fn put_entries<E: EntryText, S: Sink>(sink: &mut S, entries: &[u64])
    ensures { S.takes sink.old (spaced_text E.text entries.now) sink.new }
{
    for entry in entries {
        sink.put_byte(b' ');
        E::put(sink, *entry);
    }
    sink.put_byte(b')');
}
