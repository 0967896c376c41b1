// The line of a refusal.
ghost use Rattle.plan_text.specs.RefusalLine.{refusal_end, refusal_text};
ghost use Rattle.writer.specs.RefusalPromise.{RefusalPromise};

use crate::number::put_word;
use crate::sink::{Count, Sink, Space};

// Puts what follows a refusal's number: the second number where it is not 0, and the closing
// bracket.
fn put_end<S: Sink>(sink: &mut S, second: u32)
    ensures { S.takes sink.old (refusal_end second) sink.new }
{
    if second == 0 {
        sink.put_byte(b')');
        return;
    }
    sink.put_byte(b' ');
    sink.put_number(u64::from(second));
    sink.put_byte(b')');
}

// Puts the whole line.
fn put_refusal<S: Sink>(sink: &mut S, number: u32, second: u32)
    ensures { S.takes sink.old (refusal_text number second) sink.new }
{
    put_word(sink, b"(refused ");
    sink.put_number(u64::from(number));
    put_end(sink, second);
    sink.put_byte(b'\n');
}

// Writes the line of a refusal to the lent space and answers its length, or 0 where the space is
// too short. A second number of 0 is not written.
// Kept: what may not change: `RefusalPromise` has the numbers, and 0 for a space that is too short.
pub fn write_refusal(number: u32, second: u32, text: &mut [u8]) -> usize
    ensures { RefusalPromise number second text.old text.new result }
{
    let mut count = Count { bytes: 0 };
    put_refusal(&mut count, number, second);
    let length = count.bytes;
    if text.len() < length {
        return 0;
    }
    put_refusal(&mut Space { out: text, at: 0 }, number, second);
    length
}
