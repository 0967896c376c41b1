// Words and decimal numbers, put one after the other.
ghost use Rattle.writer.specs.Space.{two_text};

use crate::sink::Sink;

// Puts the bytes of a word.
pub(crate) fn put_word<S: Sink>(sink: &mut S, word: &[u8])
    ensures { S.takes sink.old word.now sink.new }
{
    for byte in word {
        sink.put_byte(*byte);
    }
}

// Puts two numbers with a space between them and a closing bracket behind.
pub(crate) fn put_two<S: Sink>(sink: &mut S, first: u64, second: u64)
    ensures { S.takes sink.old (two_text first second) sink.new }
{
    sink.put_number(first);
    sink.put_byte(b' ');
    sink.put_number(second);
    sink.put_byte(b')');
}
