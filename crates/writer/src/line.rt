// The lines of a plan text.
ghost use Rattle.std.specs.Prelude.{[], ◌∷◌, ◌++◌, map};
ghost use Rattle.placement.specs.Tables.{item_in, copies_in};
ghost use Rattle.plan_text.specs.Text.{
  pairs_text,
  line_feed,
  lines,
  rack_line,
  disk_line,
  served_line,
};

use crate::entries::{MarkedCopy, Pair, put_entries};
use crate::number::{put_two, put_word};
use crate::sink::Sink;
use placement::Rack;

// Puts the rack line.
pub(crate) fn put_rack<S: Sink>(sink: &mut S, rack: Rack)
    ensures { S.takes sink.old
        (lines (rack_line rack.disks rack.slots.0 rack.streams.0 ∷ [])) sink.new }
{
    put_word(sink, b"(rack ");
    sink.put_number(u64::from(rack.disks));
    sink.put_byte(b' ');
    put_two(sink, u64::from(rack.slots.0), u64::from(rack.streams.0));
    sink.put_byte(b'\n');
}

// Puts a line of pairs behind its head: what is left, or the slots and streams of disks that
// differ.
pub(crate) fn put_pairs<S: Sink>(sink: &mut S, head: &[u8], entries: &[u64])
    ensures { S.takes sink.old
        (head.now ++ (pairs_text (map item_in entries.now) ++ (line_feed ∷ []))) sink.new }
{
    put_word(sink, head);
    put_entries::<Pair, S>(sink, entries);
    sink.put_byte(b'\n');
}

// Puts the line of one disk with its copies.
pub(crate) fn put_disk<S: Sink>(sink: &mut S, number: u64, copies: &[u64])
    ensures { S.takes sink.old (lines (disk_line number (copies_in copies.now) ∷ [])) sink.new }
{
    put_word(sink, b"(disk ");
    sink.put_number(number);
    put_entries::<MarkedCopy, S>(sink, copies);
    sink.put_byte(b'\n');
}

// Puts the line of the sums S and U.
pub(crate) fn put_served<S: Sink>(sink: &mut S, served: u64, unserved: u64)
    ensures { S.takes sink.old (lines (served_line served unserved ∷ [])) sink.new }
{
    put_word(sink, b"(served ");
    put_two(sink, served, unserved);
    sink.put_byte(b'\n');
}
