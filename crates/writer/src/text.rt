// The whole text of a plan: the rack line, which for unequal disks names each, a line a disk, the
// left line and the served line.
ghost use Rattle.std.specs.Prelude.{◌≡◌, true, [], ◌∷◌};
ghost use Rattle.plan_text.specs.Text.{lines, first_line, text_of};
ghost use Rattle.plan_text.specs.WriteCall.{plan_of, well_formed_call};
ghost use Rattle.writer.specs.Space.{disk_lines};

use crate::line::{put_disk, put_pairs, put_rack, put_served};
use crate::sink::Sink;
use crate::stated::StatedPlan;
use placement::{Rack, all_slots, disk_slots, disk_streams};
use well_formed::{all_equal, total};

impl<'a> StatedPlan<'a> {
    // Puts the first line: that of equal disks, or that of disks which differ.
    #[tactic(auto, using(crate::proofs::Runs::items_packed))]
    fn put_first<S: Sink>(&self, sink: &mut S)
        ensures { S.takes sink.old (lines (first_line self.now.rack ∷ [])) sink.new }
    {
        if all_equal(self.rack) {
            let disk = self.rack[0];
            let equal = Rack {
                disks: self.rack.len() as u32,
                slots: disk_slots(disk),
                streams: disk_streams(disk),
            };
            put_rack(sink, equal);
            return;
        }
        put_pairs(sink, b"(mixed", self.rack);
    }

    // Puts the lines of all disks.
    fn put_disks<S: Sink>(&self, sink: &mut S)
        requires { well_formed_call self.now ≡ true }
        ensures { S.takes sink.old (disk_lines 1 (plan_of self.now).copies) sink.new }
    {
        // Kept: no range gives `first`; a disk's places begin behind the slots of all before it.
        let mut first = 0;
        // Kept: no plainer: `zip` and `enumerate` give a pair in a pair for `self.counts[d]`.
        for (d, disk) in self.rack.iter().enumerate() {
            let end = first + self.counts[d] as usize;
            put_disk(sink, d as u64 + 1, &self.copies[first..end]);
            first += disk_slots(*disk).0 as usize;
        }
    }

    // Puts the whole text. S and U are the sums over the tables.
    pub(crate) fn put_text<S: Sink>(&self, sink: &mut S)
        requires { well_formed_call self.now ≡ true }
        ensures { S.takes sink.old (text_of (plan_of self.now)) sink.new }
    {
        let places = all_slots(self.rack);
        let left = &self.left[..self.films as usize];
        let served = total(&self.copies[..places]);
        let unserved = total(left);
        self.put_first(sink);
        self.put_disks(sink);
        put_pairs(sink, b"(left", left);
        put_served(sink, served, unserved);
    }
}
