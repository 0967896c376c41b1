// The lines of all disks.
ghost use Rattle.placement.specs.Packed.{disks_in};
ghost use Rattle.reader.specs.Disks.{DisksReady, DisksRead};

use crate::cursor::Cursor;
use placement::disk_slots;
use refusal::Refusal;

impl<'a> Cursor<'a> {
    // Reads the lines of all disks, and sums up what they serve; each disk's copies are stored from
    // its first place on.
    pub(crate) fn disk_lines(
        &mut self,
        rack: &[u64],
        copies: &mut [u64],
        counts: &mut [u32],
    ) -> Result<u64, Refusal>
        requires { DisksReady (disks_in rack.now) copies.old counts.old }
        ensures { DisksRead self.old self.new (disks_in rack.now) copies.old counts.old
            copies.new counts.new result }
    {
        let mut served = 0u64;
        // Kept: disks' places differ in number, so no `chunks_mut`; a rest to split is no plainer.
        let mut from = 0usize;
        for (i, disk) in rack.iter().enumerate() {
            let number = i as u32 + 1;
            let to = from + disk_slots(*disk).0 as usize;
            let Some(line) = self.disk_line(number, *disk, &mut copies[from..to]) else {
                return Err(Refusal::Line(number + 1));
            };
            counts[i] = line.count as u32;
            served += line.sum;
            from = to;
        }
        Ok(served)
    }
}
