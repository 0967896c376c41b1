// A call of reading: the judgement of a text, and of what is lent for its plan.
ghost use Rattle.std.specs.Prelude.{◌≡◌, ◌&&◌, ◌≤◌, leb, length};
ghost use Rattle.placement.specs.Rack.{most_disks};
ghost use Rattle.placement.specs.Packed.{disks_in};
ghost use Rattle.placement.specs.Tables.{room_for, own_tables};
ghost use Rattle.placement.specs.LentTables.{held};
ghost use Rattle.plan_text.specs.ReadCall.{text_verdict};
ghost use Rattle.reader.specs.Pass.{Judged, holds, disks_read};

use crate::answer::PlanRead;
use crate::plan::OwnPlan;
use placement::LentTables;
use refusal::Refusal;

// Document 01's most bytes of a text.
const MOST_BYTES: usize = 65_536;

impl OwnPlan {
    // Judges a text, and reads its plan.
    pub(crate) fn judge(&mut self, text: &[u8]) -> Result<PlanRead, Refusal>
        requires { holds self.old ≡ own_tables }
        ensures { Judged (text_verdict text.now) (disks_in self.new.rack)
            (holds self.old) (holds self.new) result }
    {
        if text.len() > MOST_BYTES {
            return Err(Refusal::TextTooLong);
        }
        self.read_lines(text)
    }

    // Whether a lent list of packed disks and lent tables have room for the plan that was read.
    pub(crate) fn fits(&self, read: PlanRead, rack: &[u64], lent: &LentTables) -> bool
        requires { read.disks ≤ most_disks }
        ensures { result ≡ (leb read.disks (length rack.now)
            && room_for (disks_read read self.now) read.left (held lent.now)) }
    {
        let disks = &self.rack[..read.disks as usize];
        let films = read.left as usize;
        disks.len() <= rack.len() && lent.has_room(disks, films)
    }
}
