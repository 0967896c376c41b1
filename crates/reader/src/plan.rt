// A plan of one's own, and the lines of a text that are read into it.
ghost use Rattle.std.specs.Prelude.{◌≡◌};
ghost use Rattle.placement.specs.Packed.{disks_in};
ghost use Rattle.placement.specs.Tables.{own_tables};
ghost use Rattle.plan_text.specs.Reading.{plan_read};
ghost use Rattle.plan_text.specs.ReadCall.{lines_judged};
ghost use Rattle.reader.specs.Pass.{Judged, holds};

use crate::answer::PlanRead;
use crate::cursor::Cursor;
use placement::PlanTables;
use refusal::Refusal;

// Packed disks and tables with room for the largest plan.
#[derive(Drop)]
pub struct OwnPlan {
    // Kept: no plainer: `PlanRead::disks` has the number, which an ArrayVec would say again.
    pub rack: [u64; 64],
    pub tables: PlanTables,
}

impl OwnPlan {
    // Zeros, into which a text may be read.
    pub(crate) fn new() -> OwnPlan
        ensures { holds result ≡ own_tables }
    {
        OwnPlan {
            rack: [0; 64],
            tables: PlanTables::new(),
        }
    }

    // Reads a plan line by line, or refuses the first line that does not fit.
    pub(crate) fn read_lines(&mut self, text: &[u8]) -> Result<PlanRead, Refusal>
        requires { holds self.old ≡ own_tables }
        ensures { Judged (lines_judged (plan_read text.now)) (disks_in self.new.rack)
            (holds self.old) (holds self.new) result }
    {
        let mut cursor = Cursor::new(text);
        let Some(disks) = cursor.first_line(&mut self.rack) else {
            return Err(Refusal::Line(1));
        };
        let rack = &self.rack[..disks as usize];
        let tables = &mut self.tables;
        let served = cursor.disk_lines(rack, &mut tables.copies, &mut tables.counts)?;
        let tail = cursor.tail_lines(disks + 2, served, &mut tables.left)?;
        Ok(PlanRead {
            disks,
            served,
            unserved: tail.sum,
            left: tail.count as u32,
        })
    }
}
