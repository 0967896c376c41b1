// Reading for C.
ghost use Rattle.std.specs.Prelude.{◌≡◌};
ghost use Rattle.placement.specs.Tables.{tables};
ghost use Rattle.disk_entries.specs.Entries.{disks_of_entries};
ghost use Rattle.reader.specs.Answers.{numbers_of};
ghost use Rattle.reader.specs.Promise.{ReadPromise, JudgePromise};
ghost use Rattle.jugfjord.specs.Numbers.{read_fields};

use disk_entries::{DiskEntry, MOST_PACKED, PackedDisks, unpack};
use reader::PlanRead;
use refusal::Refusal;

// `struct jugfjord_read_plan` of the header.
// Kept: number and second, since C reads this struct of the header, which has them.
#[repr(C)]
#[derive(Clone, Copy, Debug, PartialEq, Eq, Default)]
pub struct ReadPlan {
    pub number: u32,
    pub second: u32,
    pub disks: u32,
    pub left: u32,
    pub served: u64,
    pub unserved: u64,
}

// The numbers of reading's answer: those of a refusal, or of the plan that was read.
impl From<Result<PlanRead, Refusal>> for ReadPlan {
    ghost from_gives = { λ answer read. read_fields read ≡ numbers_of answer };

    fn from(answer: Result<PlanRead, Refusal>) -> ReadPlan {
        match answer {
            Ok(plan) => ReadPlan {
                disks: plan.disks,
                left: plan.left,
                served: plan.served,
                unserved: plan.unserved,
                ..ReadPlan::default()
            },
            // Kept: alike in four impls, since C reads four structs with other fields.
            Err(refusal) => ReadPlan {
                number: refusal::number(refusal),
                second: refusal::second(refusal),
                ..ReadPlan::default()
            },
        }
    }
}

// `reader::read` with lent entries, its answer as plain numbers.
// Kept: the tables as three slices, since C lends them so.
pub fn jugfjord_read(
    text: &[u8],
    rack: &mut [DiskEntry],
    copies: &mut [u64],
    counts: &mut [u32],
    left: &mut [u64],
) -> ReadPlan
    ensures { ReadPromise text.now (disks_of_entries rack.old)
        (tables copies.old counts.old left.old)
        (disks_of_entries rack.new)
        (tables copies.new counts.new left.new)
        (read_fields result) }
{
    // 65 places are enough: no text has more disks than 64
    let places = rack.len().min(MOST_PACKED);
    // Kept: an array and its count, since `reader::read` is lent a slice and tells how many.
    let mut disks = [0u64; 65];
    let plan = ReadPlan::from(reader::read(text, &mut disks[..places], copies, counts, left));
    let count = plan.disks as usize;
    unpack(PackedDisks { count, disks }, rack);
    plan
}

// `reader::judge_text` with its answer as plain numbers.
pub fn jugfjord_judge(text: &[u8]) -> ReadPlan
    ensures { JudgePromise text.now (read_fields result) }
{
    ReadPlan::from(reader::judge_text(text))
}
