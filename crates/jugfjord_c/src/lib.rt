// The C library: each function of the header exports that of `jugfjord`, with the same clauses. A slice is a pointer and then a count.
// Kept: each calls its like in `jugfjord`: C calls each by its name and lends it the tables as slices.
#![tactic(auto)]

ghost use Rattle.placement.specs.Tables.{tables};
ghost use Rattle.placement.specs.Planning.{call};
ghost use Rattle.placement.specs.PlanPromise.{PlanPromise};
ghost use Rattle.plan_text.specs.WriteCall.{write_call};
ghost use Rattle.disk_entries.specs.Entries.{disks_of_entries};
ghost use Rattle.plan_after.specs.AfterPromise.{PlanAfterPromise};
ghost use Rattle.plan_terminal.specs.TerminalPromise.{TerminalPromise};
ghost use Rattle.writer.specs.WritePromise.{WritePromise};
ghost use Rattle.reader.specs.Promise.{ReadPromise, JudgePromise};
ghost use Rattle.transfer_schedule.specs.TransfersPromise.{CountedPromise};
ghost use Rattle.jugfjord.specs.Numbers.{planned_fields, read_fields, transferred_fields, written_fields};

use disk_entries::DiskEntry;
use jugfjord::{Planned, ReadPlan, Transferred, WrittenNumbers};

// `planner::plan` with lent entries.
#[unsafe(no_mangle)]
pub extern "C" fn jugfjord_plan(
    rack: &[DiskEntry],
    list: &[u8],
    copies: &mut [u64],
    counts: &mut [u32],
    left: &mut [u64],
) -> Planned
    ensures { PlanPromise
        (call (disks_of_entries rack.now) list.now)
        (tables copies.old counts.old left.old)
        (tables copies.new counts.new left.new)
        (planned_fields result) }
{
    jugfjord::jugfjord_plan(rack, list, copies, counts, left)
}

// `plan_terminal::plan_terminal` with lent entries.
#[unsafe(no_mangle)]
pub extern "C" fn jugfjord_plan_terminal(
    rack: &[DiskEntry],
    list: &[u8],
    copies: &mut [u64],
    counts: &mut [u32],
    left: &mut [u64],
) -> Planned
    ensures { TerminalPromise
        (call (disks_of_entries rack.now) list.now)
        (tables copies.old counts.old left.old)
        (tables copies.new counts.new left.new)
        (planned_fields result) }
{
    jugfjord::jugfjord_plan_terminal(rack, list, copies, counts, left)
}

// `plan_after::plan_after` with lent entries.
#[unsafe(no_mangle)]
pub extern "C" fn jugfjord_plan_after(
    rack: &[DiskEntry],
    list: &[u8],
    earlier: &[u8],
    copies: &mut [u64],
    counts: &mut [u32],
    left: &mut [u64],
) -> Planned
    ensures { PlanAfterPromise
        (call (disks_of_entries rack.now) list.now) earlier.now
        (tables copies.old counts.old left.old)
        (tables copies.new counts.new left.new)
        (planned_fields result) }
{
    jugfjord::jugfjord_plan_after(rack, list, earlier, copies, counts, left)
}

// `writer::write` with lent entries.
#[unsafe(no_mangle)]
pub extern "C" fn jugfjord_write(
    rack: &[DiskEntry],
    copies: &[u64],
    counts: &[u32],
    left: &[u64],
    left_films: u32,
    text: &mut [u8],
) -> WrittenNumbers
    ensures { WritePromise
        (write_call (disks_of_entries rack.now) (tables copies.now counts.now left.now) left_films)
        text.old text.new (written_fields result) }
{
    jugfjord::jugfjord_write(rack, copies, counts, left, left_films, text)
}

// `reader::read` with lent entries, its answer as plain numbers.
#[unsafe(no_mangle)]
pub extern "C" fn jugfjord_read(
    text: &[u8],
    rack: &mut [DiskEntry],
    copies: &mut [u64],
    counts: &mut [u32],
    left: &mut [u64],
) -> ReadPlan
    ensures { ReadPromise text.now (disks_of_entries rack.old)
        (tables copies.old counts.old left.old)
        (disks_of_entries rack.new)
        (tables copies.new counts.new left.new)
        (read_fields result) }
{
    jugfjord::jugfjord_read(text, rack, copies, counts, left)
}

// `reader::judge_text` with its answer as plain numbers.
#[unsafe(no_mangle)]
pub extern "C" fn jugfjord_judge(text: &[u8]) -> ReadPlan
    ensures { JudgePromise text.now (read_fields result) }
{
    jugfjord::jugfjord_judge(text)
}

// `transfers::transfers_counted` with its answer as plain numbers.
#[unsafe(no_mangle)]
pub extern "C" fn jugfjord_transfers(
    old: &[u8],
    new: &[u8],
    list: &mut [u64],
    counts: &mut [[u32; 9]],
) -> Transferred
    ensures { CountedPromise old.now new.now list.old list.new
        counts.old counts.new (transferred_fields result) }
{
    jugfjord::jugfjord_transfers(old, new, list, counts)
}
