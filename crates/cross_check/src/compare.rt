// One case on both planners, with every place of every table and every number of the answers
// compared.
use crate::case::Case;
use crate::full::Full;
use crate::lend::lengths_of;
use crate::list::list_of;
use crate::plain::{Call, Disk, Planned, Refused, Sums, plan, total};
use crate::rack::{MOST_DISKS, rack_of};
use crate::tables::Tables;
use arrayvec::ArrayVec;
use planner::PlanSums;
use refusal::Refusal;

// A planner's sums or refusal, and the tables after it.
#[derive(Clone, Copy, PartialEq, Eq)]
struct Answer {
    sums: Result<Sums, Refused>,
    tables: Tables,
}

// What the plain planner answers, how many copies it stored, whether the disks were unequal, and
// whether the proved planner gave the same answer and tables.
#[derive(Clone, Copy)]
pub(crate) struct Compared {
    pub(crate) sums: Result<Sums, Refused>,
    pub(crate) copies: u64,
    pub(crate) is_mixed: bool,
    pub(crate) is_same: bool,
}

impl From<PlanSums> for Sums {
    fn from(sums: PlanSums) -> Sums {
        Sums {
            served: sums.served,
            unserved: sums.unserved,
            left: u64::from(sums.left),
        }
    }
}

// The proved planner's refusal in the documents' numbers.
impl From<Refusal> for Refused {
    fn from(refusal: Refusal) -> Refused {
        Refused(
            refusal::number(refusal),
            u64::from(refusal::second(refusal)),
        )
    }
}

// A disk as one number, as the documents have it: its slots, and from bit 32 on its streams.
// Kept: by bits, apart from the library, so that the answers differ where it exchanges the two.
fn packed(disk: &Disk) -> u64 {
    u64::from(disk.slots) | (u64::from(disk.load) << 32)
}

// What the proved planner answers on the lent parts of the tables.
fn proved_answer(call: &Call) -> Result<Answer, Full> {
    let mut rack = ArrayVec::<u64, MOST_DISKS>::new();
    rack.extend(call.rack.iter().map(packed))?;
    let mut tables = Tables::unused();
    let copies = call.lent.copies.min(tables.copies.len());
    let counts = call.lent.counts.min(tables.counts.len());
    let left = call.lent.left.min(tables.left.len());
    let sums = planner::plan(
        &rack,
        call.list,
        &mut tables.copies[..copies],
        &mut tables.counts[..counts],
        &mut tables.left[..left],
    );
    Ok(Answer {
        sums: sums.map(Sums::from).map_err(Refused::from),
        tables,
    })
}

// What the plain planner answers.
fn plain_answer(plan: &Result<Planned, Refused>) -> Answer {
    match plan {
        Ok(plan) => Answer {
            sums: Ok(plan.sums),
            tables: Tables::with(plan),
        },
        Err(refused) => Answer {
            sums: Err(*refused),
            tables: Tables::unused(),
        },
    }
}

// Whether some disk of a rack is another than the first.
fn is_mixed(rack: &[Disk]) -> bool {
    rack.iter().any(|disk| Some(disk) != rack.first())
}

// Runs both planners on a case.
pub(crate) fn compare(case: &Case) -> Result<Compared, Full> {
    let rack = rack_of(case)?;
    let list = list_of(case)?;
    let call = Call {
        rack: &rack,
        list: &list,
        lent: lengths_of(case, &rack),
    };
    let plain = plan(&call)?;
    let answer = plain_answer(&plain);
    Ok(Compared {
        sums: answer.sums,
        copies: plain.map_or(0, |plan| total(&plan.counts, |count| *count)),
        is_mixed: is_mixed(&rack),
        is_same: proved_answer(&call)? == answer,
    })
}
