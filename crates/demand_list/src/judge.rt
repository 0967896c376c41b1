// The list's refusals: 2 and 3 from its shape, then 4, 16, 5 and 6 record by record.
ghost use Rattle.std.specs.Prelude.{◌≡◌};
ghost use Rattle.refusal.specs.Verdict.{given};
ghost use Rattle.refusal.specs.Numbers.{verdict_of};
ghost use Rattle.placement.specs.Records.{shape_judged, list_judged};

use crate::records::judge_records;
use placement::MOST_RECORDS;
use refusal::Refusal;

// Whether the bytes are whole records, and not too many.
pub fn judge_shape(list: &[u8]) -> Result<(), Refusal>
    ensures { verdict_of result ≡ shape_judged list.now (given tt) }
{
    if list.len() % 8 != 0 {
        return Err(Refusal::ListLength);
    }
    if MOST_RECORDS < list.len() / 8 {
        return Err(Refusal::TooManyRecords);
    }
    Ok(())
}

// The first refusal of a list that applies: of its shape, then record by record.
pub fn judge_list(list: &[u8]) -> Result<(), Refusal>
    ensures { verdict_of result ≡ list_judged list.now (given tt) }
{
    judge_shape(list)?;
    judge_records(list)
}
