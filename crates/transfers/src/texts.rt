// The two texts: read one after the other into tables of our own, and their racks compared.
ghost use Rattle.std.specs.Prelude.{◌≡◌, true, length};
ghost use Rattle.refusal.specs.Verdict.{given};
ghost use Rattle.placement.specs.Rack.{rack_accepted};
ghost use Rattle.placement.specs.Packed.{disks_in};
ghost use Rattle.placement.specs.Held.{marked_from};
ghost use Rattle.plan_text.specs.ReadCall.{text_verdict};
ghost use Rattle.transfer_schedule.specs.Stored.{stored_from};
ghost use Rattle.transfer_schedule.specs.Fits.{most_transfers};
ghost use Rattle.transfer_schedule.specs.Transfers.{racks_judged, texts_verdict};
ghost use Rattle.transfers.specs.Keys.{TablesFit, KeysHold, StoredText, StoredTexts};
ghost use Rattle.refusal.specs.Numbers.{verdict_of};

use crate::MOST_TRANSFERS;
use crate::stored::put_disks;
use placement::PlanTables;
use refusal::Refusal;

// The most disks of a rack whose transfers are found.
const MOST_TRANSFER_DISKS: usize = 8;

// Puts the keys of a plan's stored copies in front, and answers how many disks it has and how many
// copies; 0 where the disks are more than 8.
fn stored_copies(rack: &[u64], copies: &[u64], counts: &[u32], keys: &mut [u64]) -> (usize, usize)
    requires tables_fit { TablesFit (disks_in rack.now) copies.now counts.now }
    requires rack_value { rack_accepted (disks_in rack.now) ≡ true }
    requires keys_len { length keys.old ≡ most_transfers }
    ensures { KeysHold (length rack.now) (stored_from 1 (marked_from (disks_in rack.now) copies.now counts.now))
        keys.new (given result) }
{
    let disks = rack.len();
    if disks > MOST_TRANSFER_DISKS {
        return (disks, 0);
    }
    let stored = put_disks(rack, copies, counts, keys);
    (disks, stored)
}

// Reads a text: its plan's rack stays in front, and its stored copies are put into keys.
fn read_stored(
    text: &[u8],
    rack: &mut [u64; 64],
    keys: &mut [u64; MOST_TRANSFERS],
) -> Result<(usize, usize), Refusal>
    ensures { StoredText (text_verdict text.now) rack.new keys.new (verdict_of result) }
{
    let mut own = PlanTables::new();
    let plan = reader::read(text, rack, &mut own.copies, &mut own.counts, &mut own.left)?;
    Ok(stored_copies(&rack[..plan.disks as usize], &own.copies, &own.counts, keys))
}

// Judges two racks: 14, then 15. Equal racks have equal first lines and others have not.
fn judge_racks(old: &[u64], new: &[u64]) -> Result<(), Refusal>
    requires { (rack_accepted (disks_in old.now) ≡ true)
        × (rack_accepted (disks_in new.now) ≡ true) }
    ensures { verdict_of result ≡ racks_judged (disks_in old.now) (disks_in new.now) (given tt) }
{
    if old.len() > MOST_TRANSFER_DISKS {
        return Err(Refusal::TooManyDisks);
    }
    if new.len() > MOST_TRANSFER_DISKS {
        return Err(Refusal::TooManyDisks);
    }
    if old != new {
        return Err(Refusal::FirstLinesDiffer);
    }
    Ok(())
}

// Reads both texts, and puts the stored copies of each into keys: the old one's refusals, then the
// new one's, then 14 and 15.
pub(crate) fn read_texts(
    old: &[u8],
    new: &[u8],
    oldkeys: &mut [u64; MOST_TRANSFERS],
    newkeys: &mut [u64; MOST_TRANSFERS],
) -> Result<(usize, usize), Refusal>
    ensures { StoredTexts (texts_verdict old.now new.now) oldkeys.new newkeys.new (verdict_of result) }
{
    let mut oldrack = [0u64; 64];
    let mut newrack = [0u64; 64];
    let (old_disks, old_copies) = read_stored(old, &mut oldrack, oldkeys)?;
    let (new_disks, new_copies) = read_stored(new, &mut newrack, newkeys)?;
    judge_racks(&oldrack[..old_disks], &newrack[..new_disks])?;
    Ok((old_copies, new_copies))
}
