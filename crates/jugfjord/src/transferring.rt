// Transfers for C.
ghost use Rattle.std.specs.Prelude.{◌≡◌};
ghost use Rattle.transfer_schedule.specs.TransfersPromise.{CountedPromise};
ghost use Rattle.transfers.specs.Answers.{transfer_numbers};
ghost use Rattle.jugfjord.specs.Numbers.{transferred_fields};

use refusal::Refusal;
use transfers::InRounds;

// `struct jugfjord_transferred` of the header.
// Kept: number and second, since C reads this struct of the header, which has them.
#[repr(C)]
#[derive(Clone, Copy, Debug, PartialEq, Eq, Default)]
pub struct Transferred {
    pub number: u32,
    pub second: u32,
    pub transfers: u32,
    pub rounds: u32,
}

// The numbers of the answer of transfers: those of a refusal, or of a schedule.
impl From<Result<InRounds, Refusal>> for Transferred {
    ghost from_gives = { λ answer made. transferred_fields made ≡ transfer_numbers answer };

    fn from(answer: Result<InRounds, Refusal>) -> Transferred {
        match answer {
            Ok(made) => Transferred {
                transfers: made.transfers,
                rounds: made.rounds,
                ..Transferred::default()
            },
            // Kept: alike in four impls, since C reads four structs with other fields.
            Err(refusal) => Transferred {
                number: refusal::number(refusal),
                second: refusal::second(refusal),
                ..Transferred::default()
            },
        }
    }
}

// `transfers::transfers_counted` with its answer as plain numbers.
pub fn jugfjord_transfers(
    old: &[u8],
    new: &[u8],
    list: &mut [u64],
    counts: &mut [[u32; 9]],
) -> Transferred
    ensures { CountedPromise old.now new.now list.old list.new
        counts.old counts.new (transferred_fields result) }
{
    Transferred::from(transfers::transfers_counted(old, new, list, counts))
}
