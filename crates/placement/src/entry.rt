// An entry of the copy table or of the left table as one number: the film in the low 32 bits, viewers or amount in the high 32 bits. In the copy
// table the film has the low 16 bits and the mark the 16 above them.
ghost use Rattle.std.specs.Prelude.{◌≡◌};
ghost use Rattle.placement.specs.Items.{item};
ghost use Rattle.placement.specs.Copies.{unmarked, marked_with};
ghost use Rattle.placement.specs.Tables.{entry_of, item_in, copy_entry, copy_in};

// 2³²: one more than the largest number in the low 32 bits.
// Kept: a number and no struct of halves, since tables of these numbers are C's, and racks those of `plan`.
const HALF: u64 = 4_294_967_296;

// The entry of a film and its viewers or amount.
pub fn entry_of(film: u32, amount: u32) -> u64
    ensures { result ≡ entry_of (item film amount) }
{
    u64::from(amount) * HALF + u64::from(film)
}

// The film of an entry.
pub fn entry_film(entry: u64) -> u32
    ensures { result ≡ (item_in entry).film }
{
    (entry % HALF) as u32
}

// The viewers or the amount of an entry.
pub fn entry_amount(entry: u64) -> u32
    ensures { result ≡ (item_in entry).amount }
{
    (entry / HALF) as u32
}

// 2¹⁶: one more than the largest film in an entry of the copy table, and what mark 1 adds to it.
pub const MARK: u32 = 65_536;

// The film of a copy's entry.
pub fn copy_film(entry: u64) -> u32
    ensures { result ≡ (copy_in entry).film }
{
    entry_film(entry) % MARK
}

// The mark of a copy's entry.
pub fn copy_mark(entry: u64) -> u32
    ensures { result ≡ (copy_in entry).mark }
{
    entry_film(entry) / MARK
}

// The entry of a copy with mark 1 instead of its own mark.
pub fn with_mark(entry: u64) -> u64
    ensures { result ≡ copy_entry (marked_with 1 (unmarked (copy_in entry))) }
{
    entry_of(MARK + copy_film(entry), entry_amount(entry))
}
