// What takes the bytes of a text, one after the other: a lent space, or a count of them.
ghost use Rattle.std.specs.Prelude.{◌≡◌, ℕ, ◌+◌, ◌<◌, ◌^◌, List, [], ◌∷◌, ◌++◌, length};
ghost use Rattle.plan_text.specs.Decimal.{decimal};
ghost use Rattle.writer.specs.Space.{Put};

// How many digits a number has.
#[tactic(auto, using(crate::proofs::Digits::length_zero, crate::proofs::Digits::length_decimal))]
fn digits(number: u64) -> usize
    ensures { result ≡ length (decimal number) }
{
    number
        .checked_ilog10()
        .map_or(1, |power| power as usize + 1)
}

// Stores one byte and answers the next place.
fn put_byte(out: &mut [u8], at: usize, byte: u8) -> usize
    ensures { Put at (byte ∷ []) out.old out.new result }
{
    if at < out.len() {
        out[at] = byte;
    }
    at.wrapping_add(1)
}

// Stores a number in decimal: the digits of its tenth, then its last digit.
// Kept: as a method over the sink it has the same lines, no plainer, and took 1.2 times as long.
fn put_digits(out: &mut [u8], at: usize, number: u64) -> usize
    ensures { Put at (decimal number) out.old out.new result }
{
    if number < 10 {
        return put_byte(out, at, b'0' + number as u8);
    }
    let next = put_digits(out, at, number / 10);
    put_byte(out, next, b'0' + (number % 10) as u8)
}

// What takes the bytes of a text.
pub(crate) trait Sink {
    // The second value is the first with these bytes behind it.
    ghost takes: { Self → List ℕ → Self → Type 0 };

    fn put_byte(&mut self, byte: u8)
        ensures { takes self.old (byte ∷ []) self.new };

    // In decimal.
    fn put_number(&mut self, number: u64)
        ensures { takes self.old (decimal number) self.new };

    ghost none: { (s : Self) → takes s [] s };

    // Two runs, one behind the other, are one run.
    ghost more: { (s t u : Self) (xs ys : List ℕ) → takes s xs t → takes t ys u → takes s (xs ++ ys) u };
}

// How many bytes a text has.
#[derive(Drop)]
pub(crate) struct Count {
    pub(crate) bytes: usize,
}

impl Sink for Count {
    ghost takes = { λ s xs t. s.bytes + length xs < 2 ^ 64 → t.bytes ≡ s.bytes + length xs };

    fn put_byte(&mut self, _byte: u8) {
        self.bytes = self.bytes.wrapping_add(1);
    }

    fn put_number(&mut self, number: u64) {
        self.bytes = self.bytes.wrapping_add(digits(number));
    }

    ghost use Rattle.std.proofs.Common.{arith, length-append};

    ghost none = { λ s h. Prim.grind arith };

    ghost more = { λ s t u xs ys p q h. Prim.grind (arith, length-append xs ys) };
}

// A lent space and the next place in it. Bytes past its end are dropped.
#[derive(Drop)]
pub(crate) struct Space<'a> {
    pub(crate) out: &'a mut [u8],
    pub(crate) at: usize,
}

impl<'a> Sink for Space<'a> {
    ghost takes = { λ s xs t. (t.out.ghost_name ≡ s.out.ghost_name) × Put s.at xs s.out.now t.out.now t.at };

    fn put_byte(&mut self, byte: u8) {
        self.at = put_byte(self.out, self.at, byte);
    }

    fn put_number(&mut self, number: u64) {
        self.at = put_digits(self.out, self.at, number);
    }

    ghost use Rattle.std.proofs.Common.{refl, ◌∙◌};
    ghost use Rattle.writer.specs.SpaceLaws.{put_none, put_then};

    ghost none = { λ s. (refl, put_none s.at s.out.now) };

    ghost more = { λ s t u xs ys p q. (q.0 ∙ p.0, put_then p.1 q.1) };
}
