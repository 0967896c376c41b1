// How much of an input of any length has to be kept.
ghost use Rattle.std.specs.Prelude.{◌+◌, ◌<◌, ◌≡◌};
ghost use Rattle.plan_output.specs.Input.{kept};
ghost use Rattle.plan_output.specs.KeepPromise.{KeepPromise};

// The three numbers, 1,025 records and 7 bytes more: an input of this length or less is kept whole.
pub const MOST_KEPT: usize = 8_219;

// How many bytes stand for an input of `before` bytes and `more` further ones. Of a long input they are the three numbers, 1,025
// records and as many odd bytes as the whole has.
pub fn keep(before: usize, more: usize) -> usize
    ensures { KeepPromise before more result }
{
    match before.checked_add(more) {
        Some(whole) if whole <= MOST_KEPT => whole,
        _ => long(before, more),
    }
}

// The kept length where the two have more than MOST_KEPT bytes together.
fn long(before: usize, more: usize) -> usize
    requires { 8219 < before + more }
    ensures { result ≡ kept (before + more) }
{
    8_212 + (before % 8 + more % 8 + 4) % 8
}
