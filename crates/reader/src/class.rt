// The classes of bytes.
ghost use Rattle.std.specs.Prelude.{◌≡◌};
ghost use Rattle.plan_text.specs.Parse.{is_digit};
ghost use Rattle.reader.specs.Class.{class_of, foreign};

// What a byte of a text may be.
#[derive(Clone, Copy)]
pub enum Class {
    Digit,
    SmallLetter,
    Bracket,
    Space,
    LineFeed,
    Foreign,
}

// The class of a byte.
#[inline]
pub(crate) fn class_of(byte: u8) -> Class
    ensures { result ≡ class_of byte }
{
    match byte {
        b'0'..=b'9' => Class::Digit,
        b'a'..=b'z' => Class::SmallLetter,
        b'('..=b')' => Class::Bracket,
        b' ' => Class::Space,
        b'\n' => Class::LineFeed,
        _ => Class::Foreign,
    }
}

// Whether a byte is a digit.
// Kept: two tests of the one match, a line each; std's `is_ascii_digit` would be a second match.
#[inline]
pub(crate) fn is_digit(byte: u8) -> bool
    ensures { result ≡ is_digit byte }
{
    matches!(class_of(byte), Class::Digit)
}

// Whether a byte is foreign.
#[inline]
pub(crate) fn is_foreign(byte: u8) -> bool
    ensures { result ≡ foreign (class_of byte) }
{
    matches!(class_of(byte), Class::Foreign)
}
