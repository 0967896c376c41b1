// The cursor over a text: bytes that are determined, and numbers.
ghost use Rattle.std.specs.Prelude.{◌≡◌, ◌+◌, ◌*◌, true, false};
ghost use Rattle.std.specs.Prelude.{length, eqb, Some, IfNone};
ghost use Rattle.plan_text.specs.Decimal.{decimal};
ghost use Rattle.plan_text.specs.Parse.{byte, literal, number, digits};
ghost use Rattle.plan_text.specs.Capped.{saturated};
ghost use Rattle.reader.specs.Class.{class_of, foreign, none_foreign};
ghost use Rattle.reader.specs.Cursor.{parse_of};

use crate::class::{is_digit, is_foreign};
use std::marker::Model;

// The bytes of a text that are not read yet. A clone needs no memory, so `clone().ok()?` goes on.
#[derive(Clone, Drop)]
pub struct Cursor<'a> {
    rest: &'a [u8],
}

impl<'a> Model for Cursor<'a> {
    ghost use Rattle.std.specs.Prelude.{ℕ, List};

    ghost Value = { List ℕ };

    ghost view = { λ c. c.rest.now };
}

// The number with one more digit behind, at most 2³² − 1.
#[inline]
fn with_digit(value: u32, digit: u8) -> u32
    ensures { result ≡ saturated (value * 10 + digit) }
{
    let longer = u64::from(value) * 10 + u64::from(digit);
    u32::try_from(longer).unwrap_or(u32::MAX)
}

impl<'a> Cursor<'a> {
    // The cursor before a text.
    pub(crate) fn new(text: &'a [u8]) -> Cursor<'a>
        ensures { result ≡ text.now }
    {
        Cursor { rest: text }
    }

    // Whether all bytes are read.
    pub(crate) fn is_done(&self) -> bool
        ensures { result ≡ eqb (length self.now) 0 }
    {
        self.rest.is_empty()
    }

    // Reads one byte that is determined and not foreign.
    #[inline]
    pub(crate) fn eat(&mut self, expected: u8) -> Option<()>
        requires { foreign (class_of expected) ≡ false }
        ensures read { parse_of result self.new ≡ byte expected self.old }
        ensures unread { IfNone result (self.new ≡ self.old) }
    {
        let (first, after) = self.rest.split_first()?;
        if is_foreign(*first) || *first != expected {
            return None;
        }
        self.rest = after;
        Some(())
    }

    // Reads bytes that are determined and not foreign.
    pub(crate) fn eat_all(&mut self, expected: &[u8]) -> Option<()>
        requires { none_foreign expected.now ≡ true }
        ensures { parse_of result self.new ≡ literal expected.now self.old }
    {
        for b in expected {
            self.eat(*b)?;
        }
        Some(())
    }

    // The number that the digits at the cursor continue, at most 2³² − 1.
    #[inline]
    fn digits(&mut self, first: u32) -> u32
        ensures { parse_of (Some result) self.new ≡ digits saturated first self.old }
    {
        let text = self.rest;
        let mut value = first;
        for (i, b) in text.iter().enumerate() {
            if !is_digit(*b) {
                self.rest = &text[i..];
                return value;
            }
            value = with_digit(value, *b - b'0');
        }
        self.rest = &text[text.len()..];
        value
    }

    // Reads a number; a 0 is a whole number.
    #[inline]
    pub(crate) fn number(&mut self) -> Option<u32>
        ensures { parse_of result self.new ≡ number saturated self.old }
    {
        let (first, after) = self.rest.split_first()?;
        if !is_digit(*first) {
            return None;
        }
        self.rest = after;
        if *first == b'0' {
            return Some(0);
        }
        Some(self.digits(u32::from(*first - b'0')))
    }

    // Reads the digits of a number that is determined.
    #[tactic(auto, using(crate::proofs::Bytes::literal_digit, crate::proofs::Bytes::literal_digits))]
    pub(crate) fn eat_number(&mut self, n: u64) -> Option<()>
        ensures { parse_of result self.new ≡ literal (decimal n) self.old }
    {
        if n < 10 {
            return self.eat(b'0' + (n as u8));
        }
        self.eat_number(n / 10)?;
        self.eat(b'0' + ((n % 10) as u8))
    }
}
