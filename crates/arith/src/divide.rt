// Quotients and remainders of longs by longs and by words.
#![tactic(auto, unfolding(manual::specs::Divide::overflow_codes, manual::specs::Divide::quotient, manual::specs::Divide::signed_quotient, manual::specs::Divide::signed_word_quotient, manual::specs::Divide::word_quotient))]

ghost use Rattle.std.specs.Prelude.{◌≡◌, ◌<◌, Some, nat_abs};
ghost use Rattle.manual.specs.Word.{signed};
ghost use Rattle.manual.specs.declared.Size.TheVariants.{Long};
ghost use Rattle.manual.specs.Divide.{quotient as quotient_of, signed_quotient, word_quotient, signed_word_quotient, overflow_codes};

use manual::{Quotient, Size};
use word::flags::codes;
use word::word::{minus, plus, sign_extended};

fn fitting(quotient: u32, remainder: u32) -> Option<Quotient>
    ensures { result ≡ Some (record { quotient = quotient; remainder = remainder }) }
{
    Some(Quotient {
        quotient,
        remainder,
    })
}

// DIVU.L, REMU.L.
pub fn quotient(a: u32, b: u32) -> Option<Quotient>
    ensures { result ≡ quotient_of a b }
{
    if b == 0 {
        return None;
    }
    fitting(a / b, a % b)
}

// How far a signed long is from 0.
fn magnitude(a: u32) -> u32
    ensures { result ≡ nat_abs (signed Long a) }
{
    if a < 0x8000_0000 {
        a
    } else {
        0xFFFF_FFFF - a + 1
    }
}

// The one quotient that does not fit is that of -2^31 by -1.
fn by_magnitudes(a: u32, b: u32) -> Option<Quotient>
    requires { 0 < b }
    ensures { result ≡ signed_quotient a b }
{
    let n = magnitude(a);
    let d = magnitude(b);
    let q = n / d;
    let r = n % d;
    if a < 0x8000_0000 {
        if b < 0x8000_0000 {
            return fitting(q, r);
        }
        return fitting(minus(0, q), r);
    }
    if b < 0x8000_0000 {
        return fitting(minus(0, q), minus(0, r));
    }
    if q < 0x8000_0000 {
        return fitting(q, minus(0, r));
    }
    None
}

// DIVS.L, REMS.L.
pub fn signed_quotient(a: u32, b: u32) -> Option<Quotient>
    ensures { result ≡ signed_quotient a b }
{
    if b == 0 {
        return None;
    }
    by_magnitudes(a, b)
}

// DIVU.W.
pub fn word_quotient(a: u32, b: u32) -> Option<Quotient>
    ensures { result ≡ word_quotient a b }
{
    if b == 0 {
        return None;
    }
    let q = a / b;
    if q < 0x1_0000 {
        return fitting(q, a % b);
    }
    None
}

// DIVS.W: the quotient of longs, where it is a signed word.
pub fn signed_word_quotient(a: u32, b: u32) -> Option<Quotient>
    ensures { result ≡ signed_word_quotient a b }
{
    let long = signed_quotient(a, sign_extended(Size::Word, b))?;
    if plus(long.quotient, 0x8000) < 0x1_0000 {
        return fitting(long.quotient % 0x1_0000, long.remainder % 0x1_0000);
    }
    None
}

// The flags of an overflow: the quotient is too large.
pub fn overflow_codes(sr: u16) -> u32
    ensures { result ≡ overflow_codes sr }
{
    codes(sr / 16 % 2 == 1, sr / 8 % 2 == 1, false, true, false)
}
