// The condition codes, and the sums and differences that set them.
#![tactic(auto, unfolding(manual::specs::Flags::added, manual::specs::Flags::codes, manual::specs::Flags::compare_codes, manual::specs::Flags::extended_codes, manual::specs::Flags::kept_codes, manual::specs::Flags::move_codes, manual::specs::Flags::subtracted, manual::specs::Flags::sum_codes, manual::specs::Flags::sum_or_difference, manual::specs::Flags::test_codes))]

ghost use Rattle.std.specs.Prelude.{◌≡◌, ◌+◌, ◌*◌, ◌%◌, ◌^◌, ◌<◌, ◌≤◌, ◌&&◌, ◌||◌};
ghost use Rattle.std.specs.Bool.{beq};
ghost use Rattle.manual.specs.Word.{bit as bit_of};
ghost use Rattle.manual.specs.Flags.{codes as codes_of, kept_codes, move_codes, added as added_of, subtracted as subtracted_of, sum_or_difference, sum_codes, compare_codes, extended_codes, test_codes};

use super::bits::with_bit;
use super::word::{cut, half, numbers};
use manual::{Size, Sum};

// 1 for true, 0 for false.
pub fn bit(b: bool) -> u32
    ensures { result ≡ bit_of b }
{
    b as u32
}

// A flag of a weight.
fn weighed(b: bool, w: u32) -> u32
    ensures { (result ≡ bit_of b * w) × (result ≤ w) }
{
    if b { w } else { 0 }
}

// The five flags as the low bits of the status register.
pub fn codes(x: bool, n: bool, z: bool, v: bool, c: bool) -> u32
    ensures { result ≡ codes_of x n z v c }
{
    weighed(x, 16) + weighed(n, 8) + weighed(z, 4) + weighed(v, 2) + bit(c)
}

// The flags as they are.
pub fn kept_codes(sr: u16) -> u32
    ensures { result ≡ kept_codes sr }
{
    (sr % 32) as u32
}

// The flags of a value that is moved: N and Z of it, V and C clear, X kept.
pub fn move_codes(z: Size, v: u32, sr: u16) -> u32
    ensures { result ≡ move_codes z v sr }
{
    let low = cut(z, v) as u64;
    codes(sr / 16 % 2 == 1, half(z) <= low, low == 0, false, false)
}

fn wrapped(total: u64, n: u64) -> u64
    requires { (total < n + n) × (n ≤ 2 ^ 32) }
    ensures { (result ≡ total % n) × (result < n) }
{
    if n <= total { total - n } else { total }
}

// V is told by the sign bits: two of one sign have a sum of the other.
fn added(z: Size, s: u32, d: u32, x: bool) -> Sum
    ensures { result ≡ added_of z s d x }
{
    let n = numbers(z);
    let h = half(z);
    let a = cut(z, s) as u64;
    let b = cut(z, d) as u64;
    let total = a + b + bit(x) as u64;
    let value = wrapped(total, n);
    let signs = (h <= a) == (h <= b);
    let turned = (h <= value) == (h <= b);
    Sum {
        value: value as u32,
        negative: h <= value,
        zero: value == 0,
        overflow: signs & !turned,
        carry: n <= total,
    }
}

// The difference d - s - x of a size, with its N, Z, V and C.
// V is told by the sign bits: the signs differ, and the difference does not have the minuend's.
pub fn subtracted(z: Size, s: u32, d: u32, x: bool) -> Sum
    ensures { result ≡ subtracted_of z s d x }
{
    let n = numbers(z);
    let h = half(z);
    let a = cut(z, s) as u64;
    let b = cut(z, d) as u64;
    let taken = a + bit(x) as u64;
    let value = wrapped(b + n - taken, n);
    let signs = (h <= a) == (h <= b);
    let turned = (h <= value) == (h <= b);
    Sum {
        value: value as u32,
        negative: h <= value,
        zero: value == 0,
        overflow: !signs & !turned,
        carry: b < taken,
    }
}

// The sum or the difference of a size, with its N, Z, V and C.
pub fn sum_or_difference(add: bool, z: Size, s: u32, d: u32, x: bool) -> Sum
    ensures { result ≡ sum_or_difference add z s d x }
{
    if add {
        added(z, s, d, x)
    } else {
        subtracted(z, s, d, x)
    }
}

// The flags of a sum or a difference, X as C.
pub fn sum_codes(r: Sum) -> u32
    ensures { result ≡ sum_codes r }
{
    codes(r.carry, r.negative, r.zero, r.overflow, r.carry)
}

// The flags of a comparison: X is kept.
pub fn compare_codes(sr: u16, r: Sum) -> u32
    ensures { result ≡ compare_codes sr r }
{
    codes(sr / 16 % 2 == 1, r.negative, r.zero, r.overflow, r.carry)
}

// The flags of ADDX, SUBX and NEGX: Z is cleared or kept, never set.
pub fn extended_codes(sr: u16, r: Sum) -> u32
    ensures { result ≡ extended_codes sr r }
{
    let zero = r.zero & (sr / 4 % 2 == 1);
    codes(r.carry, r.negative, zero, r.overflow, r.carry)
}

// The flags of a bit test: Z alone changes.
pub fn test_codes(sr: u16, clear: bool) -> u32
    ensures { result ≡ test_codes sr clear }
{
    with_bit(2, clear, kept_codes(sr))
}
