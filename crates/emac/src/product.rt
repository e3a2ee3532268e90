// The product of two longs, and the scale factor. A signed number z is computed as z + 2^52, which is not negative. With OMC a
// product that overflows becomes one that is beyond any accumulator, so that the sum is out of range on its side.
ghost use Rattle.std.specs.Prelude.{◌≡◌, ◌+◌, ◌-◌, ◌*◌, ◌/◌, ◌%◌, ◌^◌, ◌<◌, ◌≤◌, true, false, not, ◌*ℤ◌, nat_lt};
ghost use Rattle.manual.specs.declared.Size.TheVariants.{Long};
ghost use Rattle.manual.specs.Word.{signed, in_half};
ghost use Rattle.manual.specs.Emac.{rounds_up, product_over, scale_of};
ghost use Rattle.word.specs.RaisedLaws.{Up};
ghost use Rattle.emac.specs.Products.{fraction as fraction_of, signed_product, unsigned_product, far_product, rounded_quotient, raised_product, IsNumber, IsScaled};

use manual::Mode;
use word::word::plus;

// A number raised by 2^52, and whether it overflowed: a sum takes both, for without OMC what is left of an overflow is added.
#[derive(Clone, Copy)]
pub struct Raised {
    pub value: u64,
    pub over: bool,
}

// Whether what is left over below a quotient rounds it up; `half` is half of the divisor.
pub fn rounds_up(half: u64, rest: u64, quotient: u64) -> bool
    ensures { result ≡ rounds_up (half * 2) rest (quotient % 2) }
{
    rest > half || rest == half && quotient % 2 == 1
}

// A number over M, to the nearest where `rt`, and else rounded down.
pub(crate) fn quotient<const M: u64>(rt: bool, r: u64) -> u64
    requires { (0 < M) × (M / 2 * 2 ≡ M) }
    ensures { result ≡ rounded_quotient rt M r }
{
    let q = r / M;
    if rt && rounds_up(M / 2, r % M, q) {
        q + 1
    } else {
        q
    }
}

// A signed long, raised by 2^31.
#[tactic(auto, unfolding(manual::specs::Word::plus))]
fn raised_long(x: u32) -> u64
    ensures { (result ≡ (x + 2 ^ 31) % 2 ^ 32) × (result < 2 ^ 32) }
{
    plus(x, 0x8000_0000) as u64
}

#[tactic(auto, using(crate::specs::ProductLaws::times32))]
fn mul32(a: u64, b: u64) -> u64
    requires { (a < 2 ^ 32) × (b < 2 ^ 32) }
    ensures { result ≡ a * b }
{
    a * b
}

// The signed product, raised by 2^62, of the raised numbers and with no branch: (a - h)(b - h) + h * h = a * b + 2 * h * h - (a + b) * h, modulo 2^64.
fn product(x: u32, y: u32) -> u64
    ensures { Up (2 ^ 62) (signed Long x *ℤ signed Long y) result × (result ≤ 2 ^ 63) }
{
    let a = raised_long(x);
    let b = raised_long(y);
    let m = mul32(a, b);
    m.wrapping_sub((a + b) * 0x8000_0000)
        .wrapping_add(0x8000_0000_0000_0000)
}

// The product as a fraction, over 2^23.
fn fractional_product(rt: bool, x: u32, y: u32) -> Raised
    ensures { IsNumber (fraction_of rt (signed Long x *ℤ signed Long y)) false result }
{
    let f = quotient::<0x80_0000>(rt, product(x, y));
    Raised {
        value: f + 0xF_FF80_0000_0000,
        over: false,
    }
}

fn unsigned_product(omc: bool, x: u32, y: u32) -> Raised
    ensures { IsNumber (unsigned_product omc (x * y)) (not (nat_lt (x * y) (2 ^ 40))) result }
{
    let n = mul32(x as u64, y as u64);
    let over = n >= 0x100_0000_0000;
    let value = if over && omc {
        0x14_0000_0000_0000
    } else {
        0x10_0000_0000_0000 + n % 0x100_0000_0000
    };
    Raised { value, over }
}

fn signed_product(omc: bool, x: u32, y: u32) -> Raised
    ensures { IsNumber (signed_product omc (signed Long x *ℤ signed Long y)) (not (in_half (2 ^ 39) (signed Long x *ℤ signed Long y))) result }
{
    let p = product(x, y);
    let over = p < 0x3FFF_FF80_0000_0000 || p >= 0x4000_0080_0000_0000;
    let value = if !(over && omc) {
        (p + 0x80_0000_0000) % 0x100_0000_0000 + 0xF_FF80_0000_0000
    } else if p < 0x4000_0000_0000_0000 {
        0xB_FFFF_FFFF_FFFF
    } else {
        0x14_0000_0000_0000
    };
    Raised { value, over }
}

fn mac_product(k: Mode, x: u32, y: u32) -> Raised
    ensures { IsNumber (far_product k x y) (product_over k x y) result }
{
    if k.fi {
        fractional_product(k.rt, x, y)
    } else if k.su {
        unsigned_product(k.omc, x, y)
    } else {
        signed_product(k.omc, x, y)
    }
}

// The scale factor is one of integers alone.
fn scale_of(k: Mode, s: u32) -> u32
    ensures { result ≡ scale_of k s }
{
    if k.fi { 0 } else { s }
}

fn scaled(s: u32, v: u64) -> u64
    requires { (2 ^ 52 - 2 ^ 50 - 1 ≤ v) × (v ≤ 2 ^ 52 + 2 ^ 50) }
    ensures { IsScaled s v result }
{
    match s {
        1 => v + v - 0x10_0000_0000_0000,
        3 => (v + 0x10_0000_0000_0000) / 2,
        _ => v,
    }
}

// The product as an accumulator takes it in a mode: scaled, raised by 2^52, and whether it overflows.
pub fn scaled_product(k: Mode, scale: u32, x: u32, y: u32) -> Raised
    ensures { (result ≡ raised_product k scale x y) × (2 ^ 51 - 2 ≤ result.value) × (result.value ≤ 2 ^ 52 + 2 ^ 51) }
{
    let p = mac_product(k, x, y);
    Raised {
        value: scaled(scale_of(k, scale), p.value),
        ..p
    }
}
