// MAC and MSAC: a product is added to an accumulator's number or taken from it. Numbers are raised by 2^52.
ghost use Rattle.std.specs.Prelude.{◌≡◌, ◌+◌, ◌-◌, ◌^◌, ◌<◌, ◌≤◌, ◌&&◌, false};
ghost use Rattle.manual.specs.Word.{mod_z};
ghost use Rattle.manual.specs.Emac.{mode_of, pav as pav_of, value_of, limit as limit_of, emac_of, accumulate as accumulate_of};
ghost use Rattle.emac.specs.Products.{raised};
ghost use Rattle.emac.specs.Sums.{IsSum, IsOutside, IsStored, IsWithSum, IsSummed};

use super::accumulators::{acc_of, with_acc};
use super::flags::{mode_of, pav, unsigned, with_flags};
use super::product::scaled_product;
use manual::{Emac, Mode};

// The number that a pattern's 48 bits stand for in a mode, raised by 2^52.
pub fn value_of(k: Mode, a: u64) -> u64
    ensures { (result ≡ raised (2 ^ 52) (value_of k a)) × (2 ^ 52 - 2 ^ 47 ≤ result) × (result < 2 ^ 52 + 2 ^ 48) }
{
    let p = a % 0x1_0000_0000_0000;
    if unsigned(k) || p < 0x8000_0000_0000 {
        p + 0x10_0000_0000_0000
    } else {
        p + 0xF_0000_0000_0000
    }
}

// The sum or difference.
fn sum(sub: bool, c: u64, v: u64) -> u64
    requires { (2 ^ 52 ≤ c + v) × (v ≤ c + 2 ^ 52) × (c ≤ 2 ^ 53) × (v ≤ 2 ^ 53) }
    ensures { IsSum sub c v result }
{
    if sub {
        c + 0x10_0000_0000_0000 - v
    } else {
        c + v - 0x10_0000_0000_0000
    }
}

fn outside(k: Mode, s: u64) -> bool
    ensures { IsOutside k s result }
{
    if unsigned(k) {
        s < 0x10_0000_0000_0000 || s >= 0x11_0000_0000_0000
    } else {
        s < 0xF_8000_0000_0000 || s >= 0x10_8000_0000_0000
    }
}

// The pattern of the largest and smallest number of ACCn.
fn limit(k: Mode, below: bool) -> u64
    ensures { result ≡ mod_z (limit_of k below) (2 ^ 48) }
{
    match (k.fi, k.su, below) {
        (true, _, true) => 0xFF80_0000_0000,
        (true, _, false) => 0x7F_FFFF_FF00,
        (false, true, true) => 0,
        (false, true, false) => 0xFFFF_FFFF_FFFF,
        (false, false, true) => 0xFFFF_8000_0000,
        (false, false, false) => 0x7FFF_FFFF,
    }
}

// The pattern that is stored of a sum.
fn stored(k: Mode, out: bool, s: u64) -> u64
    ensures { IsStored k out s result }
{
    if out && k.omc {
        limit(k, s < 0x10_0000_0000_0000)
    } else {
        s % 0x1_0000_0000_0000
    }
}

// MACSR and an accumulator's pattern after a sum.
#[derive(Clone, Copy)]
struct AfterSum {
    macsr: u32,
    acc: u64,
}

fn with_sum(k: Mode, m: u32, i: u32, over: bool, s: u64) -> AfterSum
    ensures { IsWithSum k m i over s result }
{
    let out = over || outside(k, s);
    let acc = stored(k, out, s);
    let macsr = with_flags(k, m, i, out || pav(m, i), acc);
    AfterSum { macsr, acc }
}

// What is added to an accumulator's number or, where `sub`, taken from it: x times y, scaled.
#[derive(Clone, Copy)]
struct Term {
    scale: u32,
    sub: bool,
    x: u32,
    y: u32,
}

// The sum of accumulator i, whose pattern is a, and a term, where nothing holds the accumulator at its limit. It stands in each
// caller, so that a mode that is written out there folds: a dot product takes an eighth more instructions without that.
#[inline(always)]
fn summed_in(k: Mode, m: u32, a: u64, i: u32, t: Term) -> AfterSum
    requires { (k ≡ mode_of m) × ((k.omc && pav_of m i) ≡ false) }
    ensures { IsSummed m a i t.scale t.sub t.x t.y result }
{
    let p = scaled_product(k, t.scale, t.x, t.y);
    let c = value_of(k, a);
    with_sum(k, m, i, p.over, sum(t.sub, c, p.value))
}

// The sum in any mode.
fn summed(m: u32, a: u64, i: u32, t: Term) -> AfterSum
    ensures { IsSummed m a i t.scale t.sub t.x t.y result }
{
    let k = mode_of(m);
    if k.omc && pav(m, i) {
        return AfterSum { macsr: m, acc: a };
    }
    summed_in(k, m, a, i, t)
}

// The same, with the modes that neither round nor saturate written out for the compiler: fractions, and integers.
fn summed_plainly(m: u32, a: u64, i: u32, t: Term) -> AfterSum
    ensures { IsSummed m a i t.scale t.sub t.x t.y result }
{
    let k = mode_of(m);
    if k.omc || k.rt {
        return summed(m, a, i, t);
    }
    let plain = Mode {
        rt: false,
        omc: false,
        ..k
    };
    if k.fi {
        summed_in(Mode { fi: true, ..plain }, m, a, i, t)
    } else {
        summed_in(Mode { fi: false, ..plain }, m, a, i, t)
    }
}

// MAC, and MSAC where `sub`, of a unit in parts: x times y, scaled, to accumulator i, in place. MACSR after it. The modes that
// neither round nor saturate come first. The parameters are those of `Emac.accumulate`, one by one; MASK stays, and is one for the
// contract's sake.
pub fn accumulate_plainly(
    macsr: u32,
    mask: u32,
    acc: &mut [u64; 4],
    i: u32,
    scale: u32,
    sub: bool,
    x: u32,
    y: u32,
) -> u32
    ensures { emac_of result mask acc.new ≡ accumulate_of (emac_of macsr mask acc.old) i scale sub x y }
{
    let a = &mut acc[(i % 4) as usize];
    let s = summed_plainly(macsr, *a, i, Term { scale, sub, x, y });
    *a = s.acc;
    s.macsr
}

// The same of a whole unit, in any mode alike: `accumulate_plainly` has one caller, so that a compiler puts it there.
pub fn accumulate(e: Emac, i: u32, scale: u32, sub: bool, x: u32, y: u32) -> Emac
    ensures { result ≡ accumulate_of e i scale sub x y }
{
    let s = summed(e.macsr, acc_of(e, i), i, Term { scale, sub, x, y });
    with_acc(e, i, s.macsr, s.acc)
}
