// The accumulators by number, their physical registers ACCn and ACCextn, and the moves to them.
ghost use Rattle.std.specs.Prelude.{◌≡◌, ◌+◌, ◌*◌, ◌/◌, ◌%◌, ◌^◌, ◌<◌};
ghost use Rattle.manual.specs.Word.{mod_z};
ghost use Rattle.manual.specs.Emac.{acc_of, with_acc, acc_part, ext_part, pattern_of, reinterpreted as reinterpreted_of, set_macsr, loaded_as, set_acc, copy_acc, clear_acc, read_ext, with_ext, set_ext, set_mask};

use super::flags::{fractional, mode_of, pav, with_flags, with_pav};
use manual::{Emac, Mode};

// Accumulator i's pattern, i modulo 4.
#[tactic(auto, unfolding(manual::specs::Emac::acc_of))]
pub fn acc_of(e: Emac, i: u32) -> u64
    ensures { result ≡ acc_of e i }
{
    e.acc[(i % 4) as usize]
}

// The unit with accumulator i and MACSR replaced.
#[tactic(auto, unfolding(manual::specs::Emac::with_acc))]
pub fn with_acc(e: Emac, i: u32, macsr: u32, a: u64) -> Emac
    ensures { result ≡ with_acc i macsr a e }
{
    let mut next = Emac { macsr, ..e };
    next.acc[(i % 4) as usize] = a;
    next
}

// ACCn's 32 bits of a pattern.
pub fn acc_part(fi: bool, a: u64) -> u32
    ensures { result ≡ acc_part fi a }
{
    if fi {
        (a / 0x100 % 0x1_0000_0000) as u32
    } else {
        (a % 0x1_0000_0000) as u32
    }
}

// ACCextn's 16 bits of a pattern.
pub fn ext_part(fi: bool, a: u64) -> u32
    ensures { result ≡ ext_part fi a }
{
    if fi {
        (a / 0x100_0000_0000 % 0x100 * 0x100 + a % 0x100) as u32
    } else {
        (a / 0x1_0000_0000 % 0x1_0000) as u32
    }
}

// The pattern of ACCn's bits and ACCextn's.
pub fn pattern_of(fi: bool, acc: u32, ext: u32) -> u64
    ensures { result ≡ pattern_of fi acc ext }
{
    let low = acc as u64;
    let high = ext as u64;
    if fi {
        high / 0x100 * 0x100_0000_0000 + low * 0x100 + high % 0x100
    } else {
        high * 0x1_0000_0000 + low
    }
}

fn reinterpreted(old: bool, new: bool, a: u64) -> u64
    ensures { result ≡ reinterpreted_of old new a }
{
    pattern_of(new, acc_part(old, a), ext_part(old, a))
}

// The unit with MACSR written; the physical registers stay.
pub fn set_macsr(e: Emac, v: u32) -> Emac
    ensures { result ≡ set_macsr e v }
{
    let n = v % 0x1000;
    let old = fractional(e.macsr);
    let new = fractional(n);
    let acc = e.acc.map(move |a| reinterpreted(old, new, a));
    Emac { macsr: n, acc, ..e }
}

// The pattern of a long, as the mode reads it.
fn loaded(k: Mode, v: u32) -> u64
    ensures { result ≡ mod_z (loaded_as k v) (2 ^ 48) }
{
    let w = v as u64;
    if k.fi {
        if v < 0x8000_0000 {
            w * 0x100
        } else {
            w * 0x100 + 0xFF00_0000_0000
        }
    } else if k.su || v < 0x8000_0000 {
        w
    } else {
        w + 0xFFFF_0000_0000
    }
}

// The unit with a long moved to accumulator i.
#[tactic(auto, unfolding(manual::specs::Emac::set_acc))]
pub fn set_acc(e: Emac, i: u32, v: u32) -> Emac
    ensures { result ≡ set_acc e i v }
{
    let m = e.macsr;
    let k = mode_of(m);
    let a = loaded(k, v);
    with_acc(e, i, with_flags(k, m, i, false, a), a)
}

// The unit with an accumulator copied to another, its PAV too.
#[tactic(auto, unfolding(manual::specs::Emac::copy_acc))]
pub fn copy_acc(e: Emac, from: u32, to: u32) -> Emac
    ensures { result ≡ copy_acc e from to }
{
    let m = e.macsr;
    let a = acc_of(e, from);
    let over = pav(m, from);
    with_acc(e, to, with_flags(mode_of(m), m, to, over, a), a)
}

// The unit with accumulator i and its PAV cleared.
#[tactic(auto, unfolding(manual::specs::Emac::clear_acc))]
pub fn clear_acc(e: Emac, i: u32) -> Emac
    ensures { result ≡ clear_acc e i }
{
    let m = with_pav(e.macsr, i, false);
    with_acc(e, i, m, 0)
}

// ACCext01 or ACCext23 as a long.
pub fn read_ext(fi: bool, e: Emac, i: u32) -> u32
    ensures { result ≡ read_ext fi e i }
{
    let high = ext_part(fi, acc_of(e, i));
    let low = ext_part(fi, acc_of(e, i % 4 + 1));
    ((high as u64) * 0x1_0000 + low as u64) as u32
}

#[tactic(auto, unfolding(manual::specs::Emac::with_ext))]
fn with_ext(fi: bool, e: Emac, i: u32, ext: u32) -> Emac
    ensures { result ≡ with_ext fi i ext e }
{
    let low = acc_part(fi, acc_of(e, i));
    let m = e.macsr;
    with_acc(e, i, m, pattern_of(fi, low, ext))
}

// The unit with ACCext01 or ACCext23 written.
pub fn set_ext(e: Emac, i: u32, v: u32) -> Emac
    ensures { result ≡ set_ext e i v }
{
    let fi = fractional(e.macsr);
    let first = with_ext(fi, e, i, v / 0x1_0000 % 0x1_0000);
    with_ext(fi, first, i % 4 + 1, v % 0x1_0000)
}

// The unit with MASK written, its upper half ones.
#[tactic(auto, unfolding(manual::specs::Emac::set_mask))]
pub fn set_mask(e: Emac, v: u32) -> Emac
    ensures { result ≡ set_mask e v }
{
    Emac {
        mask: 0xFFFF_0000 + v % 0x1_0000,
        ..e
    }
}
