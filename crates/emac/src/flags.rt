// MACSR: the mode, PAVn, and the flags that an accumulator sets.
ghost use Rattle.std.specs.Prelude.{◌≡◌, ◌+◌, ◌*◌, ◌^◌, ◌<◌, ◌≤◌, ◌==◌, nat_le};
ghost use Rattle.manual.specs.Word.{bit as bit_of};
ghost use Rattle.manual.specs.Emac.{fractional as fractional_of, mode_of, unsigned as unsigned_of, pav as pav_of, with_pav, extension_in_use, with_flags as with_flags_of};

use manual::Mode;
use word::bits::with_bit;
use word::flags::bit;

// Whether FI of MACSR is set.
pub fn fractional(macsr: u32) -> bool
    ensures { result ≡ fractional_of macsr }
{
    macsr / 0x20 % 2 == 1
}

// FI, SU, RT and OMC of MACSR.
#[tactic(auto, unfolding(manual::specs::Emac::mode_of))]
pub fn mode_of(macsr: u32) -> Mode
    ensures { result ≡ mode_of macsr }
{
    Mode {
        fi: fractional(macsr),
        su: macsr / 0x40 % 2 == 1,
        rt: macsr / 0x10 % 2 == 1,
        omc: macsr / 0x80 % 2 == 1,
    }
}

// PAVn of MACSR.
pub fn pav(macsr: u32, i: u32) -> bool
    ensures { result ≡ pav_of macsr i }
{
    (macsr >> (8 + i % 4)) % 2 == 1
}

// MACSR with PAVn as told.
pub fn with_pav(macsr: u32, i: u32, b: bool) -> u32
    ensures { result ≡ with_pav macsr i b }
{
    with_bit(8 + i % 4, b, macsr)
}

// Whether the numbers of a mode are unsigned integers.
pub(crate) fn unsigned(k: Mode) -> bool
    ensures { result ≡ unsigned_of k }
{
    !k.fi && k.su
}

fn extension_in_use(k: Mode, a: u64) -> bool
    ensures { result ≡ extension_in_use k a }
{
    if k.fi {
        (0x80_0000_0000..0xFF80_0000_0000).contains(&a)
    } else if k.su {
        a >= 0x1_0000_0000
    } else {
        (0x8000_0000..0xFFFF_8000_0000).contains(&a)
    }
}

// EV, V, Z and N.
fn low_flags(k: Mode, over: bool, a: u64) -> u32
    ensures { (result ≡ bit_of (extension_in_use k a) + bit_of over * 2 + bit_of (a == 0) * 4 + bit_of (nat_le (2 ^ 47) a) * 8) × (result < 16) }
{
    let ev = extension_in_use(k, a);
    bit(ev) + bit(over) * 2 + bit(a == 0) * 4 + bit(a >= 0x8000_0000_0000) * 8
}

// MACSR after accumulator i was given a pattern.
pub fn with_flags(k: Mode, macsr: u32, i: u32, over: bool, a: u64) -> u32
    ensures { result ≡ with_flags_of k macsr i over a }
{
    with_pav(macsr / 16 * 16, i, over) + low_flags(k, over, a)
}
