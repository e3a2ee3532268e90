// MOVE.L ACCy,Rx. Numbers are raised by 2^52.
ghost use Rattle.std.specs.Prelude.{◌≡◌, ◌-◌, ◌*◌, ◌/◌, ◌%◌, ◌^◌, ◌<◌, ◌≤◌, ◌&&◌, cond, not};
ghost use lib.Dec.{ltb};
ghost use Rattle.manual.specs.Emac.{read_acc};
ghost use Rattle.emac.specs.Parts.{IsRounded, IsClamped};

use super::product::quotient;
use super::sum::value_of;
use manual::Mode;

// A number over M, to the nearest where `rt`: it is raised by 2^52 again.
fn rounded<const M: u64>(rt: bool, r: u64) -> u64
    requires { (2 ^ 52 % (M * 2) ≡ 0) × (M / 2 * 2 ≡ M) × (r < 2 ^ 53) }
    ensures { IsRounded rt M r result }
{
    quotient::<M>(rt, r) + (0x10_0000_0000_0000 - 0x10_0000_0000_0000 / M)
}

// A number as a width that has H numbers below 0, with OMC the nearest of them.
fn clamped<const H: u64>(omc: bool, below: bool, q: u64) -> u32
    requires { (2 ^ 52 % (H * 2) ≡ 0) × (H ≤ 2 ^ 31) }
    ensures { IsClamped omc below H q result }
{
    let out = q < 0x10_0000_0000_0000 - H || q >= 0x10_0000_0000_0000 + H;
    if !(omc && out) {
        (q % (H * 2)) as u32
    } else if below {
        H as u32
    } else {
        (H - 1) as u32
    }
}

// The number of an unsigned integer's pattern, with OMC the nearest of a long.
fn unsigned_read(omc: bool, p: u64) -> u32
    ensures { result ≡ cond (omc && not (ltb p (2 ^ 32))) (2 ^ 32 - 1) (p % 2 ^ 32) }
{
    if omc && p >= 0x1_0000_0000 {
        0xFFFF_FFFF
    } else {
        (p % 0x1_0000_0000) as u32
    }
}

// The long that a pattern is read as, rounded and saturated by the mode.
pub fn mac_read(mode: Mode, a: u64) -> u32
    ensures { result ≡ read_acc mode a }
{
    let r = value_of(mode, a);
    let below = r < 0x10_0000_0000_0000;
    match (mode.fi, mode.su) {
        (true, true) => clamped::<0x8000>(mode.omc, below, rounded::<0x100_0000>(true, r)),
        (true, false) => clamped::<0x8000_0000>(mode.omc, below, rounded::<0x100>(mode.rt, r)),
        (false, true) => unsigned_read(mode.omc, a % 0x1_0000_0000_0000),
        (false, false) => clamped::<0x8000_0000>(mode.omc, below, r),
    }
}
