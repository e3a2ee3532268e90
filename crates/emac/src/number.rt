// An accumulator's number in the state block: 64 bits of two's complement.
ghost use Rattle.std.specs.Prelude.{◌≡◌};
ghost use Rattle.manual.specs.Emac.{block_number, block_in_range};

use super::flags::unsigned;
use manual::Mode;

// The number that a pattern stands for in a mode, in 64 bits of two's complement.
pub fn block_number(k: Mode, a: u64) -> u64
    ensures { result ≡ block_number k a }
{
    let p = a % 0x1_0000_0000_0000;
    if unsigned(k) || p < 0x8000_0000_0000 {
        p
    } else {
        p + 0xFFFF_0000_0000_0000
    }
}

// Whether 64 bits are an accumulator's number in a mode.
pub fn block_in_range(k: Mode, b: u64) -> bool
    ensures { result ≡ block_in_range k b }
{
    if unsigned(k) {
        b < 0x1_0000_0000_0000
    } else {
        b < 0x8000_0000_0000 || b >= 0xFFFF_8000_0000_0000
    }
}
