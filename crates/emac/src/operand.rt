// A word operand: the half of a register, as the long that it stands for.
ghost use Rattle.std.specs.Prelude.{◌≡◌, ◌^◌, ◌<◌};
ghost use Rattle.manual.specs.Emac.{half_of, word_operand};

use manual::{Mode, Size};
use word::word::sign_extended;

fn half_of(upper: bool, v: u32) -> u32
    ensures { (result ≡ half_of upper v) × (result < 2 ^ 16) }
{
    if upper {
        v / 0x1_0000 % 0x1_0000
    } else {
        v % 0x1_0000
    }
}

// The upper or the lower half of a register's v, placed or extended by the mode.
#[tactic(auto, unfolding(manual::specs::Emac::word_operand))]
pub fn mac_word(k: Mode, upper: bool, v: u32) -> u32
    ensures { result ≡ word_operand k upper v }
{
    let h = half_of(upper, v);
    if k.fi {
        h * 0x1_0000
    } else if k.su {
        h
    } else {
        sign_extended(Size::Word, h)
    }
}
