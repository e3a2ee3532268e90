// Single bits.
#![tactic(auto, unfolding(manual::specs::Bits::changed_bit))]

ghost use Rattle.std.specs.Prelude.{◌≡◌, ◌%◌};
ghost use Rattle.manual.specs.Bits.{changed_bit};

use word::bits::{bit_of, with_bit};

pub(crate) fn changed_bit(kind: u32, n: u32, v: u32) -> u32
    ensures { result ≡ changed_bit (kind % 4) (n % 32) v }
{
    match kind % 4 {
        0 => v,
        1 => with_bit(n, !bit_of(n, v), v),
        2 => with_bit(n, false, v),
        _ => with_bit(n, true, v),
    }
}
