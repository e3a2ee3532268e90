// AND, OR, EOR, single bits, and the order of bits and bytes.
#![tactic(auto, unfolding(crate::specs::SwapLaws::low_fields, crate::specs::SwapLaws::swapped, manual::specs::Bits::logic, manual::specs::Bits::reversed_bits, manual::specs::Bits::reversed_bytes, manual::specs::Bits::with_bit))]

ghost use Rattle.std.specs.Prelude.{◌≡◌, ◌%◌};
ghost use Rattle.manual.specs.Bits.{logic as logic_of, bit_of, with_bit, reversed_bits, reversed_bytes};

use super::flags::bit;
use manual::Logic;

// AND, OR or EOR of two longs.
pub fn logic(l: Logic, a: u32, b: u32) -> u32
    ensures { result ≡ logic_of l a b }
{
    match l {
        Logic::And => a & b,
        Logic::Or => a | b,
        Logic::Eor => a ^ b,
    }
}

// Bit n modulo 32.
pub fn bit_of(n: u32, v: u32) -> bool
    ensures { result ≡ bit_of (n % 32) v }
{
    (v >> (n % 32)) % 2 == 1
}

// A long with bit n modulo 32 as told.
pub fn with_bit(n: u32, b: bool, v: u32) -> u32
    ensures { result ≡ with_bit (n % 32) b v }
{
    let i = n % 32;
    let old = bit(bit_of(n, v)) << i;
    let new = bit(b) << i;
    v - old + new
}

// The 32 bits in the other order: halves change places, then bytes, nibbles, pairs and bits.
pub fn reversed_bits(v: u32) -> u32
    ensures { result ≡ reversed_bits 32 v }
{
    let mut r = ((v & 0x0000_FFFF) << 16) | ((v >> 16) & 0x0000_FFFF);
    r = ((r & 0x00FF_00FF) << 8) | ((r >> 8) & 0x00FF_00FF);
    r = ((r & 0x0F0F_0F0F) << 4) | ((r >> 4) & 0x0F0F_0F0F);
    r = ((r & 0x3333_3333) << 2) | ((r >> 2) & 0x3333_3333);
    ((r & 0x5555_5555) << 1) | ((r >> 1) & 0x5555_5555)
}

// The four bytes in the other order.
pub fn reversed_bytes(v: u32) -> u32
    ensures { result ≡ reversed_bytes v }
{
    let lowest = v % 0x100;
    let low = v / 0x100 % 0x100;
    let high = v / 0x1_0000 % 0x100;
    let highest = v / 0x100_0000;
    lowest * 0x100_0000 + low * 0x1_0000 + high * 0x100 + highest
}
