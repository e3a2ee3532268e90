// Numbers of 8, 16 and 32 bits. Bytes, halves and numbers are three tables of constants, as in Word: a constant costs a step nothing.
#![tactic(auto, unfolding(manual::specs::Word::cut, manual::specs::Word::merged, manual::specs::Word::minus, manual::specs::Word::plus, manual::specs::Word::sign_extended, manual::specs::Word::size_of))]

ghost use Rattle.std.specs.Prelude.{◌≡◌, ◌%◌};
ghost use Rattle.manual.specs.Fields.{byte_or_word};
ghost use Rattle.manual.specs.Word.{bytes as bytes_of, half as half_of, numbers as numbers_of, size_of, cut as cut_of, merged as merged_of, plus as plus_of, minus as minus_of, sign_extended};

use manual::Size;

// The bytes of a size.
pub fn bytes(z: Size) -> u32
    ensures { result ≡ bytes_of z }
{
    match z {
        Size::Byte => 1,
        Size::Word => 2,
        Size::Long => 4,
    }
}

pub(crate) fn half(z: Size) -> u64
    ensures { result ≡ half_of z }
{
    match z {
        Size::Byte => 0x80,
        Size::Word => 0x8000,
        Size::Long => 0x8000_0000,
    }
}

pub(crate) fn numbers(z: Size) -> u64
    ensures { result ≡ numbers_of z }
{
    match z {
        Size::Byte => 0x100,
        Size::Word => 0x1_0000,
        Size::Long => 0x1_0000_0000,
    }
}

// The size that two bits name.
pub fn size_of(n: u32) -> Size
    ensures { result ≡ size_of (n % 4) }
{
    match n % 4 {
        0 => Size::Byte,
        1 => Size::Word,
        _ => Size::Long,
    }
}

// The size of MVS and MVZ.
pub fn byte_or_word(op: u32) -> Size
    ensures { result ≡ byte_or_word op }
{
    if op / 64 % 2 == 1 {
        Size::Word
    } else {
        Size::Byte
    }
}

// The low part of a long, of a size.
pub fn cut(z: Size, v: u32) -> u32
    ensures { result ≡ cut_of z v }
{
    match z {
        Size::Byte => v % 0x100,
        Size::Word => v % 0x1_0000,
        Size::Long => v,
    }
}

// A long whose low part is replaced by another's.
pub fn merged(z: Size, old: u32, v: u32) -> u32
    ensures { result ≡ merged_of z old v }
{
    match z {
        Size::Byte => old / 0x100 * 0x100 + v % 0x100,
        Size::Word => old / 0x1_0000 * 0x1_0000 + v % 0x1_0000,
        Size::Long => v,
    }
}

// A sum of longs, wrapped.
pub fn plus(a: u32, b: u32) -> u32
    ensures { result ≡ plus_of a b }
{
    a.wrapping_add(b)
}

// A difference of longs, wrapped.
pub fn minus(a: u32, b: u32) -> u32
    ensures { result ≡ minus_of a b }
{
    a.wrapping_sub(b)
}

// The low part of a long, as a signed long.
pub fn sign_extended(z: Size, v: u32) -> u32
    ensures { result ≡ sign_extended z v }
{
    match z {
        Size::Byte => {
            let low = v % 0x100;
            if low < 0x80 { low } else { low + 0xFFFF_FF00 }
        }
        Size::Word => {
            let low = v % 0x1_0000;
            if low < 0x8000 { low } else { low + 0xFFFF_0000 }
        }
        Size::Long => v,
    }
}
