// Products of longs and of words.
ghost use Rattle.std.specs.Prelude.{◌≡◌};
ghost use Rattle.manual.specs.Multiply.{long_product, signed_long_product, word_product, signed_word_product};

use manual::Size;
use word::word::sign_extended;

// MULU.L.
#[tactic(auto, unfolding(manual::specs::Multiply::long_product))]
pub fn long_product(x: u32, y: u32) -> u32
    ensures { result ≡ long_product x y }
{
    x.wrapping_mul(y)
}

// MULS.L: the low half of a product is the same for signed numbers.
pub fn signed_long_product(x: u32, y: u32) -> u32
    ensures { result ≡ signed_long_product x y }
{
    long_product(x, y)
}

// MULU.W.
pub fn word_product(x: u32, y: u32) -> u32
    ensures { result ≡ word_product x y }
{
    (x % 0x1_0000) * (y % 0x1_0000)
}

// MULS.W.
pub fn signed_word_product(x: u32, y: u32) -> u32
    ensures { result ≡ signed_word_product x y }
{
    let a = sign_extended(Size::Word, x);
    let b = sign_extended(Size::Word, y);
    signed_long_product(a, b)
}
