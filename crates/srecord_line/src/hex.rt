// The digits of a record, and the bytes that they are.
ghost use Rattle.std.specs.Prelude.{◌≡◌, true, cond, ◌&&◌, ◌+◌, ◌*◌, ◌%◌, ◌≤◌, ◌<◌, leb, ltb, length, get_or};
ghost use Rattle.std.proofs.lemmas.List.Edits.{sets};
ghost use Rattle.srecord.specs.Records.{worth as worth_of, bytes_of};
ghost use Rattle.srecord.specs.Reading.{address, payload};
ghost use Rattle.srecord_line.specs.Lines.{fits_by};
ghost use Rattle.srecord_line.specs.Pairs.{is_pair, pair_value, scanned};

use srecord::Width;
use std::marker::Model;

// Bytes, each written as two hex digits.
#[derive(Drop)]
pub struct HexBytes<'a> {
    pairs: &'a [[u8; 2]],
}

impl<'a> Model for HexBytes<'a> {
    ghost use Rattle.std.specs.Prelude.{ℕ, List};
    ghost use Rattle.srecord_line.specs.Pairs.{ArePairs, values};

    ghost Value = { List ℕ };

    ghost view = { λ b. values b.pairs.now };

    ghost invariant = { λ b. ArePairs b.pairs.now };
}

// 1 for a character from one to another, 0 for any other. A number and no branch: no processor foresees which digits are letters.
fn between(from: u8, c: u8, to: u8) -> u8
    ensures { (result ≡ cond (leb from c && leb c to) 1 0) × (result ≤ 1) }
{
    (from <= c) as u8 * (c <= to) as u8
}

// 1 for a hex digit, 0 for any other character.
#[tactic(auto, using(crate::proofs::HexLaws::one_range))]
fn is_digit(c: u8) -> u8
    ensures { (result ≡ cond (ltb (worth_of c) 16) 1 0) × (result ≤ 1) }
{
    between(b'0', c, b'9') + between(b'A', c, b'F') + between(b'a', c, b'f')
}

// What a digit is worth. The low four bits of a letter are 1 to 6, and it lies above 64.
#[tactic(auto, using(crate::proofs::HexLaws::digit_worth))]
fn worth(c: u8) -> u8
    ensures { (worth_of c < 16 → result ≡ worth_of c) × (result ≤ 42) }
{
    c % 16 + 9 * (c / 64)
}

// The byte of two digits.
fn value(pair: &[u8; 2]) -> u32
    ensures { (is_pair pair.now ≡ true → (result ≡ pair_value pair.now) × (result < 256)) × (result ≤ 714) }
{
    let [high, low] = *pair;
    worth(high) as u32 * 16 + worth(low) as u32
}

// Digits as bytes, with the low byte of their sum, where they are pairs of hex digits. A wrong one does not end the loop, and the sum goes
// on digit by digit, not by `value`: so the compiler takes many pairs at a time.
pub(crate) fn scan(digits: &[u8]) -> Option<(HexBytes<'_>, u32)>
    ensures { result ≡ scanned digits.now }
{
    let (pairs, []) = digits.as_chunks::<2>() else {
        return None;
    };
    let mut right: u8 = 1;
    let mut sum: u32 = 0;
    for [high, low] in pairs {
        right *= is_digit(*high) * is_digit(*low);
        sum = (sum + worth(*high) as u32 * 16 + worth(*low) as u32) % 256;
    }
    if right == 0 {
        return None;
    }
    Some((HexBytes { pairs }, sum))
}

impl<'a> HexBytes<'a> {
    // How many bytes they are.
    pub fn len(&self) -> usize
        ensures { result ≡ length self.now }
    {
        self.pairs.len()
    }

    // The byte at a place.
    pub(crate) fn at(&self, k: usize) -> u32
        requires { k < length self.now }
        ensures { (result ≡ get_or self.now k 0) × (result < 256) }
    {
        let pairs = self.pairs;
        value(&pairs[k])
    }

    // The address behind the count.
    #[tactic(auto, unfolding(manual::specs::Memory::value_at))]
    pub(crate) fn address(&self, width: Width) -> u32
        requires { bytes_of width < length self.now }
        ensures { result ≡ address (bytes_of width) self.now }
    {
        let two = self.at(1) * 0x100 + self.at(2);
        match width {
            Width::Two => two,
            Width::Three => two * 0x100 + self.at(3),
            Width::Four => two * 0x1_0000 + self.at(3) * 0x100 + self.at(4),
        }
    }

    // The data between the address and the checksum.
    pub(crate) fn payload(&self, width: Width) -> HexBytes<'a>
        requires { bytes_of width + 2 ≤ length self.now }
        ensures { result ≡ payload (bytes_of width) self.now }
    {
        HexBytes {
            pairs: &self.pairs[width as usize + 1..self.pairs.len() - 1],
        }
    }

    // Puts the bytes into memory, from a place on.
    pub(crate) fn store(&self, mem: &mut [u8], at: usize)
        requires { fits_by (length mem.old) at (length self.now) ≡ true }
        ensures { mem.new ≡ sets mem.old at self.now }
    {
        for (i, pair) in self.pairs.iter().enumerate() {
            mem[at + i] = value(pair) as u8;
        }
    }
}
