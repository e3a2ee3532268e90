// Shifts of a long by 0 to 63 places. In 64 bits no count is a case of its own.
ghost use Rattle.std.specs.Prelude.{◌≡◌, ◌%◌};
ghost use Rattle.manual.specs.Shift.{shifted_left, shifted_right, signed_shifted_right, shift_codes};

use manual::Shifted;
use word::flags::codes;

// LSL and ASL.
pub fn shifted_left(v: u32, n: u32) -> Shifted
    ensures { result ≡ shifted_left v (n % 64) }
{
    let w = (v as u64) << n % 64;
    Shifted {
        value: (w % 0x1_0000_0000) as u32,
        carry: w / 0x1_0000_0000 % 2 == 1,
    }
}

// LSR.
pub fn shifted_right(v: u32, n: u32) -> Shifted
    ensures { result ≡ shifted_right v (n % 64) }
{
    let w = v as u64;
    let k = n % 64;
    Shifted {
        value: (w >> k) as u32,
        carry: (w * 2 >> k) % 2 == 1,
    }
}

// ASR. A negative number's complement is shifted, and the result is the complement again.
pub fn signed_shifted_right(v: u32, n: u32) -> Shifted
    ensures { result ≡ signed_shifted_right v (n % 64) }
{
    if v < 0x8000_0000 {
        return shifted_right(v, n);
    }
    let w = !v as u64;
    let k = n % 64;
    Shifted {
        value: !((w >> k) as u32),
        carry: (w * 2 + 1 >> k) % 2 == 0,
    }
}

// The flags of a shift; with count 0 X is kept and C is clear.
#[tactic(auto, unfolding(manual::specs::Shift::shift_codes))]
pub fn shift_codes(sr: u16, n: u32, s: Shifted) -> u32
    ensures { result ≡ shift_codes sr n s }
{
    let Shifted { value, carry } = s;
    let negative = 0x8000_0000 <= value;
    if n == 0 {
        return codes(sr / 16 % 2 == 1, negative, value == 0, false, false);
    }
    codes(carry, negative, value == 0, false, carry)
}
