// Numbers of up to eight bytes, big-endian: one function for every width, as the definition has.
ghost use Rattle.std.specs.Prelude.{◌≡◌, ◌+◌, ◌≤◌, length};
ghost use Rattle.manual.specs.Memory.{value_at};

#[tactic(auto, unfolding(manual::specs::Memory::value_at))]
pub(crate) fn read_number(bytes: &[u8], at: usize, n: usize) -> u64
    requires { (n ≤ 8) × (at + n ≤ length bytes.now) }
    ensures { result ≡ value_at bytes.now at n }
{
    let mut v: u64 = 0;
    for k in 0..n {
        v = v * 0x100 + bytes[at + k] as u64;
    }
    v
}

#[tactic(auto, unfolding(manual::specs::Memory::value_at))]
pub(crate) fn byte_at(bytes: &[u8], at: usize) -> u8
    requires { at + 1 ≤ length bytes.now }
    ensures { result ≡ value_at bytes.now at 1 }
{
    bytes[at]
}

pub(crate) fn word_at(bytes: &[u8], at: usize) -> u16
    requires { at + 2 ≤ length bytes.now }
    ensures { result ≡ value_at bytes.now at 2 }
{
    read_number(bytes, at, 2) as u16
}

pub(crate) fn long_at(bytes: &[u8], at: usize) -> u32
    requires { at + 4 ≤ length bytes.now }
    ensures { result ≡ value_at bytes.now at 4 }
{
    read_number(bytes, at, 4) as u32
}
