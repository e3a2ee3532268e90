// Numbers in a lent memory, big-endian, at any address.
#![tactic(auto, unfolding(manual::specs::Memory::access, manual::specs::Memory::load, manual::specs::Memory::store_at, manual::specs::Memory::stored, manual::specs::Memory::storing, manual::specs::Memory::value_at))]

pub mod many;

ghost use Rattle.std.specs.Prelude.{◌≡◌, ◌+◌, ◌*◌, ◌/◌, ◌%◌, ◌^◌, ◌<◌, ◌≤◌, length, slice_index, slice_set};
ghost use Rattle.manual.specs.Word.{bytes as bytes_of};
ghost use Rattle.manual.specs.Memory.{mapped, value_at, store_at, access as access_of, load as load_of, storing, stored};

use manual::{Fault, Size};
use word::word::bytes;

fn byte_at(mem: &[u8], at: usize) -> u32
    requires { at < length mem.now }
    ensures { (result ≡ slice_index mem.now at) × (result < 0x100) }
{
    mem[at] as u32
}

fn word_at(mem: &[u8], at: usize) -> u32
    requires { at + 2 ≤ length mem.now }
    ensures { (result ≡ value_at mem.now at 2) × (result < 0x1_0000) }
{
    u16::from_be_bytes([mem[at], mem[at + 1]]) as u32
}

fn inside_long(mem: &[u8], at: usize) -> u32
    requires { at + 4 ≤ length mem.now }
    ensures { result ≡ value_at mem.now at 4 }
{
    u32::from_be_bytes([mem[at], mem[at + 1], mem[at + 2], mem[at + 3]])
}

fn byte_or_zero(mem: &[u8], at: usize, k: usize) -> u32
    ensures { (result ≡ slice_index mem.now (at + k)) × (result < 0x100) }
{
    if at < mem.len() {
        if k < mem.len() - at {
            return byte_at(mem, at + k);
        }
    }
    0
}

// The long at any place: a byte outside counts as 0.
pub fn long_at(mem: &[u8], at: usize) -> u32
    ensures { result ≡ value_at mem.now at 4 }
{
    byte_or_zero(mem, at, 0) * 0x100_0000
        + byte_or_zero(mem, at, 1) * 0x1_0000
        + byte_or_zero(mem, at, 2) * 0x100
        + byte_or_zero(mem, at, 3)
}

// Where the n bytes at an address lie, or why they are not to be had: the question that every access asks.
pub fn access(mem: &[u8], a: u32, n: u32) -> Result<u32, Fault>
    ensures { result ≡ access_of (mapped mem.now) a n }
{
    if a as usize + n as usize <= mem.len() {
        Ok(a)
    } else {
        Err(Fault::Outside)
    }
}

// The number of a size at an address, or the fault.
pub fn load(mem: &[u8], a: u32, z: Size) -> Result<u32, Fault>
    ensures { result ≡ load_of (mapped mem.now) a z }
{
    let at = access(mem, a, bytes(z))? as usize;
    Ok(match z {
        Size::Byte => byte_at(mem, at),
        Size::Word => word_at(mem, at),
        Size::Long => inside_long(mem, at),
    })
}

fn store_word(mem: &mut [u8], at: usize, v: u32)
    requires { at + 2 ≤ length mem.old }
    ensures { mem.new ≡ store_at mem.old at 2 v }
{
    mem[at + 1] = (v % 0x100) as u8;
    mem[at] = (v / 0x100 % 0x100) as u8;
}

fn store_long(mem: &mut [u8], at: usize, v: u32)
    requires { at + 4 ≤ length mem.old }
    ensures { mem.new ≡ store_at mem.old at 4 v }
{
    store_word(mem, at + 2, v);
    store_word(mem, at, v / 0x1_0000);
}

fn store_inside(mem: &mut [u8], at: usize, z: Size, v: u32)
    requires { at + bytes_of z ≤ length mem.old }
    ensures { mem.new ≡ store_at mem.old at (bytes_of z) v }
{
    match z {
        Size::Byte => mem[at] = (v % 0x100) as u8,
        Size::Word => store_word(mem, at, v),
        Size::Long => store_long(mem, at, v),
    }
}

// Stores the low bytes of v: all of them, or none and the fault.
pub fn store(mem: &mut [u8], a: u32, z: Size, v: u32) -> Result<(), Fault>
    ensures { (result ≡ storing (mapped mem.old) a z) × (mem.new ≡ stored (mapped mem.old) a z v) }
{
    let at = access(&*mem, a, bytes(z))? as usize;
    store_inside(mem, at, z, v);
    Ok(())
}

fn put_byte(mem: &mut [u8], at: usize, v: u32)
    ensures { mem.new ≡ slice_set mem.old at (v % 0x100) }
{
    if at < mem.len() {
        mem[at] = (v % 0x100) as u8;
    }
}

// Stores a long at a place that was asked for: a byte outside is not stored.
pub fn put_long(mem: &mut [u8], place: u32, v: u32)
    ensures { mem.new ≡ store_at mem.old place 4 v }
{
    let at = place as usize;
    put_byte(mem, at + 3, v);
    put_byte(mem, at + 2, v / 0x100);
    put_byte(mem, at + 1, v / 0x1_0000);
    put_byte(mem, at, v / 0x100_0000);
}
