// The registers of a mask, D0 lowest, as longs one after the other: MOVEM.
#![tactic(auto, unfolding(manual::specs::Memory::access_many, manual::specs::Memory::loaded_many, manual::specs::Memory::stored_many))]

ghost use Rattle.std.specs.Prelude.{◌≡◌, ◌+◌, ◌*◌, ◌/◌, ◌%◌, ◌^◌, ◌<◌, ◌≤◌};
ghost use Rattle.manual.specs.declared.Size.TheVariants.{Long};
ghost use Rattle.manual.specs.Word.{plus};
ghost use Rattle.manual.specs.Memory.{mapped, if_taken, number_at, access_many, stored_many, loaded_many};

use crate::{access, load, store};
use manual::{Fault, Size};
use word::word::plus;

fn access_many(mem: &[u8], given: u32, start: u32) -> Result<(), Fault>
    ensures { result ≡ access_many 16 (mapped mem.now) given start }
{
    let mut mask = given;
    let mut at = start;
    for n in 0..16usize {
        if mask % 2 == 1 {
            access(mem, at, 4)?;
            at = plus(at, 4);
        }
        mask /= 2;
    }
    Ok(())
}

fn store_all(mem: &mut [u8], g: &[u32; 16], given: u32, start: u32)
    ensures { mem.new ≡ stored_many 16 g.now 0 given start (mapped mem.old) }
{
    let mut mask = given;
    let mut at = start;
    for n in 0..16 {
        if mask % 2 == 1 {
            let _ = store(mem, at, Size::Long, g[n]);
            at = plus(at, 4);
        }
        mask /= 2;
    }
}

fn load_all(mem: &[u8], g: &mut [u32; 16], given: u32, start: u32)
    ensures { g.new ≡ loaded_many 16 (mapped mem.now) 0 given start g.old }
{
    let mut mask = given;
    let mut at = start;
    for n in 0..16 {
        if mask % 2 == 1 {
            g[n] = load(mem, at, Size::Long).unwrap_or(0);
            at = plus(at, 4);
        }
        mask /= 2;
    }
}

// Stores all of the registers, or none and the first fault.
pub fn store_many(mem: &mut [u8], g: &[u32; 16], mask: u32, a: u32) -> Result<(), Fault>
    ensures { (result ≡ access_many 16 (mapped mem.old) mask a) × (mem.new ≡ if_taken result (stored_many 16 g.now 0 mask a (mapped mem.old)) mem.old) }
{
    access_many(&*mem, mask, a)?;
    store_all(mem, g, mask, a);
    Ok(())
}

// Loads all of the registers, or none and the first fault.
pub fn load_many(mem: &[u8], g: &mut [u32; 16], mask: u32, a: u32) -> Result<(), Fault>
    ensures { (result ≡ access_many 16 (mapped mem.now) mask a) × (g.new ≡ if_taken result (loaded_many 16 (mapped mem.now) 0 mask a g.old) g.old) }
{
    access_many(mem, mask, a)?;
    load_all(mem, g, mask, a);
    Ok(())
}
