// A change done in place, where it has nothing more to do than to store.
#![tactic(auto, unfolding(crate::specs::Effects::in_place))]

ghost use Rattle.std.specs.Prelude.{◌≡◌, ℕ};
ghost use Rattle.manual.specs.Memory.{Memory, mapped, storage_of};
ghost use Rattle.manual.specs.Registers.{coded as coded_of, written};
ghost use Rattle.quick_parts.specs.Effects.{after, agreed};

use manual::{Action, Change};
use memory::store;
use word::registers::{coded, write};

// The registers and the status register of a change, and the next address.
fn settled(g: &mut [u32; 16], sr: &mut u16, c: Change) -> u32
    ensures { (result ≡ c.pc) × (sr.new ≡ coded_of sr.old c.ccr) × (g.new ≡ written c.second (written c.first g.old)) }
{
    write(g, c.first);
    write(g, c.second);
    *sr = coded(*sr, c.ccr);
    c.pc
}

// A change with nothing more to do, whatever the memory. The answer is the next address; none where it is left, with nothing changed.
pub fn changed(g: &mut [u32; 16], sr: &mut u16, c: Change) -> Option<u32>
    ensures { (m : Memory) → after result sr.new g.new (storage_of m) ≡ agreed result c sr.old g.old m }
{
    let Action::Nothing = c.action else {
        return None;
    };
    Some(settled(g, sr, c))
}

// A change with a store.
pub fn stored(g: &mut [u32; 16], mem: &mut [u8], sr: &mut u16, c: Change) -> Option<u32>
    ensures { after result sr.new g.new mem.new ≡ agreed result c sr.old g.old (mapped mem.old) }
{
    let Action::Store(a, z, v) = c.action else {
        return None;
    };
    store(mem, a, z, v).ok()?;
    Some(settled(g, sr, c))
}

// Any change, where that is all it does.
pub fn carried_out(g: &mut [u32; 16], mem: &mut [u8], sr: &mut u16, c: Change) -> Option<u32>
    ensures { after result sr.new g.new mem.new ≡ agreed result c sr.old g.old (mapped mem.old) }
{
    match c.action {
        Action::Nothing => changed(g, sr, c),
        Action::Store(_, _, _) => stored(g, mem, sr, c),
        _ => None,
    }
}
