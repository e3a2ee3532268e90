// Dn, An, (An), (An)+, -(An) and d16(An); of longs that are read, immediates too; of bytes and words that are read, d8(An,Xi) too.
#![tactic(auto, unfolding(manual::specs::Address::control, manual::specs::Address::extension, manual::specs::Address::locate, manual::specs::Address::moved, manual::specs::Address::operand), using(crate::proofs::OperandLaws::register, crate::specs::Near::spot_controlled))]

ghost use Rattle.std.specs.Prelude.{◌≡◌, List, ℕ, ◌+◌, ◌*◌, ◌/◌, ◌%◌};
ghost use Rattle.manual.specs.Memory.{mapped};
ghost use Rattle.manual.specs.declared.Source.{Source};
ghost use Rattle.manual.specs.declared.Size.{Size};
ghost use Rattle.manual.specs.declared.Size.TheVariants.{Long};
ghost use Rattle.manual.specs.Registers.{address_of};
ghost use Rattle.manual.specs.Address.{operand as operand_of, source as source_of};
ghost use Rattle.quick_parts.specs.Near.{located, spotted, Readable, as_read, in_register, Loads, controlled, controlled_at};

use super::{Reading, Spot};
use address::operands::indexed;
use manual::Size;
use memory::load;
use word::registers::{address, general, no_write, write_address};
use word::word::{bytes, cut, minus, plus, sign_extended};

// Where an operand of modes 2 to 5 is; none where it is far.
// Of a mode and of register r, which holds a: as it is, or as another operand's move left it.
pub fn spot(z: Size, mem: &[u8], pc: u32, mode: u32, r: u32, a: u32) -> Option<Spot>
    ensures { (g : List ℕ) → address_of g r ≡ a → spotted result (located g (mapped mem.now) pc (operand_of mode r) z) ≡ located g (mapped mem.now) pc (operand_of mode r) z }
{
    let (at, next, moved) = match mode {
        2 => (a, plus(pc, 0), no_write()),
        3 => (a, plus(pc, 0), write_address(r, plus(a, bytes(z)))),
        4 => {
            let below = minus(a, bytes(z));
            (below, plus(pc, 0), write_address(r, below))
        }
        5 => {
            let d = load(mem, pc, Size::Word).ok()?;
            let near = plus(a, sign_extended(Size::Word, d));
            (near, plus(pc, 2), no_write())
        }
        _ => return None,
    };
    Some(Spot { at, next, moved })
}

// Where the operand of a word's bits 5 to 0 is to be loaded from: an immediate long stands where its extension words do.
fn readable(z: Size, g: &[u32; 16], mem: &[u8], pc: u32, op: u32) -> Option<Spot>
    ensures { Readable g.now (mapped mem.now) pc op z result }
{
    if op % 64 == 0x3C
        && let Size::Long = z
    {
        return Some(Spot {
            at: pc,
            next: plus(pc, 4),
            moved: no_write(),
        });
    }
    spot(z, mem, pc, op / 8 % 8, op % 8, address(g, op % 8))
}

// What Dn or An reads: it has no extension words, and does not move.
fn register(z: Size, g: &[u32; 16], pc: u32, op: u32) -> Reading
    ensures { result ≡ in_register z g.now pc op }
{
    Reading {
        value: cut(z, general(g, op)),
        next: plus(pc, 0),
        moved: no_write(),
    }
}

// What is read at a spot; none where that is not inside.
fn read_at(z: Size, mem: &[u8], spot: Spot) -> Option<Reading>
    ensures { (t : Source) → Loads (mapped mem.now) z spot t → as_read result t ≡ t }
{
    let Spot { at, next, moved } = spot;
    let value = load(mem, at, z).ok()?;
    Some(Reading { value, next, moved })
}

// What an operand of a near mode reads; none where it is far.
fn near(z: Size, g: &[u32; 16], mem: &[u8], pc: u32, op: u32) -> Option<Reading>
    ensures { as_read result (source_of g.now (mapped mem.now) pc op z) ≡ source_of g.now (mapped mem.now) pc op z }
{
    if op / 8 % 8 < 2 {
        return Some(register(z, g, pc, op));
    }
    read_at(z, mem, readable(z, g, mem, pc, op)?)
}

// Where d8(An,Xi) is.
fn indexed_spot(g: &[u32; 16], mem: &[u8], pc: u32, r: u32) -> Option<Spot>
    ensures { (z : Size) → spotted result (located g.now (mapped mem.now) pc (operand_of 6 r) z) ≡ located g.now (mapped mem.now) pc (operand_of 6 r) z }
{
    let w = load(mem, pc, Size::Word).ok()?;
    Some(Spot {
        at: indexed(g, address(g, r), w),
        next: plus(pc, 2),
        moved: no_write(),
    })
}

// What d8(An,Xi) reads.
fn read_indexed(z: Size, g: &[u32; 16], mem: &[u8], pc: u32, op: u32) -> Option<Reading>
    ensures { as_read result (source_of g.now (mapped mem.now) pc op z) ≡ source_of g.now (mapped mem.now) pc op z }
{
    if op / 8 % 8 != 6 {
        return None;
    }
    read_at(z, mem, indexed_spot(g, mem, pc, op % 8)?)
}

// What an operand of a near mode or d8(An,Xi) reads; none where it is another.
// The operand that a word's bits 5 to 0 name.
pub fn read(z: Size, g: &[u32; 16], mem: &[u8], pc: u32, op: u32) -> Option<Reading>
    ensures { as_read result (source_of g.now (mapped mem.now) pc op z) ≡ source_of g.now (mapped mem.now) pc op z }
{
    near(z, g, mem, pc, op).or_else(|| read_indexed(z, g, mem, pc, op))
}

// What a long operand of a near mode reads.
// It has many callers, so it is kept so small that a compiler puts it into each of them; d8(An,Xi) would make it too large.
pub fn read_long(g: &[u32; 16], mem: &[u8], pc: u32, op: u32) -> Option<Reading>
    ensures { as_read result (source_of g.now (mapped mem.now) pc op Long) ≡ source_of g.now (mapped mem.now) pc op Long }
{
    near(Size::Long, g, mem, pc, op)
}

// Where an absolute operand is.
fn absolute_spot(mem: &[u8], pc: u32, r: u32) -> Option<Spot>
    ensures { ((g : List ℕ) → controlled_at result (controlled g (mapped mem.now) pc (operand_of 7 r)) ≡ controlled g (mapped mem.now) pc (operand_of 7 r)) × ((g : List ℕ) (z : Size) → spotted result (located g (mapped mem.now) pc (operand_of 7 r) z) ≡ located g (mapped mem.now) pc (operand_of 7 r) z) }
{
    let (at, next) = match r {
        0 => {
            let w = load(mem, pc, Size::Word).ok()?;
            (sign_extended(Size::Word, w), plus(pc, 2))
        }
        1 => (load(mem, pc, Size::Long).ok()?, plus(pc, 4)),
        _ => return None,
    };
    let moved = no_write();
    Some(Spot { at, next, moved })
}

// Where an operand of d16(An), d8(An,Xi) or an absolute address is; none where it is another.
// The operand that a word's bits 5 to 0 name. What is there is not read.
pub fn control_spot(g: &[u32; 16], mem: &[u8], pc: u32, op: u32) -> Option<Spot>
    ensures { controlled_at result (controlled g.now (mapped mem.now) pc (operand_of (op / 8 % 8) (op % 8))) ≡ controlled g.now (mapped mem.now) pc (operand_of (op / 8 % 8) (op % 8)) }
{
    match op / 8 % 8 {
        5 => spot(Size::Long, mem, pc, 5, op % 8, address(g, op % 8)),
        6 => indexed_spot(g, mem, pc, op % 8),
        7 => absolute_spot(mem, pc, op % 8),
        _ => None,
    }
}

// Where an operand in memory is: of a near mode, at d8(An,Xi) or at an absolute address; none where it is another.
fn any_spot(z: Size, g: &[u32; 16], mem: &[u8], pc: u32, op: u32) -> Option<Spot>
    ensures { spotted result (located g.now (mapped mem.now) pc (operand_of (op / 8 % 8) (op % 8)) z) ≡ located g.now (mapped mem.now) pc (operand_of (op / 8 % 8) (op % 8)) z }
{
    match op / 8 % 8 {
        6 => indexed_spot(g, mem, pc, op % 8),
        7 => absolute_spot(mem, pc, op % 8),
        _ => spot(z, mem, pc, op / 8 % 8, op % 8, address(g, op % 8)),
    }
}

// What a register or an operand at `any_spot` reads; none where it is another.
// For what is done apart from the loop: the loop's readings are kept small, and have no other callers.
pub fn read_any(z: Size, g: &[u32; 16], mem: &[u8], pc: u32, op: u32) -> Option<Reading>
    ensures { as_read result (source_of g.now (mapped mem.now) pc op z) ≡ source_of g.now (mapped mem.now) pc op z }
{
    if op / 8 % 8 < 2 {
        return Some(register(z, g, pc, op));
    }
    read_at(z, mem, any_spot(z, g, mem, pc, op)?)
}
