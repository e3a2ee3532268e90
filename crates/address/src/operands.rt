// Operands: their extension words, where they are and what stands there.
#![tactic(auto, unfolding(manual::specs::Address::control, manual::specs::Address::destination_of, manual::specs::Address::extension, manual::specs::Address::fetch, manual::specs::Address::immediate, manual::specs::Address::index, manual::specs::Address::indexed, manual::specs::Address::locate, manual::specs::Address::moved, manual::specs::Address::operand, manual::specs::Address::source, manual::specs::Address::value))]

ghost use Rattle.std.specs.Prelude.{◌≡◌, ◌+◌, ◌-◌, ◌*◌, ◌/◌, ◌%◌, ◌^◌, ◌≤◌, ◌<◌};
ghost use Rattle.manual.specs.Memory.{mapped};
ghost use Rattle.manual.specs.Address.{operand as operand_of, extension as extension_of, index as index_of, indexed as indexed_of, immediate as immediate_of, locate as locate_of, moved as moved_of, fetch as fetch_of, value as value_of, reached as reached_of, control as control_of, source as source_of, destination as destination_of};

use manual::{Destination, Fault, Operand, Place, Size, Source, Write};
use memory::load;
use word::registers::{address, data, general, no_write, write_address};
use word::word::{bytes, cut, minus, plus, sign_extended};

// The operand that a mode and a register's number name.
pub fn operand(mode: u32, r: u32) -> Operand
    ensures { result ≡ operand_of mode r }
{
    match mode % 8 {
        0 => Operand::Data(r),
        1 => Operand::Address(r),
        2 => Operand::Indirect(r),
        3 => Operand::PostIncrement(r),
        4 => Operand::PreDecrement(r),
        5 => Operand::Displaced(r),
        6 => Operand::Indexed(r),
        _ => match r % 8 {
            0 => Operand::AbsoluteWord,
            1 => Operand::AbsoluteLong,
            2 => Operand::PcDisplaced,
            3 => Operand::PcIndexed,
            4 => Operand::Immediate,
            _ => Operand::Zero,
        },
    }
}

// How many bytes an operand's extension words take.
pub fn extension(o: Operand, z: Size) -> u32
    ensures { result ≡ extension_of o z }
{
    match o {
        Operand::Displaced(_) => 2,
        Operand::Indexed(_) => 2,
        Operand::AbsoluteWord => 2,
        Operand::AbsoluteLong => 4,
        Operand::PcDisplaced => 2,
        Operand::PcIndexed => 2,
        Operand::Immediate => match z {
            Size::Byte => 2,
            Size::Word => 2,
            Size::Long => 4,
        },
        _ => 0,
    }
}

fn scaled(x: u32, scale: u32) -> u32
    ensures { result ≡ x * 2 ^ (scale % 4) % 2 ^ 32 }
{
    x << (scale % 4)
}

fn index(g: &[u32; 16], w: u32) -> u32
    ensures { result ≡ index_of g.now w }
{
    let r = general(g, w / 0x1000 % 16);
    if w / 0x800 % 2 == 1 {
        scaled(r, w / 0x200)
    } else {
        scaled(sign_extended(Size::Word, r), w / 0x200)
    }
}

// The address that a base and a brief extension word name.
pub fn indexed(g: &[u32; 16], base: u32, w: u32) -> u32
    ensures { result ≡ indexed_of g.now base w }
{
    plus(plus(base, sign_extended(Size::Byte, w)), index(g, w))
}

// The place of an operand, or the fault of its extension words.
pub fn locate(g: &[u32; 16], mem: &[u8], pc: u32, o: Operand, z: Size) -> Result<Place, Fault>
    ensures { result ≡ locate_of g.now (mapped mem.now) pc o z }
{
    Ok(match o {
        Operand::Data(r) => Place::D(r),
        Operand::Address(r) => Place::A(r),
        Operand::Indirect(r) => Place::M(address(g, r)),
        Operand::PostIncrement(r) => Place::M(address(g, r)),
        Operand::PreDecrement(r) => Place::M(minus(address(g, r), bytes(z))),
        Operand::Displaced(r) => {
            let w = load(mem, pc, Size::Word)?;
            Place::M(plus(address(g, r), sign_extended(Size::Word, w)))
        }
        Operand::Indexed(r) => {
            let w = load(mem, pc, Size::Word)?;
            Place::M(indexed(g, address(g, r), w))
        }
        Operand::AbsoluteWord => {
            let w = load(mem, pc, Size::Word)?;
            Place::M(sign_extended(Size::Word, w))
        }
        Operand::AbsoluteLong => Place::M(load(mem, pc, Size::Long)?),
        Operand::PcDisplaced => {
            let w = load(mem, pc, Size::Word)?;
            Place::M(plus(pc, sign_extended(Size::Word, w)))
        }
        Operand::PcIndexed => Place::M(indexed(g, pc, load(mem, pc, Size::Word)?)),
        Operand::Immediate => immediate(mem, pc, z)?,
        Operand::Zero => Place::I(0),
    })
}

fn immediate(mem: &[u8], pc: u32, z: Size) -> Result<Place, Fault>
    ensures { result ≡ immediate_of (mapped mem.now) pc z }
{
    Ok(Place::I(match z {
        Size::Byte => load(mem, pc, Size::Word)? % 0x100,
        Size::Word => load(mem, pc, Size::Word)?,
        Size::Long => load(mem, pc, Size::Long)?,
    }))
}

// What (An)+ and -(An) write to their register; no write for any other operand.
pub fn moved(g: &[u32; 16], o: Operand, z: Size) -> Write
    ensures { result ≡ moved_of g.now o z }
{
    match o {
        Operand::PostIncrement(r) => write_address(r, plus(address(g, r), bytes(z))),
        Operand::PreDecrement(r) => write_address(r, minus(address(g, r), bytes(z))),
        _ => no_write(),
    }
}

// The value at a place, or the fault.
pub fn fetch(g: &[u32; 16], mem: &[u8], p: Result<Place, Fault>, z: Size) -> Result<u32, Fault>
    ensures { result ≡ fetch_of g.now (mapped mem.now) p z }
{
    match p? {
        Place::D(r) => Ok(cut(z, data(g, r))),
        Place::A(r) => Ok(cut(z, address(g, r))),
        Place::M(a) => load(mem, a, z),
        Place::I(v) => Ok(cut(z, v)),
    }
}

// The value of an operand, or the fault.
pub fn value(g: &[u32; 16], mem: &[u8], pc: u32, o: Operand, z: Size) -> Result<u32, Fault>
    ensures { result ≡ value_of g.now (mapped mem.now) pc o z }
{
    fetch(g, mem, locate(g, mem, pc, o, z), z)
}

fn reached(p: Result<Place, Fault>) -> Option<Result<u32, Fault>>
    ensures { result ≡ reached_of p }
{
    match p {
        Ok(Place::M(a)) => Some(Ok(a)),
        Ok(_) => None,
        Err(x) => Some(Err(x)),
    }
}

// The address of a control operand, or that the mode has none.
pub fn control(g: &[u32; 16], mem: &[u8], pc: u32, o: Operand) -> Option<Result<u32, Fault>>
    ensures { result ≡ control_of g.now (mapped mem.now) pc o }
{
    match o {
        Operand::PostIncrement(_) => None,
        Operand::PreDecrement(_) => None,
        Operand::Immediate => None,
        _ => reached(locate(g, mem, pc, o, Size::Long)),
    }
}

// Every mode, by the plain leaves. `destination` is alike, but a Destination holds a place where a Source holds a value.
fn source_by_leaves(g: &[u32; 16], mem: &[u8], pc: u32, op: u32, z: Size) -> Source
    ensures { result ≡ source_of g.now (mapped mem.now) pc op z }
{
    let o = operand(op / 8 % 8, op % 8);
    Source {
        got: value(g, mem, pc, o, z),
        next: plus(pc, extension(o, z)),
        moved: moved(g, o, z),
    }
}

// The operand in a word's low six bits: its value or fault, the PC after it, and its register's move. By one `match` on its mode:
// most operands are one of these, and the rest go by the leaves.
pub fn source(g: &[u32; 16], mem: &[u8], pc: u32, op: u32, z: Size) -> Source
    ensures { result ≡ source_of g.now (mapped mem.now) pc op z }
{
    let r = op % 8;
    let next = plus(pc, 0);
    match op / 8 % 8 {
        0 => Source {
            got: Ok(cut(z, data(g, r))),
            next,
            moved: no_write(),
        },
        1 => Source {
            got: Ok(cut(z, address(g, r))),
            next,
            moved: no_write(),
        },
        2 => Source {
            got: load(mem, address(g, r), z),
            next,
            moved: no_write(),
        },
        3 => {
            let a = address(g, r);
            Source {
                got: load(mem, a, z),
                next,
                moved: write_address(r, plus(a, bytes(z))),
            }
        }
        4 => {
            let a = minus(address(g, r), bytes(z));
            Source {
                got: load(mem, a, z),
                next,
                moved: write_address(r, a),
            }
        }
        _ => source_by_leaves(g, mem, pc, op, z),
    }
}

// Where an operand is written; what stands there is not read.
pub fn destination(g: &[u32; 16], mem: &[u8], pc: u32, op: u32, z: Size) -> Destination
    ensures { result ≡ destination_of g.now (mapped mem.now) pc op z }
{
    let o = operand(op / 8 % 8, op % 8);
    Destination {
        place: locate(g, mem, pc, o, z),
        next: plus(pc, extension(o, z)),
        moved: moved(g, o, z),
    }
}
