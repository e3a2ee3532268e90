// AND, OR, EOR and products of longs and bits of Dn, done in place.
#![tactic(auto, unfolding(instructions::specs::Line0::bit_by_immediate, instructions::specs::Line0::bit_by_register, instructions::specs::Line0::bit_operation, instructions::specs::Line4::mul_l, instructions::specs::LineB::logic_to_place, instructions::specs::LineC::logic_to_data, manual::specs::Address::destination_of, manual::specs::Address::extension, manual::specs::Address::fetch, manual::specs::Address::locate, manual::specs::Address::moved, manual::specs::Address::operand, manual::specs::Change::done, manual::specs::Change::put, manual::specs::Change::put_to, manual::specs::Word::size_of))]

ghost use Rattle.std.specs.Prelude.{◌≡◌, ℕ, ◌+◌, ◌*◌, ◌/◌, ◌%◌};
ghost use Rattle.manual.specs.Memory.{Memory, mapped, storage_of};
ghost use Rattle.manual.specs.declared.Logic.TheVariants.{Eor};
ghost use Rattle.instructions.specs.Line0.{bit_by_register, bit_by_immediate};
ghost use Rattle.instructions.specs.Line4.{mul_l};
ghost use Rattle.instructions.specs.LineB.{logic_to_place};
ghost use Rattle.instructions.specs.LineC.{logic_to_data};
ghost use Rattle.quick_parts.specs.Effects.{after, agreed};

use address::changes::done;
use line4::single::product;
use lines0to3::line0::bit_of_data;
use manual::{Logic, Size};
use memory::load;
use quick_parts::inplace::changed;
use quick_parts::operands::read_long;
use word::bits::logic;
use word::flags::move_codes;
use word::registers::{data, no_write, write_data};
use word::word::{cut, merged, plus};

// LineC.logic_to_data, of a long
pub fn logic_to_data(
    l: Logic,
    g: &mut [u32; 16],
    pc: u32,
    sr: &mut u16,
    mem: &[u8],
    op: u32,
) -> Option<u32>
    ensures { after result sr.new g.new mem.now ≡ agreed result (logic_to_data l g.old pc sr.old (mapped mem.now) op) sr.old g.old (mapped mem.now) }
{
    if op / 64 % 4 != 2 {
        return None;
    }
    let from = read_long(&*g, mem, plus(pc, 2), op)?;
    let old = data(&*g, op / 512 % 8);
    let r = logic(l, from.value, old);
    let codes = move_codes(Size::Long, r, *sr);
    let whole = merged(Size::Long, old, r);
    changed(
        g,
        sr,
        done(
            from.next,
            codes,
            from.moved,
            write_data(op / 512 % 8, whole),
        ),
    )
}

// LineB.logic_to_place Eor, of a long in Dn
pub fn eor_to_data(g: &mut [u32; 16], pc: u32, sr: &mut u16, op: u32) -> Option<u32>
    ensures { (m : Memory) → after result sr.new g.new (storage_of m) ≡ agreed result (logic_to_place Eor g.old pc sr.old m op) sr.old g.old m }
{
    if op / 8 % 8 != 0 || op / 64 % 4 != 2 {
        return None;
    }
    let next = plus(plus(pc, 2), 0);
    let old = data(&*g, op % 8);
    let r = logic(Logic::Eor, cut(Size::Long, old), data(&*g, op / 512 % 8));
    let codes = move_codes(Size::Long, r, *sr);
    let whole = merged(Size::Long, old, r);
    changed(
        g,
        sr,
        done(next, codes, no_write(), write_data(op % 8, whole)),
    )
}

// Line4.mul_l
pub fn mul_l(g: &mut [u32; 16], pc: u32, sr: &mut u16, mem: &[u8], op: u32) -> Option<u32>
    ensures { after result sr.new g.new mem.now ≡ agreed result (mul_l g.old pc sr.old (mapped mem.now) op) sr.old g.old (mapped mem.now) }
{
    let at = plus(pc, 2);
    let w = load(mem, at, Size::Word).ok()?;
    let from = read_long(&*g, mem, plus(at, 2), op)?;
    let r = product(w, data(&*g, w / 0x1000 % 8), from.value);
    let codes = move_codes(Size::Long, r, *sr);
    changed(
        g,
        sr,
        done(from.next, codes, from.moved, write_data(w / 0x1000 % 8, r)),
    )
}

// Line0.bit_by_register, of Dn
pub fn bit_by_register(g: &mut [u32; 16], pc: u32, sr: &mut u16, op: u32) -> Option<u32>
    ensures { (m : Memory) → after result sr.new g.new (storage_of m) ≡ agreed result (bit_by_register g.old pc sr.old m op) sr.old g.old m }
{
    if op / 8 % 8 != 0 {
        return None;
    }
    let n = data(&*g, op / 512 % 8);
    changed(g, sr, bit_of_data(&*g, plus(pc, 2), *sr, op, n))
}

// Line0.bit_by_immediate, of Dn
pub fn bit_by_immediate(
    g: &mut [u32; 16],
    pc: u32,
    sr: &mut u16,
    mem: &[u8],
    op: u32,
) -> Option<u32>
    ensures { after result sr.new g.new mem.now ≡ agreed result (bit_by_immediate g.old pc sr.old (mapped mem.now) op) sr.old g.old (mapped mem.now) }
{
    if op / 8 % 8 != 0 {
        return None;
    }
    let n = load(mem, plus(pc, 2), Size::Word).ok()?;
    changed(g, sr, bit_of_data(&*g, plus(pc, 4), *sr, op, n))
}
