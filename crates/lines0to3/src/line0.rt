// Line 0: bit operations and immediates.
#![tactic(auto, unfolding(instructions::specs::Line0::bit_by_immediate, instructions::specs::Line0::bit_by_register, instructions::specs::Line0::bit_of_byte, instructions::specs::Line0::bit_of_data, instructions::specs::Line0::bit_operation, instructions::specs::Line0::bitrev, instructions::specs::Line0::byterev, instructions::specs::Line0::cmpi, instructions::specs::Line0::ff1, instructions::specs::Line0::line0, instructions::specs::Line0::logic_immediate, instructions::specs::Line0::sum_immediate, instructions::specs::Rows::place_in))]

ghost use Rattle.std.specs.Prelude.{◌≡◌, ◌+◌, ◌*◌, ◌/◌, ◌%◌, ◌<◌};
ghost use Rattle.manual.specs.Memory.{mapped};
ghost use Rattle.manual.specs.Word.{plus as plus_of};
ghost use Rattle.manual.specs.Registers.{no_write, write_data as write_data_of};
ghost use Rattle.manual.specs.Flags.{kept_codes as kept_codes_of};
ghost use Rattle.manual.specs.Change.{done as done_of};
ghost use Rattle.instructions.specs.Line0.{bitrev as bitrev_of, byterev as byterev_of, ff1 as ff1_of, logic_immediate, sum_immediate, cmpi as cmpi_of, bit_of_data, bit_of_byte, bit_operation, bit_by_register, bit_by_immediate, line0 as line0_of};

use super::bits::changed_bit;
use address::changes::{done, illegal, put_to, refused};
use address::operands::{destination, extension, fetch, value};
use manual::{Change, Logic, Operand, Size};
use memory::load;
use word::bits::{bit_of, logic, reversed_bits, reversed_bytes};
use word::flags::{
    compare_codes, kept_codes, move_codes, subtracted, sum_codes, sum_or_difference, test_codes,
};
use word::registers::{data, no_write, write_data};
use word::word::plus;

// A long into Dn, with the condition codes as they were.
fn replaced(at: u32, sr: u16, op: u32, v: u32) -> Change
    ensures { result ≡ done_of (plus_of at 2) (kept_codes_of sr) no_write (write_data_of (op % 8) v) }
{
    done(
        plus(at, 2),
        kept_codes(sr),
        no_write(),
        write_data(op % 8, v),
    )
}

fn bitrev(g: &[u32; 16], at: u32, sr: u16, op: u32) -> Change
    ensures { result ≡ bitrev_of g.now at sr op }
{
    replaced(at, sr, op, reversed_bits(data(g, op % 8)))
}

fn byterev(g: &[u32; 16], at: u32, sr: u16, op: u32) -> Change
    ensures { result ≡ byterev_of g.now at sr op }
{
    replaced(at, sr, op, reversed_bytes(data(g, op % 8)))
}

fn ff1(g: &[u32; 16], at: u32, sr: u16, op: u32) -> Change
    ensures { result ≡ ff1_of g.now at sr op }
{
    let v = data(g, op % 8);
    let next = plus(at, 2);
    let codes = move_codes(Size::Long, v, sr);
    done(
        next,
        codes,
        no_write(),
        write_data(op % 8, u32::leading_zeros(v)),
    )
}

// ANDI, ORI and EORI.
pub fn logic_immediate(l: Logic, g: &[u32; 16], at: u32, sr: u16, mem: &[u8], op: u32) -> Change
    ensures { result ≡ logic_immediate l g.now at sr (mapped mem.now) op }
{
    let pc = plus(at, 2);
    let v = match load(mem, pc, Size::Long) {
        Ok(v) => v,
        Err(x) => return refused(x),
    };
    let r = logic(l, data(g, op % 8), v);
    let next = plus(pc, 4);
    let codes = move_codes(Size::Long, r, sr);
    done(next, codes, no_write(), write_data(op % 8, r))
}

// ADDI and SUBI.
pub fn sum_immediate(add: bool, g: &[u32; 16], at: u32, mem: &[u8], op: u32) -> Change
    ensures { result ≡ sum_immediate add g.now at (mapped mem.now) op }
{
    let pc = plus(at, 2);
    let v = match load(mem, pc, Size::Long) {
        Ok(v) => v,
        Err(x) => return refused(x),
    };
    let r = sum_or_difference(add, Size::Long, v, data(g, op % 8), false);
    let next = plus(pc, 4);
    let codes = sum_codes(r);
    done(next, codes, no_write(), write_data(op % 8, r.value))
}

fn cmpi(z: Size, g: &[u32; 16], at: u32, sr: u16, mem: &[u8], op: u32) -> Change
    ensures { result ≡ cmpi_of z g.now at sr (mapped mem.now) op }
{
    let pc = plus(at, 2);
    let v = match value(g, mem, pc, Operand::Immediate, z) {
        Ok(v) => v,
        Err(x) => return refused(x),
    };
    let next = plus(pc, extension(Operand::Immediate, z));
    let r = subtracted(z, v, data(g, op % 8), false);
    let codes = compare_codes(sr, r);
    done(next, codes, no_write(), no_write())
}

// BTST, BCHG, BCLR and BSET of Dn.
pub fn bit_of_data(g: &[u32; 16], pc: u32, sr: u16, op: u32, n: u32) -> Change
    ensures { result ≡ bit_of_data g.now pc sr op n }
{
    let v = data(g, op % 8);
    let was = bit_of(n, v);
    let codes = test_codes(sr, !was);
    done(
        pc,
        codes,
        no_write(),
        write_data(op % 8, changed_bit(op / 64, n, v)),
    )
}

fn bit_of_byte(g: &[u32; 16], pc: u32, sr: u16, mem: &[u8], op: u32, n: u32) -> Change
    ensures { result ≡ bit_of_byte g.now pc sr (mapped mem.now) op n }
{
    let to = destination(g, mem, pc, op, Size::Byte);
    let v = match fetch(g, mem, to.place, Size::Byte) {
        Ok(v) => v,
        Err(x) => return refused(x),
    };
    let was = bit_of(n % 8, v);
    let codes = test_codes(sr, !was);
    if op / 64 % 4 == 0 {
        done(to.next, codes, to.moved, no_write())
    } else {
        let changed = changed_bit(op / 64, n % 8, v);
        put_to(g, codes, to, Size::Byte, changed)
    }
}

fn bit_operation(g: &[u32; 16], pc: u32, sr: u16, mem: &[u8], op: u32, n: u32) -> Change
    ensures { result ≡ bit_operation g.now pc sr (mapped mem.now) op n }
{
    if op / 8 % 8 == 0 {
        bit_of_data(g, pc, sr, op, n)
    } else {
        bit_of_byte(g, pc, sr, mem, op, n)
    }
}

fn bit_by_register(g: &[u32; 16], at: u32, sr: u16, mem: &[u8], op: u32) -> Change
    ensures { result ≡ bit_by_register g.now at sr (mapped mem.now) op }
{
    bit_operation(g, plus(at, 2), sr, mem, op, data(g, op / 512 % 8))
}

fn bit_by_immediate(g: &[u32; 16], at: u32, sr: u16, mem: &[u8], op: u32) -> Change
    ensures { result ≡ bit_by_immediate g.now at sr (mapped mem.now) op }
{
    let n = match load(mem, plus(at, 2), Size::Word) {
        Ok(n) => n,
        Err(x) => return refused(x),
    };
    bit_operation(g, plus(at, 4), sr, mem, op, n)
}

// What a word of line 0 changes, taken for the instruction of a row.
pub fn instruction(row: u8, g: &[u32; 16], at: u32, sr: u16, mem: &[u8], op: u32) -> Change
    ensures { result ≡ line0_of row g.now at sr (mapped mem.now) op }
{
    match row {
        rows::BITREV => bitrev(g, at, sr, op),
        rows::BYTEREV => byterev(g, at, sr, op),
        rows::FF1 => ff1(g, at, sr, op),
        rows::ORI => logic_immediate(Logic::Or, g, at, sr, mem, op),
        rows::ANDI => logic_immediate(Logic::And, g, at, sr, mem, op),
        rows::SUBI => sum_immediate(false, g, at, mem, op),
        rows::ADDI => sum_immediate(true, g, at, mem, op),
        rows::EORI => logic_immediate(Logic::Eor, g, at, sr, mem, op),
        rows::CMPI_B => cmpi(Size::Byte, g, at, sr, mem, op),
        rows::CMPI_W => cmpi(Size::Word, g, at, sr, mem, op),
        rows::CMPI_L => cmpi(Size::Long, g, at, sr, mem, op),
        rows::BITOP_IMM => bit_by_immediate(g, at, sr, mem, op),
        rows::BITOP_DN => bit_by_register(g, at, sr, mem, op),
        rows::ILL_0 => illegal(at, sr),
        _ => illegal(at, sr),
    }
}
