// Line 4: addresses, jumps, the stack and MOVEM.
#![tactic(auto, unfolding(crate::specs::ControlAddress::control_address, instructions::specs::Line4::jmp, instructions::specs::Line4::jsr, instructions::specs::Line4::lea, instructions::specs::Line4::link, instructions::specs::Line4::many, instructions::specs::Line4::movem, instructions::specs::Line4::nop, instructions::specs::Line4::pea, instructions::specs::Line4::rts, instructions::specs::Line4::trap, instructions::specs::Line4::unlk, manual::specs::Change::acting, manual::specs::Registers::no_write))]

ghost use Rattle.std.specs.Prelude.{◌≡◌, ◌+◌, ◌*◌, ◌/◌, ◌%◌, ◌<◌};
ghost use Rattle.manual.specs.Memory.{mapped};
ghost use Rattle.manual.specs.Registers.{no_write};
ghost use Rattle.manual.specs.Change.{acting as acting_of};
ghost use Rattle.line4.specs.ControlAddress.{control_address as control_address_of};
ghost use Rattle.instructions.specs.Line4.{nop as nop_of, lea as lea_of, pea as pea_of, jsr as jsr_of, jmp as jmp_of, rts as rts_of, trap as trap_of, link as link_of, unlk as unlk_of, many as many_of, movem as movem_of};

use address::changes::{acting, done, enter, illegal, jump, push, refused, store};
use address::operands::{control, extension, operand};
use manual::{Action, Change, Size};
use memory::load;
use word::flags::kept_codes;
use word::registers::{address, no_write, write_address};
use word::word::{minus, plus, sign_extended};

// NOP and PULSE: nothing but the PC.
pub fn nop(at: u32, sr: u16) -> Change
    ensures { result ≡ nop_of at sr }
{
    jump(sr, plus(at, 2))
}

// The address that LEA, PEA, JSR and JMP work on, and the next instruction's.
#[derive(Clone, Copy)]
pub struct Way {
    pub address: u32,
    pub next: u32,
}

// The way, or the change of an instruction that gets none.
fn control_address(g: &[u32; 16], at: u32, sr: u16, mem: &[u8], op: u32) -> Result<Way, Change>
    ensures { result ≡ control_address_of g.now at sr (mapped mem.now) op }
{
    let pc = plus(at, 2);
    let target = operand(op / 8 % 8, op % 8);
    let next = plus(pc, extension(target, Size::Long));
    match control(g, mem, pc, target) {
        Some(Ok(address)) => Ok(Way { address, next }),
        Some(Err(x)) => Err(refused(x)),
        None => Err(illegal(at, sr)),
    }
}

// LEA: the operand's address to An.
pub fn lea(g: &[u32; 16], at: u32, sr: u16, mem: &[u8], op: u32) -> Change
    ensures { result ≡ lea_of g.now at sr (mapped mem.now) op }
{
    match control_address(g, at, sr, mem, op) {
        Ok(way) => done(
            way.next,
            kept_codes(sr),
            no_write(),
            write_address(op / 512 % 8, way.address),
        ),
        Err(e) => e,
    }
}

// PEA: the operand's address is pushed.
pub fn pea(g: &[u32; 16], at: u32, sr: u16, mem: &[u8], op: u32) -> Change
    ensures { result ≡ pea_of g.now at sr (mapped mem.now) op }
{
    match control_address(g, at, sr, mem, op) {
        Ok(way) => push(g, sr, way.next, way.address),
        Err(e) => e,
    }
}

// JSR: the address of the next instruction is pushed, and the program goes on at the operand's.
pub fn jsr(g: &[u32; 16], at: u32, sr: u16, mem: &[u8], op: u32) -> Change
    ensures { result ≡ jsr_of g.now at sr (mapped mem.now) op }
{
    match control_address(g, at, sr, mem, op) {
        Ok(way) => push(g, sr, way.address, way.next),
        Err(e) => e,
    }
}

// JMP: the program goes on at the operand's address.
pub fn jmp(g: &[u32; 16], at: u32, sr: u16, mem: &[u8], op: u32) -> Change
    ensures { result ≡ jmp_of g.now at sr (mapped mem.now) op }
{
    match control_address(g, at, sr, mem, op) {
        Ok(way) => jump(sr, way.address),
        Err(e) => e,
    }
}

// RTS: the PC is popped.
pub fn rts(g: &[u32; 16], sr: u16, mem: &[u8]) -> Change
    ensures { result ≡ rts_of g.now sr (mapped mem.now) }
{
    let sp = address(g, 7);
    let v = match load(mem, sp, Size::Long) {
        Ok(v) => v,
        Err(x) => return refused(x),
    };
    let codes = kept_codes(sr);
    let popped = write_address(7, plus(sp, 4));
    done(v, codes, popped, no_write())
}

// TRAP: vector 32 and up, with the next instruction's PC.
pub fn trap(at: u32, sr: u16, op: u32) -> Change
    ensures { result ≡ trap_of at sr op }
{
    let vector = (32 + op % 16) as u8;
    enter(sr, vector, plus(at, 2))
}

// LINK: An is pushed and takes the stack pointer, to which the displacement is added.
pub fn link(g: &[u32; 16], at: u32, sr: u16, mem: &[u8], op: u32) -> Change
    ensures { result ≡ link_of g.now at sr (mapped mem.now) op }
{
    let pc = plus(at, 2);
    let sp = minus(address(g, 7), 4);
    let d = match load(mem, pc, Size::Word) {
        Ok(d) => d,
        Err(x) => return refused(x),
    };
    let next = plus(pc, 2);
    let codes = kept_codes(sr);
    let frame = write_address(op % 8, sp);
    let top = write_address(7, plus(sp, sign_extended(Size::Word, d)));
    store(next, codes, frame, top, sp, Size::Long, address(g, op % 8))
}

// UNLK: the stack pointer is An, and An is popped.
pub fn unlk(g: &[u32; 16], at: u32, sr: u16, mem: &[u8], op: u32) -> Change
    ensures { result ≡ unlk_of g.now at sr (mapped mem.now) op }
{
    let a = address(g, op % 8);
    let v = match load(mem, a, Size::Long) {
        Ok(v) => v,
        Err(x) => return refused(x),
    };
    let next = plus(at, 2);
    let codes = kept_codes(sr);
    let top = write_address(7, plus(a, 4));
    done(next, codes, top, write_address(op % 8, v))
}

fn many(storing: bool, sr: u16, next: u32, mask: u32, a: u32) -> Change
    ensures { result ≡ acting_of sr next no_write (many_of storing mask a) }
{
    if storing {
        acting(sr, next, no_write(), Action::StoreMany(mask, a))
    } else {
        acting(sr, next, no_write(), Action::LoadMany(mask, a))
    }
}

// MOVEM to memory where `storing`, else from it.
pub fn movem(storing: bool, g: &[u32; 16], at: u32, sr: u16, mem: &[u8], op: u32) -> Change
    ensures { result ≡ movem_of storing g.now at sr (mapped mem.now) op }
{
    let pc = plus(at, 2);
    let a = address(g, op % 8);
    let mask = match load(mem, pc, Size::Word) {
        Ok(mask) => mask,
        Err(x) => return refused(x),
    };
    if op / 8 % 8 == 2 {
        return many(storing, sr, plus(pc, 2), mask, a);
    }
    if op / 8 % 8 != 5 {
        return illegal(at, sr);
    }
    let d = match load(mem, plus(pc, 2), Size::Word) {
        Ok(d) => d,
        Err(x) => return refused(x),
    };
    let next = plus(pc, 4);
    many(
        storing,
        sr,
        next,
        mask,
        plus(a, sign_extended(Size::Word, d)),
    )
}
