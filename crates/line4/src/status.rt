// Line 4: the status register, the control registers, and what the supervisor alone may do.
#![tactic(auto, unfolding(instructions::specs::Line4::halt, instructions::specs::Line4::move_from_ccr, instructions::specs::Line4::move_from_sr, instructions::specs::Line4::move_from_usp, instructions::specs::Line4::move_to_ccr, instructions::specs::Line4::move_to_sr, instructions::specs::Line4::move_to_usp, instructions::specs::Line4::movec, instructions::specs::Line4::rte, instructions::specs::Line4::stldsr, instructions::specs::Line4::stop, manual::specs::Change::privilege, manual::specs::Flags::kept_codes))]

ghost use Rattle.std.specs.Prelude.{◌≡◌, cond, ◌+◌, ◌*◌, ◌/◌, ◌%◌, ◌<◌};
ghost use Rattle.manual.specs.Memory.{mapped};
ghost use Rattle.manual.specs.Exceptions.{supervisor};
ghost use Rattle.manual.specs.Change.{privilege as privilege_of};
ghost use Rattle.instructions.specs.Line4.{rte as rte_of, stop as stop_of, stldsr as stldsr_of, halt as halt_of, move_to_usp, move_from_usp, move_from_sr, move_to_sr, move_from_ccr, move_to_ccr, movec as movec_of};

use address::changes::{acting, done, enter_after, illegal, privilege, refused};
use address::operands::source;
use manual::{Action, Change, Size};
use memory::load;
use state::control::control_register;
use word::flags::kept_codes;
use word::registers::{address, data, no_write, write_address, write_data};
use word::word::{merged, plus};

// What the supervisor alone may do. For anyone else it is a privilege violation.
fn privileged(at: u32, sr: u16, does: Change) -> Change
    ensures { result ≡ cond (supervisor sr) does (privilege_of at sr) }
{
    if sr / 0x2000 % 2 == 1 {
        does
    } else {
        privilege(at, sr)
    }
}

// RTE: the return, or vector 8 for a user.
pub fn rte(at: u32, sr: u16) -> Change
    ensures { result ≡ rte_of at sr }
{
    let next = plus(at, 2);
    privileged(at, sr, acting(sr, next, no_write(), Action::Return))
}

// STOP: a new status register, and stopped; or vector 8 for a user.
pub fn stop(at: u32, sr: u16, mem: &[u8]) -> Change
    ensures { result ≡ stop_of at sr (mapped mem.now) }
{
    let pc = plus(at, 2);
    let v = match load(mem, pc, Size::Word) {
        Ok(v) => v,
        Err(x) => return refused(x),
    };
    let next = plus(pc, 2);
    privileged(at, sr, acting(sr, next, no_write(), Action::Stop(v)))
}

// STLDSR: the status register pushed, and a new one; or vector 8 for a user.
pub fn stldsr(at: u32, sr: u16, mem: &[u8]) -> Change
    ensures { result ≡ stldsr_of at sr (mapped mem.now) }
{
    let pc = plus(at, 2);
    let w = match load(mem, pc, Size::Word) {
        Ok(w) => w,
        Err(x) => return refused(x),
    };
    if w != 0x46FC {
        return illegal(at, sr);
    }
    let v = match load(mem, plus(pc, 2), Size::Word) {
        Ok(v) => v,
        Err(x) => return refused(x),
    };
    let next = plus(pc, 4);
    privileged(at, sr, acting(sr, next, no_write(), Action::PushStatus(v)))
}

// HALT: stopped.
pub fn halt(at: u32, sr: u16) -> Change
    ensures { result ≡ halt_of at sr }
{
    acting(sr, plus(at, 2), no_write(), Action::Halt)
}

// MOVE to USP, or vector 8 for a user.
pub fn move_to_usp(g: &[u32; 16], at: u32, sr: u16, op: u32) -> Change
    ensures { result ≡ move_to_usp g.now at sr op }
{
    let next = plus(at, 2);
    let a = address(g, op % 8);
    privileged(at, sr, acting(sr, next, no_write(), Action::SetOther(a)))
}

// MOVE from USP, or vector 8 for a user.
pub fn move_from_usp(at: u32, sr: u16, other: u32, op: u32) -> Change
    ensures { result ≡ move_from_usp at sr other op }
{
    let next = plus(at, 2);
    let codes = kept_codes(sr);
    privileged(
        at,
        sr,
        done(next, codes, no_write(), write_address(op % 8, other)),
    )
}

// MOVE from SR to Dn, or vector 8 for a user.
pub fn move_from_sr(g: &[u32; 16], at: u32, sr: u16, op: u32) -> Change
    ensures { result ≡ move_from_sr g.now at sr op }
{
    if op / 8 % 8 == 0 {
        let next = plus(at, 2);
        let codes = kept_codes(sr);
        let low = merged(Size::Word, data(g, op % 8), sr as u32);
        privileged(
            at,
            sr,
            done(next, codes, no_write(), write_data(op % 8, low)),
        )
    } else {
        privileged(at, sr, illegal(at, sr))
    }
}

// MOVE to SR, or vector 8 for a user.
pub fn move_to_sr(g: &[u32; 16], at: u32, sr: u16, mem: &[u8], op: u32) -> Change
    ensures { result ≡ move_to_sr g.now at sr (mapped mem.now) op }
{
    let from = source(g, mem, plus(at, 2), op, Size::Word);
    let v = match from.got {
        Ok(v) => v,
        Err(x) => return refused(x),
    };
    if sr / 0x2000 % 2 == 1 {
        acting(sr, from.next, from.moved, Action::Status(v))
    } else {
        enter_after(from.moved, sr, 8, at)
    }
}

// MOVE from CCR to Dn.
pub fn move_from_ccr(g: &[u32; 16], at: u32, sr: u16, op: u32) -> Change
    ensures { result ≡ move_from_ccr g.now at sr op }
{
    let next = plus(at, 2);
    let codes = kept_codes(sr);
    let low = merged(Size::Word, data(g, op % 8), codes);
    done(next, codes, no_write(), write_data(op % 8, low))
}

// MOVE to CCR.
pub fn move_to_ccr(g: &[u32; 16], at: u32, mem: &[u8], op: u32) -> Change
    ensures { result ≡ move_to_ccr g.now at (mapped mem.now) op }
{
    let from = source(g, mem, plus(at, 2), op, Size::Word);
    let v = match from.got {
        Ok(v) => v,
        Err(x) => return refused(x),
    };
    done(from.next, v % 32, from.moved, no_write())
}

// MOVEC to a control register or from it, or vector 8 for a user; vector 4 where the number names none.
pub fn movec(writes: bool, at: u32, sr: u16, mem: &[u8]) -> Change
    ensures { result ≡ movec_of writes at sr (mapped mem.now) }
{
    let pc = plus(at, 2);
    let w = match load(mem, pc, Size::Word) {
        Ok(w) => w,
        Err(outside) => return refused(outside),
    };
    let Some(c) = control_register(w % 0x1000) else {
        return privileged(at, sr, illegal(at, sr));
    };
    let next = plus(pc, 2);
    let action = Action::MoveControl(writes, c, w / 0x1000 % 16);
    privileged(at, sr, acting(sr, next, no_write(), action))
}
