// Line F: cache and debug instructions, and the words of the missing floating-point unit.
#![tactic(auto, unfolding(instructions::specs::LineF::cache_line, instructions::specs::LineF::line_f, instructions::specs::LineF::wddata, instructions::specs::LineF::wdebug, instructions::specs::Rows::place_in))]

ghost use Rattle.std.specs.Prelude.{◌≡◌};
ghost use Rattle.manual.specs.Memory.{mapped};
ghost use Rattle.instructions.specs.LineF.{wdebug as wdebug_of, cache_line, wddata as wddata_of, line_f as line_f_of};

use address::changes::{done, enter, illegal, jump, privilege, refused};
use address::operands::{control, destination, extension, operand};
use manual::{Change, Size};
use word::flags::kept_codes;
use word::registers::no_write;
use word::word::{plus, size_of};

fn wdebug(g: &[u32; 16], at: u32, sr: u16, mem: &[u8], op: u32) -> Change
    ensures { result ≡ wdebug_of g.now at sr (mapped mem.now) op }
{
    let target = operand(op / 8 % 8, op % 8);
    let pc = plus(at, 2);
    let Some(got) = control(g, mem, pc, target) else {
        return jump(sr, plus(pc, 2));
    };
    match got {
        Ok(_) => jump(sr, plus(plus(pc, extension(target, Size::Long)), 2)),
        Err(x) => refused(x),
    }
}

fn cache_line(at: u32, sr: u16) -> Change
    ensures { result ≡ cache_line at sr }
{
    if sr / 0x2000 % 2 == 1 {
        jump(sr, plus(at, 2))
    } else {
        privilege(at, sr)
    }
}

fn wddata(g: &[u32; 16], at: u32, sr: u16, mem: &[u8], op: u32) -> Change
    ensures { result ≡ wddata_of g.now at sr (mapped mem.now) op }
{
    let to = destination(g, mem, plus(at, 2), op, size_of(op / 64));
    match to.place {
        Ok(_) => done(to.next, kept_codes(sr), to.moved, no_write()),
        Err(x) => refused(x),
    }
}

// What a word of line F changes, taken for the instruction of a row.
pub fn instruction(row: u8, g: &[u32; 16], at: u32, sr: u16, mem: &[u8], op: u32) -> Change
    ensures { result ≡ line_f_of row g.now at sr (mapped mem.now) op }
{
    match row {
        rows::WDEBUG => wdebug(g, at, sr, mem, op),
        rows::CACHE => cache_line(at, sr),
        rows::WDDATA => wddata(g, at, sr, mem, op),
        rows::LINEF => enter(sr, 11, at),
        _ => illegal(at, sr),
    }
}
