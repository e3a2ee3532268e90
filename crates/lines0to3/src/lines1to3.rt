// Lines 1, 2 and 3: MOVE and MOVEA.
#![tactic(auto, unfolding(crate::specs::MoveLaws::move_to, crate::specs::MoveLaws::move_to_data, crate::specs::MoveLines::move_line, crate::specs::MoveLines::move_row, crate::specs::MoveLines::move_size, crate::specs::MoveLines::movea_row, instructions::specs::Moves::movea, manual::specs::Address::destination_of, manual::specs::Registers::written))]

ghost use Rattle.std.specs.Prelude.{◌≡◌, ◌+◌, ◌*◌, ◌/◌, ◌%◌, ◌<◌};
ghost use Rattle.manual.specs.Memory.{mapped};
ghost use Rattle.manual.specs.Registers.{written as written_of};
ghost use Rattle.instructions.specs.Moves.{move as move_of, movea as movea_of};
ghost use Rattle.lines0to3.specs.MoveLaws.{move_to};
ghost use Rattle.lines0to3.specs.MoveLines.{move_size, movea_row, move_row, move_line};

use address::changes::{done, illegal, put, refused};
use address::operands::{extension, locate, moved, operand, source};
use manual::{Change, Operand, Size, Write};
use word::flags::{kept_codes, move_codes};
use word::registers::{data, write, write_address, write_data};
use word::word::{merged, plus, sign_extended};

// A value put to an operand whose extension words are at pc, the registers being those after another operand's move.
pub fn move_to(
    z: Size,
    g: &[u32; 16],
    sr: u16,
    mem: &[u8],
    pc: u32,
    first: Write,
    o: Operand,
    v: u32,
) -> Change
    ensures { result ≡ move_to z g.now sr (mapped mem.now) pc first o v }
{
    let place = locate(g, mem, pc, o, z);
    let codes = move_codes(z, v, sr);
    let next = plus(pc, extension(o, z));
    put(g, next, codes, first, moved(g, o, z), place, z, v)
}

// The registers after an operand's move.
// Apart, so that a MOVE to a register makes no room for the copy.
pub fn written(g: &[u32; 16], w: Write) -> [u32; 16]
    ensures { result ≡ written_of w g.now }
{
    let mut after = *g;
    write(&mut after, w);
    after
}

fn op_move(z: Size, g: &[u32; 16], at: u32, sr: u16, mem: &[u8], op: u32) -> Change
    ensures { result ≡ move_of z g.now at sr (mapped mem.now) op }
{
    let from = source(g, mem, plus(at, 2), op, z);
    let v = match from.got {
        Ok(v) => v,
        Err(x) => return refused(x),
    };
    let mode = op / 64 % 8;
    // Dn is no other case, only sooner done.
    if mode == 0 {
        let old = data(g, op / 512 % 8);
        let codes = move_codes(z, v, sr);
        done(
            from.next,
            codes,
            from.moved,
            write_data(op / 512 % 8, merged(z, old, v)),
        )
    } else {
        let after = written(g, from.moved);
        let target = operand(mode, op / 512 % 8);
        move_to(z, &after, sr, mem, from.next, from.moved, target, v)
    }
}

fn movea(z: Size, g: &[u32; 16], at: u32, sr: u16, mem: &[u8], op: u32) -> Change
    ensures { result ≡ movea_of z g.now at sr (mapped mem.now) op }
{
    let from = source(g, mem, plus(at, 2), op, z);
    let v = match from.got {
        Ok(v) => v,
        Err(x) => return refused(x),
    };
    let codes = kept_codes(sr);
    let whole = write_address(op / 512 % 8, sign_extended(z, v));
    done(from.next, codes, from.moved, whole)
}

// The size of a line's MOVE. This and the two tables below are those of MoveLines: a row is a number of one line, and has no size.
fn move_size(line: u8) -> Size
    ensures { result ≡ move_size line }
{
    match line {
        1 => Size::Byte,
        2 => Size::Long,
        _ => Size::Word,
    }
}

// MOVEA's row of a line.
fn movea_row(line: u8) -> u8
    ensures { result ≡ movea_row line }
{
    match line {
        1 => rows::MOVEA_B,
        2 => rows::MOVEA_L,
        _ => rows::MOVEA_W,
    }
}

// MOVE's row of a line.
fn move_row(line: u8) -> u8
    ensures { result ≡ move_row line }
{
    match line {
        1 => rows::MOVE_B,
        2 => rows::MOVE_L,
        _ => rows::MOVE_W,
    }
}

// What a word of line 1, 2 or 3 changes, taken for the instruction of a row.
// Their bodies have one caller, so that a compiler puts them into the loop.
pub fn instruction(
    line: u8,
    row: u8,
    g: &[u32; 16],
    at: u32,
    sr: u16,
    mem: &[u8],
    op: u32,
) -> Change
    ensures { result ≡ move_line line row g.now at sr (mapped mem.now) op }
{
    let z = move_size(line);
    if row == movea_row(line) {
        return movea(z, g, at, sr, mem, op);
    }
    if row == move_row(line) {
        return op_move(z, g, at, sr, mem, op);
    }
    illegal(at, sr)
}
