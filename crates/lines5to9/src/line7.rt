// Line 7: MOVEQ, MVS and MVZ.
#![tactic(auto, unfolding(instructions::specs::Line7::line7, instructions::specs::Line7::moveq, instructions::specs::Line7::mvs, instructions::specs::Line7::mvz, instructions::specs::Rows::place_in))]

ghost use Rattle.std.specs.Prelude.{◌≡◌, ◌+◌, ◌*◌, ◌/◌, ◌%◌};
ghost use Rattle.manual.specs.Memory.{mapped};
ghost use Rattle.instructions.specs.Line7.{moveq as moveq_of, mvs as mvs_of, mvz as mvz_of, line7 as line7_of};

use address::changes::{done, illegal, refused};
use address::operands::source;
use manual::{Change, Size};
use word::flags::move_codes;
use word::registers::{no_write, write_data};
use word::word::{byte_or_word, plus, sign_extended};

// MOVEQ: a byte, sign-extended, to Dn.
pub fn moveq(at: u32, sr: u16, op: u32) -> Change
    ensures { result ≡ moveq_of at sr op }
{
    let v = sign_extended(Size::Byte, op);
    let next = plus(at, 2);
    let codes = move_codes(Size::Long, v, sr);
    done(next, codes, no_write(), write_data(op / 512 % 8, v))
}

fn mvs(g: &[u32; 16], at: u32, sr: u16, mem: &[u8], op: u32) -> Change
    ensures { result ≡ mvs_of g.now at sr (mapped mem.now) op }
{
    let z = byte_or_word(op);
    let from = source(g, mem, plus(at, 2), op, z);
    let v = match from.got {
        Ok(v) => v,
        Err(x) => return refused(x),
    };
    let whole = sign_extended(z, v);
    let codes = move_codes(Size::Long, whole, sr);
    done(
        from.next,
        codes,
        from.moved,
        write_data(op / 512 % 8, whole),
    )
}

fn mvz(g: &[u32; 16], at: u32, sr: u16, mem: &[u8], op: u32) -> Change
    ensures { result ≡ mvz_of g.now at sr (mapped mem.now) op }
{
    let from = source(g, mem, plus(at, 2), op, byte_or_word(op));
    let v = match from.got {
        Ok(v) => v,
        Err(x) => return refused(x),
    };
    let codes = move_codes(Size::Long, v, sr);
    done(from.next, codes, from.moved, write_data(op / 512 % 8, v))
}

// What a word of line 7 changes, taken for the instruction of a row.
pub fn instruction(row: u8, g: &[u32; 16], at: u32, sr: u16, mem: &[u8], op: u32) -> Change
    ensures { result ≡ line7_of row g.now at sr (mapped mem.now) op }
{
    match row {
        rows::MVS => mvs(g, at, sr, mem, op),
        rows::MVZ => mvz(g, at, sr, mem, op),
        rows::MOVEQ => moveq(at, sr, op),
        _ => illegal(at, sr),
    }
}
