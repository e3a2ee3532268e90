// Line 8: OR, DIVU.W and DIVS.W. It stands here because OR is line C's AND with the other operation.
#![tactic(auto, unfolding(instructions::specs::Line8::div_w, instructions::specs::Line8::line8, instructions::specs::Line8::word_divided, instructions::specs::Rows::place_in))]

ghost use Rattle.std.specs.Prelude.{◌≡◌};
ghost use Rattle.manual.specs.Memory.{mapped};
ghost use Rattle.instructions.specs.Line8.{word_divided, div_w, line8 as line8_of};

use super::lineb::logic_to_place;
use super::linec::logic_to_data;
use address::changes::{done, enter_after, illegal, refused};
use address::operands::source;
use arith::divide::{overflow_codes, signed_word_quotient, word_quotient};
use manual::{Change, Logic, Quotient, Size};
use word::flags::move_codes;
use word::registers::{data, no_write, write_data};
use word::word::plus;

// The quotient of DIVS.W where `signs`, else of DIVU.W.
fn word_divided(signs: bool, d: u32, v: u32) -> Option<Quotient>
    ensures { result ≡ word_divided signs d v }
{
    if signs {
        signed_word_quotient(d, v)
    } else {
        word_quotient(d, v)
    }
}

fn div_w(signs: bool, g: &[u32; 16], at: u32, sr: u16, mem: &[u8], op: u32) -> Change
    ensures { result ≡ div_w signs g.now at sr (mapped mem.now) op }
{
    let from = source(g, mem, plus(at, 2), op, Size::Word);
    let v = match from.got {
        Ok(v) => v,
        Err(x) => return refused(x),
    };
    if v == 0 {
        return enter_after(from.moved, sr, 5, from.next);
    }
    match word_divided(signs, data(g, op / 512 % 8), v) {
        Some(q) => {
            let codes = move_codes(Size::Word, q.quotient, sr);
            let both = q.remainder % 0x1_0000 * 0x1_0000 + q.quotient % 0x1_0000;
            done(from.next, codes, from.moved, write_data(op / 512 % 8, both))
        }
        None => done(from.next, overflow_codes(sr), from.moved, no_write()),
    }
}

// What a word of line 8 changes, taken for the instruction of a row.
pub fn instruction(row: u8, g: &[u32; 16], at: u32, sr: u16, mem: &[u8], op: u32) -> Change
    ensures { result ≡ line8_of row g.now at sr (mapped mem.now) op }
{
    match row {
        rows::DIVU_W => div_w(false, g, at, sr, mem, op),
        rows::DIVS_W => div_w(true, g, at, sr, mem, op),
        rows::OR_DN => logic_to_data(Logic::Or, g, at, sr, mem, op),
        rows::OR_MEM => logic_to_place(Logic::Or, g, at, sr, mem, op),
        _ => illegal(at, sr),
    }
}
