// Line C: AND, MULU.W and MULS.W.
#![tactic(auto, unfolding(instructions::specs::LineC::line_c, instructions::specs::LineC::logic_to_data, instructions::specs::LineC::mul_w, instructions::specs::LineC::product, instructions::specs::Rows::place_in))]

ghost use Rattle.std.specs.Prelude.{◌≡◌};
ghost use Rattle.instructions.specs.LineC.{logic_to_data, product as product_of, mul_w, line_c as line_c_of};
ghost use Rattle.manual.specs.Memory.{mapped};

use super::lineb::logic_to_place;
use address::changes::{done, illegal, refused};
use address::operands::source;
use arith::multiply::{signed_word_product, word_product};
use manual::{Change, Logic, Size};
use word::bits::logic;
use word::flags::move_codes;
use word::registers::{data, write_data};
use word::word::{merged, plus, size_of};

pub(crate) fn logic_to_data(
    l: Logic,
    g: &[u32; 16],
    at: u32,
    sr: u16,
    mem: &[u8],
    op: u32,
) -> Change
    ensures { result ≡ logic_to_data l g.now at sr (mapped mem.now) op }
{
    let z = size_of(op / 64);
    let from = source(g, mem, plus(at, 2), op, z);
    let v = match from.got {
        Ok(v) => v,
        Err(x) => return refused(x),
    };
    let old = data(g, op / 512 % 8);
    let r = logic(l, v, old);
    let codes = move_codes(z, r, sr);
    done(
        from.next,
        codes,
        from.moved,
        write_data(op / 512 % 8, merged(z, old, r)),
    )
}

// The product of MULS.W where `signs`, else of MULU.W.
pub fn product(signs: bool, x: u32, y: u32) -> u32
    ensures { result ≡ product_of signs x y }
{
    if signs {
        signed_word_product(x, y)
    } else {
        word_product(x, y)
    }
}

fn mul_w(signs: bool, g: &[u32; 16], at: u32, sr: u16, mem: &[u8], op: u32) -> Change
    ensures { result ≡ mul_w signs g.now at sr (mapped mem.now) op }
{
    let from = source(g, mem, plus(at, 2), op, Size::Word);
    let v = match from.got {
        Ok(v) => v,
        Err(x) => return refused(x),
    };
    let r = product(signs, data(g, op / 512 % 8), v);
    let codes = move_codes(Size::Long, r, sr);
    done(from.next, codes, from.moved, write_data(op / 512 % 8, r))
}

// What a word of line C changes, taken for the instruction of a row.
pub fn instruction(row: u8, g: &[u32; 16], at: u32, sr: u16, mem: &[u8], op: u32) -> Change
    ensures { result ≡ line_c_of row g.now at sr (mapped mem.now) op }
{
    match row {
        rows::MULU_W => mul_w(false, g, at, sr, mem, op),
        rows::MULS_W => mul_w(true, g, at, sr, mem, op),
        rows::AND_DN => logic_to_data(Logic::And, g, at, sr, mem, op),
        rows::AND_MEM => logic_to_place(Logic::And, g, at, sr, mem, op),
        _ => illegal(at, sr),
    }
}
