// Line 4: instructions of one operand, products and quotients.
#![tactic(auto, unfolding(crate::specs::Words::word_and_long, instructions::specs::Line4::clr, instructions::specs::Line4::div_l, instructions::specs::Line4::divided, instructions::specs::Line4::ext_l, instructions::specs::Line4::ext_w, instructions::specs::Line4::extb, instructions::specs::Line4::mul_l, instructions::specs::Line4::neg, instructions::specs::Line4::negx, instructions::specs::Line4::not, instructions::specs::Line4::sats, instructions::specs::Line4::saturated, instructions::specs::Line4::swap, instructions::specs::Line4::tas, instructions::specs::Line4::tst, manual::specs::Change::done, manual::specs::Flags::move_codes, manual::specs::Multiply::long_product, manual::specs::Multiply::signed_long_product, manual::specs::Registers::no_write, manual::specs::Registers::write_data, manual::specs::Word::plus))]

ghost use Rattle.std.specs.Prelude.{◌≡◌, cond, eqb, ◌+◌, ◌*◌, ◌/◌, ◌%◌, ◌<◌};
ghost use Rattle.manual.specs.Memory.{mapped};
ghost use Rattle.manual.specs.declared.Size.TheVariants.{Long};
ghost use Rattle.manual.specs.Word.{plus as plus_of};
ghost use Rattle.manual.specs.Registers.{no_write, write_data};
ghost use Rattle.manual.specs.Flags.{move_codes};
ghost use Rattle.manual.specs.Multiply.{long_product, signed_long_product};
ghost use Rattle.manual.specs.Divide.{overflow_codes};
ghost use Rattle.manual.specs.Change.{done as done_of};
ghost use Rattle.line4.specs.Words.{word_and_long};
ghost use Rattle.instructions.specs.Line4.{extb as extb_of, ext_w, ext_l, swap as swap_of, saturated as saturated_of, sats as sats_of, neg as neg_of, negx as negx_of, not as not_of, clr as clr_of, tst as tst_of, tas as tas_of, mul_l, divided as divided_of, quotient_to, div_l};

use address::changes::{done, enter_after, put_to, refused};
use address::operands::{destination, fetch, source};
use arith::divide::{overflow_codes, quotient, signed_quotient};
use arith::multiply::{long_product, signed_long_product};
use manual::{Change, Fault, Quotient, Size, Write};
use memory::load;
use word::bits::with_bit;
use word::flags::{extended_codes, move_codes, subtracted, sum_codes};
use word::registers::{data, no_write, write_data};
use word::word::{cut, merged, plus, sign_extended, size_of};

// A long into Dn, with the condition codes of a move.
fn replaced(at: u32, sr: u16, op: u32, v: u32) -> Change
    ensures { result ≡ done_of (plus_of at 2) (move_codes Long v sr) no_write (write_data (op % 8) v) }
{
    let next = plus(at, 2);
    let codes = move_codes(Size::Long, v, sr);
    done(next, codes, no_write(), write_data(op % 8, v))
}

// EXTB: a byte to a long. EXTB, EXT.L and their kin are a definition each; `replaced` is what they share.
pub fn extb(g: &[u32; 16], at: u32, sr: u16, op: u32) -> Change
    ensures { result ≡ extb_of g.now at sr op }
{
    replaced(at, sr, op, sign_extended(Size::Byte, data(g, op % 8)))
}

// EXT.W: a byte to a word.
pub fn ext_w(g: &[u32; 16], at: u32, sr: u16, op: u32) -> Change
    ensures { result ≡ ext_w g.now at sr op }
{
    let old = data(g, op % 8);
    let v = cut(Size::Word, sign_extended(Size::Byte, old));
    let next = plus(at, 2);
    let codes = move_codes(Size::Word, v, sr);
    done(
        next,
        codes,
        no_write(),
        write_data(op % 8, merged(Size::Word, old, v)),
    )
}

// EXT.L: a word to a long.
pub fn ext_l(g: &[u32; 16], at: u32, sr: u16, op: u32) -> Change
    ensures { result ≡ ext_l g.now at sr op }
{
    replaced(at, sr, op, sign_extended(Size::Word, data(g, op % 8)))
}

// SWAP: the two words change places.
pub fn swap(g: &[u32; 16], at: u32, sr: u16, op: u32) -> Change
    ensures { result ≡ swap_of g.now at sr op }
{
    let old = data(g, op % 8);
    replaced(at, sr, op, old % 0x1_0000 * 0x1_0000 + old / 0x1_0000)
}

fn saturated(sr: u16, v: u32) -> u32
    ensures { result ≡ saturated_of sr v }
{
    if sr / 2 % 2 == 1 {
        if v < 0x8000_0000 {
            0x8000_0000
        } else {
            0x7FFF_FFFF
        }
    } else {
        v
    }
}

// SATS: after an overflow, the largest number of the sign that the value should have had.
pub fn sats(g: &[u32; 16], at: u32, sr: u16, op: u32) -> Change
    ensures { result ≡ sats_of g.now at sr op }
{
    replaced(at, sr, op, saturated(sr, data(g, op % 8)))
}

// NEG: 0 less Dn.
pub fn neg(g: &[u32; 16], at: u32, op: u32) -> Change
    ensures { result ≡ neg_of g.now at op }
{
    let r = subtracted(Size::Long, data(g, op % 8), 0, false);
    let next = plus(at, 2);
    let codes = sum_codes(r);
    done(next, codes, no_write(), write_data(op % 8, r.value))
}

// NEGX: 0 less Dn and X.
pub fn negx(g: &[u32; 16], at: u32, sr: u16, op: u32) -> Change
    ensures { result ≡ negx_of g.now at sr op }
{
    let r = subtracted(Size::Long, data(g, op % 8), 0, sr / 16 % 2 == 1);
    let next = plus(at, 2);
    let codes = extended_codes(sr, r);
    done(next, codes, no_write(), write_data(op % 8, r.value))
}

// NOT: every bit of Dn inverted.
pub fn not(g: &[u32; 16], at: u32, sr: u16, op: u32) -> Change
    ensures { result ≡ not_of g.now at sr op }
{
    replaced(at, sr, op, 0xFFFF_FFFF - data(g, op % 8))
}

// CLR: 0 to the operand's place.
pub fn clr(g: &[u32; 16], at: u32, sr: u16, mem: &[u8], op: u32) -> Change
    ensures { result ≡ clr_of g.now at sr (mapped mem.now) op }
{
    let z = size_of(op / 64);
    let to = destination(g, mem, plus(at, 2), op, z);
    put_to(g, move_codes(z, 0, sr), to, z, 0)
}

// TST: the operand's flags.
pub fn tst(g: &[u32; 16], at: u32, sr: u16, mem: &[u8], op: u32) -> Change
    ensures { result ≡ tst_of g.now at sr (mapped mem.now) op }
{
    let z = size_of(op / 64);
    let from = source(g, mem, plus(at, 2), op, z);
    let v = match from.got {
        Ok(v) => v,
        Err(x) => return refused(x),
    };
    let codes = move_codes(z, v, sr);
    done(from.next, codes, from.moved, no_write())
}

// TAS: the flags of a byte, whose highest bit is then set.
pub fn tas(g: &[u32; 16], at: u32, sr: u16, mem: &[u8], op: u32) -> Change
    ensures { result ≡ tas_of g.now at sr (mapped mem.now) op }
{
    let to = destination(g, mem, plus(at, 2), op, Size::Byte);
    let v = match fetch(g, mem, to.place, Size::Byte) {
        Ok(v) => v,
        Err(x) => return refused(x),
    };
    let codes = move_codes(Size::Byte, v, sr);
    put_to(g, codes, to, Size::Byte, with_bit(7, true, v))
}

// The product of MULS.L or MULU.L, as the second word says.
pub fn product(w: u32, d: u32, v: u32) -> u32
    ensures { result ≡ cond (eqb (w / 0x800 % 2) 1) (signed_long_product d v) (long_product d v) }
{
    if w / 0x800 % 2 == 1 {
        signed_long_product(d, v)
    } else {
        long_product(d, v)
    }
}

// What products and quotients of longs read: the second word, the operand's value, the next address and the operand's move.
#[derive(Clone, Copy)]
pub struct WordAndLong {
    pub word: u32,
    pub long: u32,
    pub next: u32,
    pub moved: Write,
}

fn word_and_long(g: &[u32; 16], at: u32, mem: &[u8], op: u32) -> Result<WordAndLong, Fault>
    ensures { result ≡ word_and_long g.now at (mapped mem.now) op }
{
    let pc = plus(at, 2);
    let word = load(mem, pc, Size::Word)?;
    let from = source(g, mem, plus(pc, 2), op, Size::Long);
    Ok(WordAndLong {
        word,
        long: from.got?,
        next: from.next,
        moved: from.moved,
    })
}

// MULS.L and MULU.L.
pub fn mul_l(g: &[u32; 16], at: u32, sr: u16, mem: &[u8], op: u32) -> Change
    ensures { result ≡ mul_l g.now at sr (mapped mem.now) op }
{
    let read = match word_and_long(g, at, mem, op) {
        Ok(read) => read,
        Err(x) => return refused(x),
    };
    let w = read.word;
    let r = product(w, data(g, w / 0x1000 % 8), read.long);
    let codes = move_codes(Size::Long, r, sr);
    done(read.next, codes, read.moved, write_data(w / 0x1000 % 8, r))
}

fn divided(w: u32, d: u32, v: u32) -> Option<Quotient>
    ensures { result ≡ divided_of w d v }
{
    if w / 0x800 % 2 == 1 {
        signed_quotient(d, v)
    } else {
        quotient(d, v)
    }
}

// The quotient, or the remainder where the second word names another register for it.
fn quotient_to(w: u32, q: Quotient) -> Write
    ensures { result ≡ quotient_to w q }
{
    if w / 0x1000 % 8 == w % 8 {
        write_data(w % 8, q.quotient)
    } else {
        write_data(w % 8, q.remainder)
    }
}

// DIVS.L, DIVU.L, REMS.L and REMU.L; vector 5 for a divisor of 0.
pub fn div_l(g: &[u32; 16], at: u32, sr: u16, mem: &[u8], op: u32) -> Change
    ensures { result ≡ div_l g.now at sr (mapped mem.now) op }
{
    let read = match word_and_long(g, at, mem, op) {
        Ok(read) => read,
        Err(x) => return refused(x),
    };
    let w = read.word;
    if read.long == 0 {
        return enter_after(read.moved, sr, 5, read.next);
    }
    match divided(w, data(g, w / 0x1000 % 8), read.long) {
        Some(q) => {
            let codes = move_codes(Size::Long, q.quotient, sr);
            done(read.next, codes, read.moved, quotient_to(w, q))
        }
        None => done(read.next, overflow_codes(sr), read.moved, no_write()),
    }
}
