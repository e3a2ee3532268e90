// Line B: CMP, CMPA and EOR.
#![tactic(auto, unfolding(instructions::specs::LineB::cmp, instructions::specs::LineB::cmpa, instructions::specs::LineB::line_b, instructions::specs::LineB::logic_to_place, instructions::specs::Rows::place_in))]

ghost use Rattle.std.specs.Prelude.{◌≡◌};
ghost use Rattle.instructions.specs.LineB.{cmp as cmp_of, cmpa as cmpa_of, logic_to_place, line_b as line_b_of};
ghost use Rattle.manual.specs.Memory.{mapped};

use address::changes::{done, illegal, put_to, refused};
use address::operands::{destination, fetch, source};
use manual::{Change, Logic, Size};
use word::bits::logic;
use word::flags::{compare_codes, move_codes, subtracted};
use word::registers::{address_after, data, no_write};
use word::word::{plus, sign_extended, size_of};

fn cmp(g: &[u32; 16], at: u32, sr: u16, mem: &[u8], op: u32) -> Change
    ensures { result ≡ cmp_of g.now at sr (mapped mem.now) op }
{
    let z = size_of(op / 64);
    let from = source(g, mem, plus(at, 2), op, z);
    let v = match from.got {
        Ok(v) => v,
        Err(x) => return refused(x),
    };
    let r = subtracted(z, v, data(g, op / 512 % 8), false);
    let codes = compare_codes(sr, r);
    done(from.next, codes, from.moved, no_write())
}

fn cmpa(z: Size, g: &[u32; 16], at: u32, sr: u16, mem: &[u8], op: u32) -> Change
    ensures { result ≡ cmpa_of z g.now at sr (mapped mem.now) op }
{
    let from = source(g, mem, plus(at, 2), op, z);
    let v = match from.got {
        Ok(v) => v,
        Err(x) => return refused(x),
    };
    let old = address_after(g, from.moved, op / 512 % 8);
    let r = subtracted(Size::Long, sign_extended(z, v), old, false);
    let codes = compare_codes(sr, r);
    done(from.next, codes, from.moved, no_write())
}

pub(crate) fn logic_to_place(
    l: Logic,
    g: &[u32; 16],
    at: u32,
    sr: u16,
    mem: &[u8],
    op: u32,
) -> Change
    ensures { result ≡ logic_to_place l g.now at sr (mapped mem.now) op }
{
    let z = size_of(op / 64);
    let to = destination(g, mem, plus(at, 2), op, z);
    let v = match fetch(g, mem, to.place, z) {
        Ok(v) => v,
        Err(x) => return refused(x),
    };
    let r = logic(l, v, data(g, op / 512 % 8));
    put_to(g, move_codes(z, r, sr), to, z, r)
}

// What a word of line B changes, taken for the instruction of a row.
pub fn instruction(row: u8, g: &[u32; 16], at: u32, sr: u16, mem: &[u8], op: u32) -> Change
    ensures { result ≡ line_b_of row g.now at sr (mapped mem.now) op }
{
    match row {
        rows::CMPA_W => cmpa(Size::Word, g, at, sr, mem, op),
        rows::CMPA_L => cmpa(Size::Long, g, at, sr, mem, op),
        rows::CMP => cmp(g, at, sr, mem, op),
        rows::EOR => logic_to_place(Logic::Eor, g, at, sr, mem, op),
        _ => illegal(at, sr),
    }
}
