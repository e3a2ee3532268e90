// Line A: MAC and MSAC, with and without a load.
#![tactic(auto, unfolding(instructions::specs::LineA::load_address, instructions::specs::LineA::load_moves, instructions::specs::LineA::mac, instructions::specs::LineA::mac_load, instructions::specs::LineA::mac_registers, instructions::specs::LineA::mac_with_load, instructions::specs::LineA::operand))]

ghost use Rattle.std.specs.Prelude.{◌≡◌, ◌+◌, ◌*◌, ◌/◌, ◌%◌, ◌<◌};
ghost use Rattle.manual.specs.Memory.{mapped};
ghost use Rattle.instructions.specs.LineA.{operand as operand_of, accumulating as accumulating_of, mac_registers, load_moves, load_address, mac_load, mac_with_load, mac as mac_of};

use address::changes::{acting, enter, refused};
use emac::flags::mode_of;
use emac::operand::mac_word;
use manual::{Action, Change, Size, Write};
use memory::load;
use word::flags::kept_codes;
use word::registers::{address, general, no_write, write_address, write_general};
use word::word::{minus, plus, sign_extended};

// An operand of a register's v: all of it, or where the second word says words, a half.
pub fn operand(macsr: u32, w: u32, upper: bool, v: u32) -> u32
    ensures { result ≡ operand_of macsr w upper v }
{
    if w / 0x800 % 2 == 0 {
        mac_word(mode_of(macsr), upper, v)
    } else {
        v
    }
}

// The sum that the second word says: the scale, the sign, and which halves where it says words.
fn accumulating(macsr: u32, w: u32, i: u32, rx: u32, ry: u32) -> Action
    ensures { result ≡ accumulating_of macsr w i rx ry }
{
    let x = operand(macsr, w, w / 128 % 2 == 1, rx);
    let y = operand(macsr, w, w / 64 % 2 == 1, ry);
    Action::Accumulate(i, w / 512 % 4, w / 256 % 2 == 1, x, y)
}

fn mac_registers(g: &[u32; 16], at: u32, sr: u16, macsr: u32, op: u32, w: u32) -> Change
    ensures { result ≡ mac_registers g.now at sr macsr op w }
{
    let next = plus(at, 4);
    let i = op / 128 % 2 + w / 16 % 2 * 2;
    let rx = general(g, op / 64 % 2 * 8 + op / 512 % 8);
    let ry = general(g, op % 16);
    acting(sr, next, no_write(), accumulating(macsr, w, i, rx, ry))
}

fn load_moves(op: u32, a: u32) -> Write
    ensures { result ≡ load_moves op a }
{
    match op / 8 % 8 {
        3 => write_address(op % 8, plus(a, 4)),
        4 => write_address(op % 8, a),
        _ => no_write(),
    }
}

// The address of a MAC's load, masked where the second word says so.
pub fn load_address(mask: u32, w: u32, base: u32) -> u32
    ensures { result ≡ load_address mask w base }
{
    if w / 32 % 2 == 1 { base & mask } else { base }
}

fn mac_load(
    g: &[u32; 16],
    next: u32,
    sr: u16,
    macsr: u32,
    mask: u32,
    mem: &[u8],
    op: u32,
    w: u32,
    base: u32,
) -> Change
    ensures { result ≡ mac_load g.now next sr macsr mask (mapped mem.now) op w base }
{
    let a = load_address(mask, w, base);
    let v = match load(mem, a, Size::Long) {
        Ok(v) => v,
        Err(x) => return refused(x),
    };
    let codes = kept_codes(sr);
    let loaded = write_general(op / 64 % 2 * 8 + op / 512 % 8, v);
    let stepped = load_moves(op, a);
    let i = 1 - op / 128 % 2 + w / 16 % 2 * 2;
    let rx = general(g, w / 0x1000 % 16);
    let ry = general(g, w % 16);
    let summed = accumulating(macsr, w, i, rx, ry);
    Change {
        pc: next,
        ccr: codes,
        first: loaded,
        second: stepped,
        action: summed,
    }
}

fn mac_with_load(
    g: &[u32; 16],
    at: u32,
    sr: u16,
    macsr: u32,
    mask: u32,
    mem: &[u8],
    op: u32,
    w: u32,
) -> Change
    ensures { result ≡ mac_with_load g.now at sr macsr mask (mapped mem.now) op w }
{
    let mode = op / 8 % 8;
    let a = address(g, op % 8);
    if 5 < mode {
        return enter(sr, 10, at);
    }
    if mode == 5 {
        let d = match load(mem, plus(at, 4), Size::Word) {
            Ok(d) => d,
            Err(x) => return refused(x),
        };
        let base = plus(a, sign_extended(Size::Word, d));
        return mac_load(g, plus(at, 6), sr, macsr, mask, mem, op, w, base);
    }
    let next = plus(at, 4);
    if mode == 4 {
        mac_load(g, next, sr, macsr, mask, mem, op, w, minus(a, 4))
    } else {
        mac_load(g, next, sr, macsr, mask, mem, op, w, a)
    }
}

pub(crate) fn mac(
    g: &[u32; 16],
    at: u32,
    sr: u16,
    macsr: u32,
    mask: u32,
    mem: &[u8],
    op: u32,
) -> Change
    ensures { result ≡ mac_of g.now at sr macsr mask (mapped mem.now) op }
{
    let w = match load(mem, plus(at, 2), Size::Word) {
        Ok(w) => w,
        Err(x) => return refused(x),
    };
    if op / 16 % 4 == 0 {
        mac_registers(g, at, sr, macsr, op, w)
    } else {
        mac_with_load(g, at, sr, macsr, mask, mem, op, w)
    }
}
