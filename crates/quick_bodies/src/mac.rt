// MAC and MSAC, done in place.
#![tactic(auto, unfolding(crate::specs::Units::in_unit, instructions::specs::LineA::load_moves, instructions::specs::LineA::mac, instructions::specs::LineA::mac_registers, instructions::specs::LineA::mac_with_load, manual::specs::Change::acting, manual::specs::Registers::no_write, manual::specs::Registers::written))]

ghost use Rattle.std.specs.Prelude.{◌≡◌, Some, ℕ, ◌+◌, ◌*◌, ◌/◌, ◌%◌};
ghost use Rattle.manual.specs.Memory.{mapped};
ghost use Rattle.manual.specs.declared.Emac.{Emac};
ghost use Rattle.manual.specs.Emac.{emac_of};
ghost use Rattle.instructions.specs.LineA.{mac_registers, mac_with_load, mac};
ghost use Rattle.quick_bodies.specs.Units.{product_by, once_summed, agreed_product, from_spot, after_mac, agreed_mac};

use emac::sum::accumulate_plainly;
use linea::mac::{load_address, operand};
use manual::Size;
use memory::load;
use quick_parts::Spot;
use word::registers::{address, general, no_write, write, write_address, write_general};
use word::word::{minus, plus, sign_extended};

// What is yet to be summed, the registers being written: the next address, the accumulator's number, the scale, whether it is
// subtracted, and the factors.
#[derive(Clone, Copy)]
struct Product {
    next: u32,
    accumulator: u32,
    scale: u32,
    subtracted: bool,
    x: u32,
    y: u32,
}

// The product that the second word says: the scale, the sign, and which halves where it says words.
fn product_by(next: u32, macsr: u32, w: u32, i: u32, rx: u32, ry: u32) -> Product
    ensures { result ≡ product_by next macsr w i rx ry }
{
    Product {
        next,
        accumulator: i,
        scale: w / 512 % 4,
        subtracted: w / 256 % 2 == 1,
        x: operand(macsr, w, w / 128 % 2 == 1, rx),
        y: operand(macsr, w, w / 64 % 2 == 1, ry),
    }
}

// Of two registers, w being the second word.
fn mac_registers(g: &[u32; 16], pc: u32, macsr: u32, op: u32, w: u32) -> Product
    ensures { (sr : ℕ) (e : Emac) → once_summed (Some result) sr e g.now ≡ agreed_product (Some result) (mac_registers g.now pc sr macsr op w) sr e g.now }
{
    let i = op / 128 % 2 + w / 16 % 2 * 2;
    let rx = general(g, op / 64 % 2 * 8 + op / 512 % 8);
    let ry = general(g, op % 16);
    product_by(plus(pc, 4), macsr, w, i, rx, ry)
}

// Where the long is, and the move of its register from there. None: modes 6 and 7, which are no MAC, and a displacement outside. One
// match answers both for a masked address as for another, so that the mask costs its test alone.
fn load_spot(g: &[u32; 16], pc: u32, mask: u32, mem: &[u8], op: u32, w: u32) -> Option<Spot>
    ensures { (sr macsr : ℕ) → from_spot result g.now sr macsr (mapped mem.now) op w (mac_with_load g.now pc sr macsr mask (mapped mem.now) op w) ≡ mac_with_load g.now pc sr macsr mask (mapped mem.now) op w }
{
    let r = address(g, op % 8);
    let (at, next, moved) = match op / 8 % 8 {
        2 => (load_address(mask, w, r), plus(pc, 4), no_write()),
        3 => {
            let a = load_address(mask, w, r);
            (a, plus(pc, 4), write_address(op % 8, plus(a, 4)))
        }
        4 => {
            let a = load_address(mask, w, minus(r, 4));
            (a, plus(pc, 4), write_address(op % 8, a))
        }
        5 => {
            let d = load(mem, plus(pc, 4), Size::Word).ok()?;
            let a = load_address(mask, w, plus(r, sign_extended(Size::Word, d)));
            (a, plus(pc, 6), no_write())
        }
        _ => return None,
    };
    Some(Spot { at, next, moved })
}

// With a load. None: a spot that is far, and a long outside. The factors are the registers as they were.
fn mac_with_load(
    g: &mut [u32; 16],
    pc: u32,
    macsr: u32,
    mask: u32,
    mem: &[u8],
    op: u32,
    w: u32,
) -> Option<Product>
    ensures { (sr : ℕ) (e : Emac) → once_summed result sr e g.new ≡ agreed_product result (mac_with_load g.old pc sr macsr mask (mapped mem.now) op w) sr e g.old }
{
    let Spot { at, next, moved } = load_spot(&*g, pc, mask, mem, op, w)?;
    let v = load(mem, at, Size::Long).ok()?;
    let i = 1 - op / 128 % 2 + w / 16 % 2 * 2;
    let rx = general(&*g, w / 0x1000 % 16);
    let ry = general(&*g, w % 16);
    write(g, write_general(op / 64 % 2 * 8 + op / 512 % 8, v));
    write(g, moved);
    Some(product_by(next, macsr, w, i, rx, ry))
}

// Of either form.
fn mac_product(
    g: &mut [u32; 16],
    pc: u32,
    macsr: u32,
    mask: u32,
    mem: &[u8],
    op: u32,
) -> Option<Product>
    ensures { (sr : ℕ) (e : Emac) → once_summed result sr e g.new ≡ agreed_product result (mac g.old pc sr macsr mask (mapped mem.now) op) sr e g.old }
{
    let w = load(mem, plus(pc, 2), Size::Word).ok()?;
    if op / 16 % 4 == 0 {
        return Some(mac_registers(&*g, pc, macsr, op, w));
    }
    mac_with_load(g, pc, macsr, mask, mem, op, w)
}

// MAC and MSAC done in place, or left with nothing changed.
// The unit is called in one place, so that a compiler puts it there.
pub fn quick_mac(
    g: &mut [u32; 16],
    acc: &mut [u64; 4],
    pc: u32,
    macsr: &mut u32,
    mask: u32,
    mem: &[u8],
    op: u32,
) -> Option<u32>
    ensures { (sr : ℕ) → after_mac result sr macsr.new mask acc.new g.new ≡ agreed_mac result (mac g.old pc sr macsr.old mask (mapped mem.now) op) sr (emac_of macsr.old mask acc.old) g.old }
{
    let p = mac_product(g, pc, *macsr, mask, mem, op)?;
    *macsr = accumulate_plainly(
        *macsr,
        mask,
        acc,
        p.accumulator,
        p.scale,
        p.subtracted,
        p.x,
        p.y,
    );
    Some(p.next)
}
