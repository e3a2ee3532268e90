// Bcc with a byte's or a word's displacement, JSR, PEA and MOVEM, done in place.
#![tactic(auto, unfolding(instructions::specs::Line4::jsr, instructions::specs::Line4::many, instructions::specs::Line4::movem, instructions::specs::Line4::pea, instructions::specs::Line6::bcc, instructions::specs::Line6::displacement, instructions::specs::Line6::displacement_bytes, manual::specs::Address::control, manual::specs::Address::extension, manual::specs::Address::locate, manual::specs::Address::operand, manual::specs::Change::acting, manual::specs::Registers::no_write, manual::specs::Registers::written, quick_parts::specs::Effects::in_place))]

ghost use Rattle.std.specs.Prelude.{◌≡◌, Bool, true, false, ℕ, ◌+◌, ◌*◌, ◌/◌, ◌%◌};
ghost use Rattle.manual.specs.Memory.{mapped};
ghost use Rattle.instructions.specs.Line4.{jsr as jsr_of, pea as pea_of, movem};
ghost use Rattle.instructions.specs.Line6.{bcc as bcc_of};
ghost use Rattle.quick_parts.specs.Effects.{after, agreed};
ghost use Rattle.quick_bodies.specs.Many.{moving};

use address::changes::{jump, push};
use manual::Size;
use memory::load;
use memory::many::{load_many, store_many};
use quick_parts::inplace::{changed, stored};
use word::conditions::condition;
use word::registers::address;
use word::word::{plus, sign_extended};

// Line6.bcc, of a byte and of a word
pub fn bcc(g: &mut [u32; 16], pc: u32, sr: &mut u16, mem: &[u8], op: u32) -> Option<u32>
    ensures { after result sr.new g.new mem.now ≡ agreed result (bcc_of pc sr.old (mapped mem.now) op) sr.old g.old (mapped mem.now) }
{
    let at = plus(pc, 2);
    let low = op % 256;
    if low == 255 {
        return None;
    }
    let holds = condition(op / 256, *sr);
    if low == 0 {
        let d = load(mem, at, Size::Word).ok()?;
        if holds {
            return changed(g, sr, jump(*sr, plus(at, sign_extended(Size::Word, d))));
        }
        return changed(g, sr, jump(*sr, plus(at, 2)));
    }
    if holds {
        return changed(g, sr, jump(*sr, plus(at, sign_extended(Size::Byte, low))));
    }
    changed(g, sr, jump(*sr, plus(at, 0)))
}

// Line4.jsr, of (An) and of an absolute long
pub fn jsr(g: &mut [u32; 16], pc: u32, sr: &mut u16, mem: &mut [u8], op: u32) -> Option<u32>
    ensures { after result sr.new g.new mem.new ≡ agreed result (jsr_of g.old pc sr.old (mapped mem.old) op) sr.old g.old (mapped mem.old) }
{
    let at = plus(pc, 2);
    if op / 8 % 8 == 2 {
        let c = push(&*g, *sr, address(&*g, op % 8), plus(at, 0));
        return stored(g, mem, sr, c);
    }
    if op / 8 % 8 != 7 || op % 8 != 1 {
        return None;
    }
    let a = load(&*mem, at, Size::Long).ok()?;
    let c = push(&*g, *sr, a, plus(at, 4));
    stored(g, mem, sr, c)
}

// Line4.pea, of d16(An)
pub fn pea(g: &mut [u32; 16], pc: u32, sr: &mut u16, mem: &mut [u8], op: u32) -> Option<u32>
    ensures { after result sr.new g.new mem.new ≡ agreed result (pea_of g.old pc sr.old (mapped mem.old) op) sr.old g.old (mapped mem.old) }
{
    if op / 8 % 8 != 5 {
        return None;
    }
    let at = plus(pc, 2);
    let d = load(&*mem, at, Size::Word).ok()?;
    let a = plus(address(&*g, op % 8), sign_extended(Size::Word, d));
    let c = push(&*g, *sr, plus(at, 2), a);
    stored(g, mem, sr, c)
}

// MOVEM's registers by their mask, their place in memory, and the address after its extension words.
#[derive(Clone, Copy)]
struct Movem {
    mask: u32,
    at: u32,
    next: u32,
}

// Which registers MOVEM moves and where, of (An) and d16(An).
fn moved_many(g: &[u32; 16], pc: u32, mem: &[u8], op: u32) -> Option<Movem>
    ensures { (stores : Bool) (sr : ℕ) → moving result stores sr (movem stores g.now pc sr (mapped mem.now) op) ≡ movem stores g.now pc sr (mapped mem.now) op }
{
    let at = plus(pc, 2);
    let mask = load(mem, at, Size::Word).ok()?;
    let a = address(g, op % 8);
    match op / 8 % 8 {
        2 => Some(Movem {
            mask,
            at: a,
            next: plus(at, 2),
        }),
        5 => {
            let d = load(mem, plus(at, 2), Size::Word).ok()?;
            Some(Movem {
                mask,
                at: plus(a, sign_extended(Size::Word, d)),
                next: plus(at, 4),
            })
        }
        _ => None,
    }
}

// Line4.movem true
pub fn movem_store(g: &[u32; 16], pc: u32, mem: &mut [u8], op: u32) -> Option<u32>
    ensures { (sr : ℕ) → after result sr g.now mem.new ≡ agreed result (movem true g.now pc sr (mapped mem.old) op) sr g.now (mapped mem.old) }
{
    let Movem { mask, at, next } = moved_many(g, pc, &*mem, op)?;
    store_many(mem, g, mask, at).ok()?;
    Some(next)
}

// Line4.movem false
pub fn movem_load(g: &mut [u32; 16], pc: u32, mem: &[u8], op: u32) -> Option<u32>
    ensures { (sr : ℕ) → after result sr g.new mem.now ≡ agreed result (movem false g.old pc sr (mapped mem.now) op) sr g.old (mapped mem.now) }
{
    let Movem { mask, at, next } = moved_many(&*g, pc, mem, op)?;
    load_many(mem, g, mask, at).ok()?;
    Some(next)
}
