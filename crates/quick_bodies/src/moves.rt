// MOVE, MOVEA, LEA and CLR, done in place.
#![tactic(auto, unfolding(instructions::specs::Line4::clr, instructions::specs::Line4::lea, instructions::specs::Moves::movea, lines0to3::specs::MoveLaws::move_to_data, manual::specs::Address::destination_of, manual::specs::Address::extension, manual::specs::Address::locate, manual::specs::Address::moved, manual::specs::Address::operand, manual::specs::Change::done, manual::specs::Change::put, manual::specs::Change::put_to))]

ghost use Rattle.std.specs.Prelude.{◌≡◌, ℕ, ◌+◌, ◌*◌, ◌/◌, ◌%◌};
ghost use Rattle.manual.specs.Memory.{Memory, mapped, storage_of};
ghost use Rattle.manual.specs.declared.Size.TheVariants.{Long};
ghost use Rattle.manual.specs.Word.{plus as plus_of};
ghost use Rattle.manual.specs.Address.{source};
ghost use Rattle.instructions.specs.Moves.{move as move_of, movea as movea_of};
ghost use Rattle.instructions.specs.Line4.{lea as lea_of, clr as clr_of};
ghost use Rattle.quick_parts.specs.Near.{read_as};
ghost use Rattle.quick_parts.specs.Effects.{after, agreed};

use address::changes::{done, store};
use manual::Size;
use quick_parts::inplace::{changed, stored};
use quick_parts::operands::{control_spot, read_long, spot};
use quick_parts::{Reading, Spot};
use word::flags::{kept_codes, move_codes};
use word::registers::{address, address_after, data, no_write, write_address, write_data};
use word::word::{merged, plus, sign_extended, size_of};

// Moves.move to Dn, given what it read
pub(crate) fn move_to_data(
    z: Size,
    g: &mut [u32; 16],
    sr: &mut u16,
    op: u32,
    from: Reading,
) -> Option<u32>
    requires { op / 64 % 8 ≡ 0 }
    ensures { (at : ℕ) (m : Memory) → source g.old m (plus_of at 2) op z ≡ read_as from → after result sr.new g.new (storage_of m) ≡ agreed result (move_of z g.old at sr.old m op) sr.old g.old m }
{
    let codes = move_codes(z, from.value, *sr);
    let whole = merged(z, data(&*g, op / 512 % 8), from.value);
    changed(
        g,
        sr,
        done(
            from.next,
            codes,
            from.moved,
            write_data(op / 512 % 8, whole),
        ),
    )
}

// Moves.move, given what it read
// Longs have a copy of their own, and bytes and words one for both: a call takes the copy loop from 75 to 99 instructions a step.
#[inline(always)]
pub(crate) fn move_read(
    z: Size,
    g: &mut [u32; 16],
    sr: &mut u16,
    mem: &mut [u8],
    op: u32,
    from: Reading,
) -> Option<u32>
    ensures { (at : ℕ) → source g.old (mapped mem.old) (plus_of at 2) op z ≡ read_as from → after result sr.new g.new mem.new ≡ agreed result (move_of z g.old at sr.old (mapped mem.old) op) sr.old g.old (mapped mem.old) }
{
    if op / 64 % 8 == 0 {
        return move_to_data(z, g, sr, op, from);
    }
    let r = op / 512 % 8;
    let a = address_after(&*g, from.moved, r);
    let Spot { at, next, moved } = spot(z, &*mem, from.next, op / 64 % 8, r, a)?;
    let codes = move_codes(z, from.value, *sr);
    let c = store(next, codes, from.moved, moved, at, z, from.value);
    stored(g, mem, sr, c)
}

// Moves.move Long
pub fn move_long(g: &mut [u32; 16], pc: u32, sr: &mut u16, mem: &mut [u8], op: u32) -> Option<u32>
    ensures { after result sr.new g.new mem.new ≡ agreed result (move_of Long g.old pc sr.old (mapped mem.old) op) sr.old g.old (mapped mem.old) }
{
    let from = read_long(&*g, &*mem, plus(pc, 2), op)?;
    move_read(Size::Long, g, sr, mem, op, from)
}

// Moves.movea, given what it read
// Longs and words have a copy each, likewise.
#[inline(always)]
pub(crate) fn movea_read(
    z: Size,
    g: &mut [u32; 16],
    sr: &mut u16,
    op: u32,
    from: Reading,
) -> Option<u32>
    ensures { (at : ℕ) (m : Memory) → source g.old m (plus_of at 2) op z ≡ read_as from → after result sr.new g.new (storage_of m) ≡ agreed result (movea_of z g.old at sr.old m op) sr.old g.old m }
{
    let codes = kept_codes(*sr);
    let whole = sign_extended(z, from.value);
    changed(
        g,
        sr,
        done(
            from.next,
            codes,
            from.moved,
            write_address(op / 512 % 8, whole),
        ),
    )
}

// Moves.movea Long
pub fn movea(g: &mut [u32; 16], pc: u32, sr: &mut u16, mem: &[u8], op: u32) -> Option<u32>
    ensures { after result sr.new g.new mem.now ≡ agreed result (movea_of Long g.old pc sr.old (mapped mem.now) op) sr.old g.old (mapped mem.now) }
{
    let from = read_long(&*g, mem, plus(pc, 2), op)?;
    movea_read(Size::Long, g, sr, op, from)
}

// Line4.lea, of d16(An), of d8(An,Xi) and of absolute addresses
pub fn lea(g: &mut [u32; 16], pc: u32, sr: &mut u16, mem: &[u8], op: u32) -> Option<u32>
    ensures { after result sr.new g.new mem.now ≡ agreed result (lea_of g.old pc sr.old (mapped mem.now) op) sr.old g.old (mapped mem.now) }
{
    let Spot { at, next, moved } = control_spot(&*g, mem, plus(pc, 2), op)?;
    let codes = kept_codes(*sr);
    changed(
        g,
        sr,
        done(next, codes, moved, write_address(op / 512 % 8, at)),
    )
}

// Line4.clr
pub fn clr(g: &mut [u32; 16], pc: u32, sr: &mut u16, mem: &mut [u8], op: u32) -> Option<u32>
    ensures { after result sr.new g.new mem.new ≡ agreed result (clr_of g.old pc sr.old (mapped mem.old) op) sr.old g.old (mapped mem.old) }
{
    let z = size_of(op / 64);
    let codes = move_codes(z, 0, *sr);
    if op / 8 % 8 == 0 {
        let next = plus(plus(pc, 2), 0);
        let whole = merged(z, data(&*g, op % 8), 0);
        return changed(
            g,
            sr,
            done(next, codes, no_write(), write_data(op % 8, whole)),
        );
    }
    let a = address(&*g, op % 8);
    let Spot { at, next, moved } = spot(z, &*mem, plus(pc, 2), op / 8 % 8, op % 8, a)?;
    let c = store(next, codes, moved, no_write(), at, z, 0);
    stored(g, mem, sr, c)
}
