// MOVE and MOVEA of bytes and words, MVZ, MVS, TST and MULU.W, MULS.W, done in place. Their source is read at one place in the code, whatever
// its size, so that a compiler puts it there. An arm is given what it read.
#![tactic(auto, unfolding(crate::specs::Parts::part_of, instructions::specs::Line4::line4, instructions::specs::Line4::tst, instructions::specs::Line7::line7, instructions::specs::Line7::mvs, instructions::specs::Line7::mvz, instructions::specs::LineC::line_c, instructions::specs::LineC::mul_w, instructions::specs::Moves::movea, instructions::specs::Moves::moves, instructions::specs::Rows::place_in, instructions::specs::Rows::row_of, instructions::specs::Step::of_row, lines0to3::specs::MoveLaws::move_to_data, manual::specs::Address::destination_of, manual::specs::Address::source, manual::specs::Word::plus))]

ghost use Rattle.std.specs.Prelude.{◌≡◌, ℕ, ◌+◌, ◌*◌, ◌/◌, ◌%◌};
ghost use Rattle.manual.specs.Memory.{Memory, mapped, storage_of};
ghost use Rattle.manual.specs.declared.Size.TheVariants.{Word};
ghost use Rattle.manual.specs.declared.Emac.{Emac};
ghost use Rattle.manual.specs.Word.{plus as plus_of};
ghost use Rattle.manual.specs.Fields.{size_field, byte_or_word};
ghost use Rattle.manual.specs.Address.{source};
ghost use Rattle.instructions.specs.Line4.{tst as tst_of};
ghost use Rattle.instructions.specs.Line7.{mvs as mvs_of, mvz as mvz_of};
ghost use Rattle.instructions.specs.LineC.{mul_w};
ghost use Rattle.instructions.specs.Step.{of_row};
ghost use Rattle.quick_parts.specs.Near.{read_as};
ghost use Rattle.quick_parts.specs.Effects.{after, agreed};
ghost use Rattle.quick_bodies.specs.Parts.{part_of};

use super::moves::{move_read, movea_read};
use address::changes::done;
use linesbtof::linec::product;
use manual::Size;
use quick_parts::Reading;
use quick_parts::inplace::changed;
use quick_parts::operands::read;
use word::flags::move_codes;
use word::registers::{data, no_write, write_data};
use word::word::{byte_or_word, plus, sign_extended, size_of};

// Line7.mvz
fn mvz(g: &mut [u32; 16], sr: &mut u16, op: u32, from: Reading) -> Option<u32>
    ensures { (at : ℕ) (m : Memory) → source g.old m (plus_of at 2) op (byte_or_word op) ≡ read_as from → after result sr.new g.new (storage_of m) ≡ agreed result (mvz_of g.old at sr.old m op) sr.old g.old m }
{
    let codes = move_codes(Size::Long, from.value, *sr);
    changed(
        g,
        sr,
        done(
            from.next,
            codes,
            from.moved,
            write_data(op / 512 % 8, from.value),
        ),
    )
}

// Line7.mvs
fn mvs(g: &mut [u32; 16], sr: &mut u16, op: u32, from: Reading) -> Option<u32>
    ensures { (at : ℕ) (m : Memory) → source g.old m (plus_of at 2) op (byte_or_word op) ≡ read_as from → after result sr.new g.new (storage_of m) ≡ agreed result (mvs_of g.old at sr.old m op) sr.old g.old m }
{
    let whole = sign_extended(byte_or_word(op), from.value);
    let codes = move_codes(Size::Long, whole, *sr);
    changed(
        g,
        sr,
        done(
            from.next,
            codes,
            from.moved,
            write_data(op / 512 % 8, whole),
        ),
    )
}

// Line4.tst
fn tst(g: &mut [u32; 16], sr: &mut u16, op: u32, from: Reading) -> Option<u32>
    ensures { (at : ℕ) (m : Memory) → source g.old m (plus_of at 2) op (size_field op) ≡ read_as from → after result sr.new g.new (storage_of m) ≡ agreed result (tst_of g.old at sr.old m op) sr.old g.old m }
{
    let codes = move_codes(size_of(op / 64), from.value, *sr);
    changed(g, sr, done(from.next, codes, from.moved, no_write()))
}

// LineC.mul_w
fn mul_w(signs: bool, g: &mut [u32; 16], sr: &mut u16, op: u32, from: Reading) -> Option<u32>
    ensures { (at : ℕ) (m : Memory) → source g.old m (plus_of at 2) op Word ≡ read_as from → after result sr.new g.new (storage_of m) ≡ agreed result (mul_w signs g.old at sr.old m op) sr.old g.old m }
{
    let r = product(signs, data(&*g, op / 512 % 8), from.value);
    let codes = move_codes(Size::Long, r, *sr);
    changed(
        g,
        sr,
        done(from.next, codes, from.moved, write_data(op / 512 % 8, r)),
    )
}

fn part_of(row: u8, op: u32) -> Size
    ensures { result ≡ part_of row op }
{
    match row {
        rows::MOVE_B => Size::Byte,
        rows::TST => size_of(op / 64),
        rows::MVS | rows::MVZ => byte_or_word(op),
        _ => Size::Word,
    }
}

// MOVE, MOVEA, TST, MVS, MVZ, MULU.W and MULS.W of bytes and words, done in place or left.
// Of the rows named here; any other is left.
pub fn part(
    row: u8,
    g: &mut [u32; 16],
    pc: u32,
    sr: &mut u16,
    mem: &mut [u8],
    op: u32,
) -> Option<u32>
    ensures { (other : ℕ) (e : Emac) → after result sr.new g.new mem.new ≡ agreed result (of_row row g.old pc sr.old other e (mapped mem.old) op) sr.old g.old (mapped mem.old) }
{
    let z = part_of(row, op);
    let from = read(z, &*g, &*mem, plus(pc, 2), op)?;
    match row {
        rows::MOVE_B | rows::MOVE_W => move_read(z, g, sr, mem, op, from),
        rows::MOVEA_W => movea_read(Size::Word, g, sr, op, from),
        rows::TST => tst(g, sr, op, from),
        rows::MVS => mvs(g, sr, op, from),
        rows::MVZ => mvz(g, sr, op, from),
        rows::MULU_W | rows::MULS_W => mul_w(row == rows::MULS_W, g, sr, op, from),
        _ => None,
    }
}
