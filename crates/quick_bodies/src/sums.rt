// ADD, SUB, CMP and their kin of longs, done in place.
#![tactic(auto, unfolding(instructions::specs::Line0::cmpi, instructions::specs::Line5::addq, instructions::specs::Line9D::add_to_data, instructions::specs::Line9D::add_to_place, instructions::specs::Line9D::adda, instructions::specs::Line9D::more_or_less, instructions::specs::LineB::cmp, instructions::specs::LineB::cmpa, manual::specs::Address::destination_of, manual::specs::Address::extension, manual::specs::Address::fetch, manual::specs::Address::immediate, manual::specs::Address::locate, manual::specs::Address::moved, manual::specs::Address::operand, manual::specs::Address::value, manual::specs::Change::done, manual::specs::Change::put, manual::specs::Change::put_to, manual::specs::Flags::sum_or_difference, manual::specs::Word::size_of))]

ghost use Rattle.std.specs.Prelude.{◌≡◌, ℕ, ◌+◌, ◌*◌, ◌/◌, ◌%◌};
ghost use Rattle.manual.specs.Memory.{Memory, mapped, storage_of};
ghost use Rattle.manual.specs.declared.Size.TheVariants.{Long};
ghost use Rattle.instructions.specs.Line0.{cmpi as cmpi_of};
ghost use Rattle.instructions.specs.Line5.{addq as addq_of};
ghost use Rattle.instructions.specs.Line9D.{add_to_data, adda as adda_of};
ghost use Rattle.instructions.specs.LineB.{cmp as cmp_of, cmpa as cmpa_of};
ghost use Rattle.quick_parts.specs.Effects.{after, agreed};

use address::changes::done;
use lines5to9::line5::quick_number;
use lines5to9::sums::more_or_less;
use manual::Size;
use memory::load;
use quick_parts::inplace::changed;
use quick_parts::longs::long_sum;
use quick_parts::operands::read_long;
use word::flags::{compare_codes, kept_codes, sum_codes};
use word::registers::{address_after, data, no_write, write_address, write_data};
use word::word::{cut, merged, plus, sign_extended};

// LineB.cmp, of a long
pub fn cmp(g: &mut [u32; 16], pc: u32, sr: &mut u16, mem: &[u8], op: u32) -> Option<u32>
    ensures { after result sr.new g.new mem.now ≡ agreed result (cmp_of g.old pc sr.old (mapped mem.now) op) sr.old g.old (mapped mem.now) }
{
    if op / 64 % 4 != 2 {
        return None;
    }
    let from = read_long(&*g, mem, plus(pc, 2), op)?;
    let r = long_sum(false, from.value, data(&*g, op / 512 % 8));
    changed(
        g,
        sr,
        done(from.next, compare_codes(*sr, r), from.moved, no_write()),
    )
}

// LineB.cmpa Long
pub fn cmpa(g: &mut [u32; 16], pc: u32, sr: &mut u16, mem: &[u8], op: u32) -> Option<u32>
    ensures { after result sr.new g.new mem.now ≡ agreed result (cmpa_of Long g.old pc sr.old (mapped mem.now) op) sr.old g.old (mapped mem.now) }
{
    let from = read_long(&*g, mem, plus(pc, 2), op)?;
    let old = address_after(&*g, from.moved, op / 512 % 8);
    let r = long_sum(false, sign_extended(Size::Long, from.value), old);
    changed(
        g,
        sr,
        done(from.next, compare_codes(*sr, r), from.moved, no_write()),
    )
}

// Line9D.add_to_data, of a long
// ADD and SUB have a copy each, so that a compiler puts it into their arm.
pub fn add_to_data<const ADD: bool>(
    g: &mut [u32; 16],
    pc: u32,
    sr: &mut u16,
    mem: &[u8],
    op: u32,
) -> Option<u32>
    ensures { after result sr.new g.new mem.now ≡ agreed result (add_to_data ADD g.old pc (mapped mem.now) op) sr.old g.old (mapped mem.now) }
{
    if op / 64 % 4 != 2 {
        return None;
    }
    let from = read_long(&*g, mem, plus(pc, 2), op)?;
    let old = data(&*g, op / 512 % 8);
    let r = long_sum(ADD, from.value, old);
    let codes = sum_codes(r);
    let whole = merged(Size::Long, old, r.value);
    changed(
        g,
        sr,
        done(
            from.next,
            codes,
            from.moved,
            write_data(op / 512 % 8, whole),
        ),
    )
}

// Line9D.adda, of a long
pub fn adda<const ADD: bool>(
    g: &mut [u32; 16],
    pc: u32,
    sr: &mut u16,
    mem: &[u8],
    op: u32,
) -> Option<u32>
    ensures { after result sr.new g.new mem.now ≡ agreed result (adda_of ADD Long g.old pc sr.old (mapped mem.now) op) sr.old g.old (mapped mem.now) }
{
    let from = read_long(&*g, mem, plus(pc, 2), op)?;
    let old = address_after(&*g, from.moved, op / 512 % 8);
    let codes = kept_codes(*sr);
    let whole = more_or_less(ADD, old, sign_extended(Size::Long, from.value));
    changed(
        g,
        sr,
        done(
            from.next,
            codes,
            from.moved,
            write_address(op / 512 % 8, whole),
        ),
    )
}

// Line5.addq, of a long in Dn
pub fn addq(g: &mut [u32; 16], pc: u32, sr: &mut u16, op: u32) -> Option<u32>
    ensures { (m : Memory) → after result sr.new g.new (storage_of m) ≡ agreed result (addq_of g.old pc m op) sr.old g.old m }
{
    if op / 8 % 8 != 0 || op / 64 % 4 != 2 {
        return None;
    }
    let next = plus(plus(pc, 2), 0);
    let old = data(&*g, op % 8);
    let r = long_sum(op / 256 % 2 == 0, quick_number(op), cut(Size::Long, old));
    let codes = sum_codes(r);
    let whole = merged(Size::Long, old, r.value);
    changed(
        g,
        sr,
        done(next, codes, no_write(), write_data(op % 8, whole)),
    )
}

// Line0.cmpi Long
pub fn cmpi(g: &mut [u32; 16], pc: u32, sr: &mut u16, mem: &[u8], op: u32) -> Option<u32>
    ensures { after result sr.new g.new mem.now ≡ agreed result (cmpi_of Long g.old pc sr.old (mapped mem.now) op) sr.old g.old (mapped mem.now) }
{
    let at = plus(pc, 2);
    let v = load(mem, at, Size::Long).ok()?;
    let r = long_sum(false, cut(Size::Long, v), data(&*g, op % 8));
    let none = no_write();
    changed(g, sr, done(plus(at, 4), compare_codes(*sr, r), none, none))
}
