// The quick path: the common instructions, each by its row, done in place. Any other word, and any operand or fault that the bodies do not
// take on, is left to the plain engine, with nothing changed.
#![tactic(auto, unfolding(instructions::specs::Line0::line0, instructions::specs::Line4::line4, instructions::specs::Line5::line5, instructions::specs::Line6::line6, instructions::specs::Line7::line7, instructions::specs::Line8::line8, instructions::specs::Line9D::sums, instructions::specs::LineA::line_a, instructions::specs::LineB::line_b, instructions::specs::LineC::line_c, instructions::specs::LineE::line_e, instructions::specs::Moves::moves, instructions::specs::Rows::place_in, instructions::specs::Rows::row_of, instructions::specs::Step::of_row))]

ghost use Rattle.std.specs.Prelude.{◌≡◌, cond, ℕ, eqb};
ghost use Rattle.manual.specs.Memory.{mapped};
ghost use Rattle.manual.specs.declared.Emac.{Emac};
ghost use Rattle.manual.specs.Emac.{emac_of};
ghost use Rattle.manual.specs.declared.Logic.TheVariants.{And, Or};
ghost use Rattle.instructions.specs.Rows.{row_of};
ghost use Rattle.instructions.specs.Step.{of_row};
ghost use Rattle.quick_parts.specs.Effects.{after, agreed};
ghost use Rattle.quick_bodies.specs.Units.{after_mac, agreed_mac};

use line4::control::{link, rts, unlk};
use line4::single::{extb, swap};
use lines0to3::line0::{logic_immediate, sum_immediate};
use lines5to9::line5::{addq_address, scc};
use lines5to9::line6::{bra, bsr};
use lines5to9::line7::moveq;
use linesbtof::linee::shift;
use manual::Logic;
use quick_bodies::flow::{bcc, jsr, movem_load, movem_store, pea};
use quick_bodies::logic::{bit_by_immediate, bit_by_register, eor_to_data, logic_to_data, mul_l};
use quick_bodies::mac::quick_mac;
use quick_bodies::moves::{clr, lea, move_long, movea};
use quick_bodies::parts::part;
use quick_bodies::sums::{add_to_data, adda, addq, cmp, cmpa, cmpi};
use quick_parts::inplace::{changed, stored};

// What AND and OR make of two numbers, by their row. They share one call of their body, so that a compiler puts it there.
fn logic_of(row: u8) -> Logic
    ensures { result ≡ cond (eqb row (row_of 0xC000)) And Or }
{
    if row == rows::AND_DN {
        Logic::And
    } else {
        Logic::Or
    }
}

// The instruction of a row done in place, or left with nothing changed.
// The instructions that leave the EMAC unit as it is. The bodies of quick_bodies are for the quick path alone; the others are the plain engine's.
// The default case is for the rows of `part`, which leaves any other: a pattern that names neighbours becomes a chain of tests, and the
// default case is reached by the table of jumps. MAC is left for the caller's next question, so that no other row pays for it.
pub fn in_place(
    row: u8,
    g: &mut [u32; 16],
    pc: u32,
    sr: &mut u16,
    mem: &mut [u8],
    op: u32,
) -> Option<u32>
    ensures { (other : ℕ) (e : Emac) → after result sr.new g.new mem.new ≡ agreed result (of_row row g.old pc sr.old other e (mapped mem.old) op) sr.old g.old (mapped mem.old) }
{
    match row {
        rows::ANDI => changed(g, sr, logic_immediate(Logic::And, &*g, pc, *sr, &*mem, op)),
        rows::EORI => changed(g, sr, logic_immediate(Logic::Eor, &*g, pc, *sr, &*mem, op)),
        rows::SUBI => changed(g, sr, sum_immediate(false, &*g, pc, &*mem, op)),
        rows::ADDI => changed(g, sr, sum_immediate(true, &*g, pc, &*mem, op)),
        rows::CMPI_L => cmpi(g, pc, sr, &*mem, op),
        rows::BITOP_IMM => bit_by_immediate(g, pc, sr, &*mem, op),
        rows::BITOP_DN => bit_by_register(g, pc, sr, op),
        rows::MOVEA_L => movea(g, pc, sr, &*mem, op),
        rows::MOVE_L => move_long(g, pc, sr, mem, op),
        rows::RTS => changed(g, sr, rts(&*g, *sr, &*mem)),
        rows::EXTB => changed(g, sr, extb(&*g, pc, *sr, op)),
        rows::LINK => {
            let c = link(&*g, pc, *sr, &*mem, op);
            stored(g, mem, sr, c)
        }
        rows::UNLK => changed(g, sr, unlk(&*g, pc, *sr, &*mem, op)),
        rows::SWAP => changed(g, sr, swap(&*g, pc, *sr, op)),
        rows::JSR => jsr(g, pc, sr, mem, op),
        rows::PEA => pea(g, pc, sr, mem, op),
        rows::MOVEM_STORE => movem_store(&*g, pc, mem, op),
        rows::MOVEM_LOAD => movem_load(g, pc, &*mem, op),
        rows::MUL_L => mul_l(g, pc, sr, &*mem, op),
        rows::CLR => clr(g, pc, sr, mem, op),
        rows::LEA => lea(g, pc, sr, &*mem, op),
        rows::ADDQ_AN_L => changed(g, sr, addq_address(&*g, pc, *sr, op)),
        rows::SCC => changed(g, sr, scc(&*g, pc, *sr, op)),
        rows::ADDQ => addq(g, pc, sr, op),
        rows::BRA => changed(g, sr, bra(pc, *sr, &*mem, op)),
        rows::BSR => {
            let c = bsr(&*g, pc, *sr, &*mem, op);
            stored(g, mem, sr, c)
        }
        rows::BCC => bcc(g, pc, sr, &*mem, op),
        rows::MOVEQ => changed(g, sr, moveq(pc, *sr, op)),
        rows::SUBA_L => adda::<false>(g, pc, sr, &*mem, op),
        rows::SUB_DN => add_to_data::<false>(g, pc, sr, &*mem, op),
        rows::CMPA_L => cmpa(g, pc, sr, &*mem, op),
        rows::CMP => cmp(g, pc, sr, &*mem, op),
        rows::EOR => eor_to_data(g, pc, sr, op),
        rows::AND_DN | rows::OR_DN => { logic_to_data(logic_of(row), g, pc, sr, &*mem, op) }
        rows::ADDA_L => adda::<true>(g, pc, sr, &*mem, op),
        rows::ADD_DN => add_to_data::<true>(g, pc, sr, &*mem, op),
        rows::ASX => changed(g, sr, shift(true, &*g, pc, *sr, op)),
        rows::LSX => changed(g, sr, shift(false, &*g, pc, *sr, op)),
        rows::MAC => None,
        _ => part(row, g, pc, sr, mem, op),
    }
}

// MAC and MSAC done in place, or left with nothing changed; any other row is left.
// This and `in_place` have one caller each, so a compiler puts them there with all that is below them, up to a size: a run is slower by
// half where one stays a call. So the instructions of a step are to be counted after each new arm.
pub fn summed(
    row: u8,
    g: &mut [u32; 16],
    acc: &mut [u64; 4],
    pc: u32,
    macsr: &mut u32,
    mask: u32,
    mem: &[u8],
    op: u32,
) -> Option<u32>
    ensures { (sr other : ℕ) → after_mac result sr macsr.new mask acc.new g.new ≡ agreed_mac result (of_row row g.old pc sr other (emac_of macsr.old mask acc.old) (mapped mem.now) op) sr (emac_of macsr.old mask acc.old) g.old }
{
    if row != rows::MAC {
        return None;
    }
    quick_mac(g, acc, pc, macsr, mask, mem, op)
}
