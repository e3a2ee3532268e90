// One instruction by the plain engine, its word and row being known.
#![tactic(auto, unfolding(instructions::specs::Perform::perform, instructions::specs::Step::of_row, manual::specs::Registers::with_parts))]

ghost use Rattle.std.specs.Prelude.{◌≡◌};
ghost use Rattle.manual.specs.Memory.{mapped};
ghost use Rattle.manual.specs.Emac.{emac_of};
ghost use Rattle.manual.specs.Reply.{outcome, completed};
ghost use Rattle.manual.specs.declared.Cpu.{Cpu};
ghost use Rattle.manual.specs.Registers.{with_parts};
ghost use Rattle.instructions.specs.Perform.{perform as perform_of};
ghost use Rattle.instructions.specs.Step.{of_row};
ghost use Rattle.quick_parts.specs.Effects.{after, agreed};
ghost use Rattle.machine.specs.Turn.{turned, agreed_turn};

use super::execute::instruction;
use super::perform::perform;
use manual::{Cpu, Stepped};
use quick::{in_place, summed};
use quick_bodies::far::far;
use quick_parts::inplace::carried_out;

// In place, or left. All but MOVE stands behind the call of `instruction`, so that what is rare takes no room in the loop.
pub(crate) fn plain(
    row: u8,
    g: &mut [u32; 16],
    pc: u32,
    sr: &mut u16,
    other: u32,
    macsr: u32,
    mask: u32,
    acc: &[u64; 4],
    mem: &mut [u8],
    op: u32,
) -> Option<u32>
    ensures { after result sr.new g.new mem.new ≡ agreed result (of_row row g.old pc sr.old other (emac_of macsr mask acc.now) (mapped mem.old) op) sr.old g.old (mapped mem.old) }
{
    if let Some(next) = far(row, g, pc, sr, mem, op) {
        return Some(next);
    }
    let c = instruction(row, &*g, pc, *sr, other, macsr, mask, acc, &*mem, op);
    carried_out(g, mem, sr, c)
}

// By the two parts of the quick path and then by the plain engine, in place: the next address; none where it is left, with nothing changed.
// It is put into the loop, so that the loop has one place where a step in place ends; a chain of `or_else` with closures takes two to five
// instructions more a step (docs/PERFORMANCE.md).
#[inline(always)]
pub(crate) fn tried(
    row: u8,
    g: &mut [u32; 16],
    acc: &mut [u64; 4],
    pc: u32,
    sr: &mut u16,
    macsr: &mut u32,
    other: u32,
    mask: u32,
    mem: &mut [u8],
    op: u32,
) -> Option<u32>
    ensures { (rest : Cpu) → turned result pc g.new sr.new (emac_of macsr.new mask acc.new) rest mem.new ≡ agreed_turn result (perform_of (with_parts g.old pc sr.old (emac_of macsr.old mask acc.old) rest) (of_row row g.old pc sr.old other (emac_of macsr.old mask acc.old) (mapped mem.old) op) (mapped mem.old)) (completed (with_parts g.old pc sr.old (emac_of macsr.old mask acc.old) rest) 0 mem.old) }
{
    if let Some(next) = in_place(row, g, pc, sr, mem, op) {
        return Some(next);
    }
    if let Some(next) = summed(row, g, acc, pc, macsr, mask, &*mem, op) {
        return Some(next);
    }
    plain(row, g, pc, sr, other, *macsr, mask, &*acc, mem, op)
}

// On a whole state, where it is not done in place.
pub(crate) fn performed(row: u8, held: Cpu, mem: &mut [u8], op: u32) -> Stepped
    ensures { outcome result mem.new ≡ perform_of held (of_row row held.r held.pc held.sr held.other held.emac (mapped mem.old) op) (mapped mem.old) }
{
    let g = held.r;
    let acc = held.emac.acc;
    let macsr = held.emac.macsr;
    let mask = held.emac.mask;
    let c = instruction(
        row, &g, held.pc, held.sr, held.other, macsr, mask, &acc, &*mem, op,
    );
    perform(held, c, mem)
}
