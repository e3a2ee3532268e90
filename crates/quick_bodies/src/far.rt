// MOVE with the operands that the other bodies leave, d8(An,Xi) and absolute addresses, done in place. Compiled programs have some of these
// in every loop, and the plain engine is slow there: it hands their change through memory (docs/PERFORMANCE.md).
#![tactic(auto, unfolding(instructions::specs::Moves::moves, instructions::specs::Rows::place_in, instructions::specs::Rows::row_of, instructions::specs::Step::of_row, lines0to3::specs::MoveLaws::move_to, lines0to3::specs::MoveLaws::move_to_data))]

ghost use Rattle.std.specs.Prelude.{◌≡◌, ℕ, ◌+◌, ◌*◌, ◌/◌, ◌%◌};
ghost use Rattle.manual.specs.Memory.{mapped};
ghost use Rattle.manual.specs.declared.Emac.{Emac};
ghost use Rattle.instructions.specs.Moves.{move as move_of};
ghost use Rattle.instructions.specs.Step.{of_row};
ghost use Rattle.quick_parts.specs.Effects.{after, agreed};

use super::moves::move_to_data;
use address::operands::operand;
use lines0to3::lines1to3::{move_to, written};
use manual::Size;
use quick_parts::inplace::carried_out;
use quick_parts::operands::read_any;
use word::word::plus;

// Moves.move
fn far_move(
    z: Size,
    g: &mut [u32; 16],
    pc: u32,
    sr: &mut u16,
    mem: &mut [u8],
    op: u32,
) -> Option<u32>
    ensures { after result sr.new g.new mem.new ≡ agreed result (move_of z g.old pc sr.old (mapped mem.old) op) sr.old g.old (mapped mem.old) }
{
    let from = read_any(z, &*g, &*mem, plus(pc, 2), op)?;
    if op / 64 % 8 == 0 {
        return move_to_data(z, g, sr, op, from);
    }
    let moved = written(&*g, from.moved);
    let target = operand(op / 64 % 8, op / 512 % 8);
    let c = move_to(
        z, &moved, *sr, &*mem, from.next, from.moved, target, from.value,
    );
    carried_out(g, mem, sr, c)
}

// MOVE done in place, or left with nothing changed.
// Of MOVE's three rows; any other is left.
pub fn far(
    row: u8,
    g: &mut [u32; 16],
    pc: u32,
    sr: &mut u16,
    mem: &mut [u8],
    op: u32,
) -> Option<u32>
    ensures { (other : ℕ) (e : Emac) → after result sr.new g.new mem.new ≡ agreed result (of_row row g.old pc sr.old other e (mapped mem.old) op) sr.old g.old (mapped mem.old) }
{
    let z = match row {
        rows::MOVE_B => Size::Byte,
        rows::MOVE_L => Size::Long,
        rows::MOVE_W => Size::Word,
        _ => return None,
    };
    far_move(z, g, pc, sr, mem, op)
}
