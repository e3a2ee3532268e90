// Line 9: SUB, SUBA and SUBX.
ghost use Rattle.std.specs.Prelude.{◌≡◌};
ghost use Rattle.manual.specs.Memory.{mapped};
ghost use Rattle.instructions.specs.Line9D.{line9 as line9_of};

use super::sums::by_row;
use manual::Change;

// What a word of line 9 changes, taken for the instruction of a row.
pub fn instruction(row: u8, g: &[u32; 16], at: u32, sr: u16, mem: &[u8], op: u32) -> Change
    ensures { result ≡ line9_of row g.now at sr (mapped mem.now) op }
{
    by_row(rows::SUBX_B, false, row, g, at, sr, mem, op)
}
