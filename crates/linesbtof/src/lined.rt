// Line D: ADD, ADDA and ADDX.
ghost use Rattle.std.specs.Prelude.{◌≡◌};
ghost use Rattle.manual.specs.Memory.{mapped};
ghost use Rattle.instructions.specs.Line9D.{line_d as line_d_of};

use lines5to9::sums::by_row;
use manual::Change;

// What a word of line D changes, taken for the instruction of a row.
pub fn instruction(row: u8, g: &[u32; 16], at: u32, sr: u16, mem: &[u8], op: u32) -> Change
    ensures { result ≡ line_d_of row g.now at sr (mapped mem.now) op }
{
    by_row(rows::ADDX_B, true, row, g, at, sr, mem, op)
}
