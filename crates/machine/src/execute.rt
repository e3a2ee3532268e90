// What a word changes, taken for the instruction of a row.
#![tactic(auto, unfolding(instructions::specs::Step::of_row, lines0to3::specs::MoveLines::move_line))]

ghost use Rattle.std.specs.Prelude.{◌≡◌};
ghost use Rattle.manual.specs.Memory.{mapped};
ghost use Rattle.manual.specs.Emac.{emac_of};
ghost use Rattle.instructions.specs.Step.{of_row};

use lines0to3::{line0, lines1to3};
use lines5to9::{line5, line6, line7, line9};
use linesbtof::{line8, lineb, linec, lined, linee, linef};
use manual::Change;

// What a word changes, taken for the instruction of a row.
// The rows stand line by line, so a line's rows are a range. What is no row goes where line 0's go, as in the definition, in which it
// has the value 0.
pub fn instruction(
    row: u8,
    g: &[u32; 16],
    at: u32,
    sr: u16,
    other: u32,
    macsr: u32,
    mask: u32,
    acc: &[u64; 4],
    mem: &[u8],
    op: u32,
) -> Change
    ensures { result ≡ of_row row g.now at sr other (emac_of macsr mask acc.now) (mapped mem.now) op }
{
    match row {
        rows::MOVEA_B..=rows::MOVE_B => lines1to3::instruction(1, row, g, at, sr, mem, op),
        rows::MOVEA_L..=rows::MOVE_L => lines1to3::instruction(2, row, g, at, sr, mem, op),
        rows::MOVEA_W..=rows::MOVE_W => lines1to3::instruction(3, row, g, at, sr, mem, op),
        rows::NOP..=rows::ILL_4 => line4::line4::instruction(row, g, at, sr, other, mem, op),
        rows::TPF_W..=rows::ADDQ => line5::instruction(row, g, at, sr, mem, op),
        rows::BRA..=rows::BCC => line6::instruction(row, g, at, sr, mem, op),
        rows::MVS..=rows::MOVEQ => line7::instruction(row, g, at, sr, mem, op),
        rows::DIVU_W..=rows::OR_MEM => line8::instruction(row, g, at, sr, mem, op),
        rows::SUBX_B..=rows::SUB_MEM => line9::instruction(row, g, at, sr, mem, op),
        rows::MACSR_CCR..=rows::LINEA => {
            linea::linea::instruction(row, g, at, sr, macsr, mask, acc, mem, op)
        }
        rows::CMPA_W..=rows::EOR => lineb::instruction(row, g, at, sr, mem, op),
        rows::MULU_W..=rows::AND_MEM => linec::instruction(row, g, at, sr, mem, op),
        rows::ADDX_B..=rows::ADD_MEM => lined::instruction(row, g, at, sr, mem, op),
        rows::ASX..=rows::ILL_E => linee::instruction(row, g, at, sr, op),
        rows::WDEBUG..=rows::LINEF => linef::instruction(row, g, at, sr, mem, op),
        _ => line0::instruction(row, g, at, sr, mem, op),
    }
}
