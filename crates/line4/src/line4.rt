// Line 4 by its rows.
#![tactic(auto, unfolding(instructions::specs::Line4::line4, instructions::specs::Rows::place_in))]

ghost use Rattle.std.specs.Prelude.{◌≡◌, ◌+◌, ◌*◌, ◌/◌, ◌%◌, ◌<◌};
ghost use Rattle.manual.specs.Memory.{mapped};
ghost use Rattle.instructions.specs.Line4.{line4 as line4_of};

use super::control::{jmp, jsr, lea, link, movem, nop, pea, rts, trap, unlk};
use super::single::{clr, div_l, ext_l, ext_w, extb, mul_l, neg, negx, not, sats, swap, tas, tst};
use super::status::{
    halt, move_from_ccr, move_from_sr, move_from_usp, move_to_ccr, move_to_sr, move_to_usp, movec,
    rte, stldsr, stop,
};
use address::changes::illegal;
use manual::Change;

// What a word of line 4 changes, taken for the instruction of a row.
pub fn instruction(
    row: u8,
    g: &[u32; 16],
    at: u32,
    sr: u16,
    other: u32,
    mem: &[u8],
    op: u32,
) -> Change
    ensures { result ≡ line4_of row g.now at sr other (mapped mem.now) op }
{
    match row {
        rows::NOP => nop(at, sr),
        rows::STOP => stop(at, sr, mem),
        rows::RTE => rte(at, sr),
        rows::RTS => rts(g, sr, mem),
        rows::MOVEC_READ => movec(false, at, sr, mem),
        rows::MOVEC_WRITE => movec(true, at, sr, mem),
        rows::HALT => halt(at, sr),
        rows::PULSE => nop(at, sr),
        rows::ILLEGAL => illegal(at, sr),
        rows::STLDSR => stldsr(at, sr, mem),
        rows::EXTB => extb(g, at, sr, op),
        rows::LINK => link(g, at, sr, mem, op),
        rows::UNLK => unlk(g, at, sr, mem, op),
        rows::TO_USP => move_to_usp(g, at, sr, op),
        rows::FROM_USP => move_from_usp(at, sr, other, op),
        rows::FROM_CCR => move_from_ccr(g, at, sr, op),
        rows::SWAP => swap(g, at, sr, op),
        rows::EXT_W => ext_w(g, at, sr, op),
        rows::EXT_L => ext_l(g, at, sr, op),
        rows::SATS => sats(g, at, sr, op),
        rows::NEGX => negx(g, at, sr, op),
        rows::NEG => neg(g, at, op),
        rows::NOT => not(g, at, sr, op),
        rows::TRAP => trap(at, sr, op),
        rows::JSR => jsr(g, at, sr, mem, op),
        rows::JMP => jmp(g, at, sr, mem, op),
        rows::FROM_SR => move_from_sr(g, at, sr, op),
        rows::ILL_42C0 => illegal(at, sr),
        rows::TO_CCR => move_to_ccr(g, at, mem, op),
        rows::TO_SR => move_to_sr(g, at, sr, mem, op),
        rows::PEA => pea(g, at, sr, mem, op),
        rows::MOVEM_STORE => movem(true, g, at, sr, mem, op),
        rows::MOVEM_LOAD => movem(false, g, at, sr, mem, op),
        rows::MUL_L => mul_l(g, at, sr, mem, op),
        rows::DIV_L => div_l(g, at, sr, mem, op),
        rows::TAS => tas(g, at, sr, mem, op),
        rows::CLR => clr(g, at, sr, mem, op),
        rows::TST => tst(g, at, sr, mem, op),
        rows::LEA => lea(g, at, sr, mem, op),
        rows::ILL_4 => illegal(at, sr),
        _ => illegal(at, sr),
    }
}
