// Line A by its rows.
#![tactic(auto, unfolding(instructions::specs::LineA::line_a, instructions::specs::LineA::move_from_acc, instructions::specs::LineA::move_to_general, instructions::specs::Rows::place_in, manual::specs::Emac::read_ext))]

ghost use Rattle.std.specs.Prelude.{◌≡◌, ◌+◌, ◌*◌, ◌/◌, ◌%◌, ◌<◌};
ghost use Rattle.instructions.specs.LineA.{move_to_general, move_from_acc, line_a as line_a_of};
ghost use Rattle.manual.specs.Memory.{mapped};
ghost use Rattle.manual.specs.Emac.{emac_of, fractional as fractional_of, read_ext};
ghost use Rattle.manual.specs.Fields.{ext_field};

use super::mac::mac;
use super::moves::{
    mov3q, move_acc_to_acc, move_macsr_to_ccr, move_to_emac, move_to_general, unassigned,
};
use address::changes::{acting, illegal};
use emac::accumulators::{acc_of, read_ext};
use emac::flags::{fractional, mode_of};
use emac::read::mac_read;
use manual::{Action, Change, Emac, EmacPart};
use word::registers::write_general;
use word::word::plus;

// The unit of its parts. Few rows look at all of it, so that it is put together for them alone.
fn unit(macsr: u32, mask: u32, acc: &[u64; 4]) -> Emac
    ensures { result ≡ emac_of macsr mask acc.now }
{
    let held = *acc;
    Emac {
        macsr,
        mask,
        acc: held,
    }
}

fn move_from_acc(at: u32, sr: u16, e: Emac, op: u32) -> Change
    ensures { result ≡ move_from_acc at sr e op }
{
    let i = op / 512 % 4;
    let k = mode_of(e.macsr);
    let v = mac_read(k, acc_of(e, i));
    let next = plus(at, 2);
    let to = write_general(op % 16, v);
    if op / 64 % 2 == 1 {
        acting(sr, next, to, Action::ClearAcc(i))
    } else {
        acting(sr, next, to, Action::Nothing)
    }
}

fn from_ext(at: u32, sr: u16, e: Emac, op: u32) -> Change
    ensures { result ≡ move_to_general at sr op (read_ext (fractional_of e.macsr) e (ext_field op)) }
{
    let fi = fractional(e.macsr);
    move_to_general(at, sr, op, read_ext(fi, e, op / 0x400 % 2 * 2))
}

// What a word of line A changes, taken for the instruction of a row.
pub fn instruction(
    row: u8,
    g: &[u32; 16],
    at: u32,
    sr: u16,
    macsr: u32,
    mask: u32,
    acc: &[u64; 4],
    mem: &[u8],
    op: u32,
) -> Change
    ensures { result ≡ line_a_of row g.now at sr (emac_of macsr mask acc.now) (mapped mem.now) op }
{
    match row {
        rows::MACSR_CCR => move_macsr_to_ccr(at, macsr),
        rows::COPY_ACC => move_acc_to_acc(at, sr, op),
        rows::READ_MACSR => move_to_general(at, sr, op, macsr),
        rows::READ_MASK => move_to_general(at, sr, op, mask),
        rows::READ_ACCEXT => from_ext(at, sr, unit(macsr, mask, acc), op),
        rows::WRITE_MACSR => move_to_emac(EmacPart::Macsr, g, at, sr, mem, op),
        rows::WRITE_MASK => move_to_emac(EmacPart::Mask, g, at, sr, mem, op),
        rows::READ_ACC => move_from_acc(at, sr, unit(macsr, mask, acc), op),
        rows::WRITE_ACCEXT => move_to_emac(EmacPart::Ext, g, at, sr, mem, op),
        rows::WRITE_ACC => move_to_emac(EmacPart::Acc, g, at, sr, mem, op),
        rows::MOV3Q => mov3q(g, at, sr, mem, op),
        rows::MAC => mac(g, at, sr, macsr, mask, mem, op),
        rows::LINEA => unassigned(g, at, sr, mem, op),
        _ => illegal(at, sr),
    }
}
