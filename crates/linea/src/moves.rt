// Line A: moves to and from the EMAC, and MOV3Q.
#![tactic(auto, unfolding(instructions::specs::LineA::mov3q, instructions::specs::LineA::move_acc_to_acc, instructions::specs::LineA::move_macsr_to_ccr, instructions::specs::LineA::move_to_emac, instructions::specs::LineA::move_to_general, instructions::specs::LineA::setting, instructions::specs::LineA::three_bits, instructions::specs::LineA::unassigned))]

ghost use Rattle.std.specs.Prelude.{◌≡◌, ◌+◌, ◌*◌, ◌/◌, ◌%◌, ◌<◌};
ghost use Rattle.manual.specs.Memory.{mapped};
ghost use Rattle.instructions.specs.LineA.{move_macsr_to_ccr, move_to_general, move_acc_to_acc as move_acc_to_acc_of, setting as setting_of, move_to_emac, three_bits, mov3q as mov3q_of, unassigned as unassigned_of};

use address::changes::{acting, done, enter_after, put_to, refused};
use address::operands::{destination, source};
use manual::{Action, Change, EmacPart, Size};
use word::flags::{codes, kept_codes, move_codes};
use word::registers::{no_write, write_general};
use word::word::plus;

pub(crate) fn move_macsr_to_ccr(at: u32, macsr: u32) -> Change
    ensures { result ≡ move_macsr_to_ccr at macsr }
{
    let next = plus(at, 2);
    let n = macsr / 8 % 2 == 1;
    let z = macsr / 4 % 2 == 1;
    let v = macsr / 2 % 2 == 1;
    done(next, codes(false, n, z, v, false), no_write(), no_write())
}

pub(crate) fn move_to_general(at: u32, sr: u16, op: u32, v: u32) -> Change
    ensures { result ≡ move_to_general at sr op v }
{
    let next = plus(at, 2);
    let kept = kept_codes(sr);
    done(next, kept, no_write(), write_general(op % 16, v))
}

pub(crate) fn move_acc_to_acc(at: u32, sr: u16, op: u32) -> Change
    ensures { result ≡ move_acc_to_acc_of at sr op }
{
    acting(
        sr,
        plus(at, 2),
        no_write(),
        Action::CopyAcc(op % 4, op / 512 % 4),
    )
}

fn setting(part: EmacPart, op: u32, v: u32) -> Action
    ensures { result ≡ setting_of part op v }
{
    match part {
        EmacPart::Acc => Action::SetAcc(op / 512 % 4, v),
        EmacPart::Ext => Action::SetExt(op / 0x400 % 2 * 2, v),
        EmacPart::Macsr => Action::SetMacsr(v),
        EmacPart::Mask => Action::SetMask(v),
    }
}

pub(crate) fn move_to_emac(
    part: EmacPart,
    g: &[u32; 16],
    at: u32,
    sr: u16,
    mem: &[u8],
    op: u32,
) -> Change
    ensures { result ≡ move_to_emac part g.now at sr (mapped mem.now) op }
{
    let from = source(g, mem, plus(at, 2), op, Size::Long);
    let v = match from.got {
        Ok(v) => v,
        Err(x) => return refused(x),
    };
    acting(sr, from.next, from.moved, setting(part, op, v))
}

// 0 is -1 here and 8 in Line5.quick_number: two definitions of two lines, with nothing else to share.
fn three_bits(op: u32) -> u32
    ensures { result ≡ three_bits op }
{
    let n = op / 512 % 8;
    if n == 0 { 0xFFFF_FFFF } else { n }
}

pub(crate) fn mov3q(g: &[u32; 16], at: u32, sr: u16, mem: &[u8], op: u32) -> Change
    ensures { result ≡ mov3q_of g.now at sr (mapped mem.now) op }
{
    let v = three_bits(op);
    let to = destination(g, mem, plus(at, 2), op, Size::Long);
    put_to(g, move_codes(Size::Long, v, sr), to, Size::Long, v)
}

pub(crate) fn unassigned(g: &[u32; 16], at: u32, sr: u16, mem: &[u8], op: u32) -> Change
    ensures { result ≡ unassigned_of g.now at sr (mapped mem.now) op }
{
    let from = source(g, mem, plus(at, 2), op, Size::Long);
    match from.got {
        Ok(_) => enter_after(from.moved, sr, 10, at),
        Err(x) => refused(x),
    }
}
