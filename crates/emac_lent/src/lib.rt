// The multiply-accumulate unit, lent and changed: thin calls over those by value. A refused call leaves the unit as it was.
#![tactic(auto)]

pub mod unit;

ghost use Rattle.std.specs.Prelude.{◌≡◌};
ghost use Rattle.manual.specs.UnitCalls.{answer, accumulate_call, set_macsr_call, set_acc_call, clear_acc_call};

use manual::{Emac, EmacAnswer, Reply};

// The unit of an answer stays with the lender.
fn given_back(e: &mut Emac, a: EmacAnswer) -> Reply
    ensures { answer result e.new ≡ a }
{
    *e = a.emac;
    a.reply
}

// MAC, and MSAC where `sub`, on a lent unit; refused with 2, or 6 above number 3.
pub fn accumulate(e: &mut Emac, i: u32, scale: u32, sub: bool, x: u32, y: u32) -> Reply
    ensures { answer result e.new ≡ accumulate_call e.old i scale sub x y }
{
    let a = unit::accumulate(*e, i, scale, sub, x, y);
    given_back(e, a)
}

// MACSR of a lent unit written; refused with 2.
pub fn set_macsr(e: &mut Emac, v: u32) -> Reply
    ensures { answer result e.new ≡ set_macsr_call e.old v }
{
    let a = unit::set_macsr(*e, v);
    given_back(e, a)
}

// An accumulator of a lent unit set; refused with 2, or 6 above number 3.
pub fn set_acc(e: &mut Emac, i: u32, v: u32) -> Reply
    ensures { answer result e.new ≡ set_acc_call e.old i v }
{
    let a = unit::set_acc(*e, i, v);
    given_back(e, a)
}

// An accumulator of a lent unit cleared; refused with 2, or 6 above number 3.
pub fn clear_acc(e: &mut Emac, i: u32) -> Reply
    ensures { answer result e.new ≡ clear_acc_call e.old i }
{
    let a = unit::clear_acc(*e, i);
    given_back(e, a)
}
