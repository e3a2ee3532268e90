// The calls on a unit by value, refusals first.
ghost use Rattle.std.specs.Prelude.{◌≡◌};
ghost use Rattle.manual.specs.declared.Emac.{Emac};
ghost use Rattle.manual.specs.UnitCalls.{answer, changed as changed_of, acc_changed as acc_changed_of, accumulate_call, set_macsr_call, set_acc_call, clear_acc_call};
ghost use Rattle.emac_lent.specs.Changes.{Gives};

use emac::{accumulators, sum};
use manual::{Emac, EmacAnswer, Reply};
use state::status::emac_admitted;

const ACCUMULATORS: u32 = 4;

// The unit as it was.
fn refused(e: Emac, reply: Reply) -> EmacAnswer
    ensures { result ≡ answer reply e }
{
    EmacAnswer { reply, emac: e }
}

// The unit after a change, or as it was; a refused call does no work.
fn changed<F: FnOnce() -> Emac>(e: Emac, next: F) -> EmacAnswer
    requires { F.IsAlwaysCallable next }
    ensures { (to : Emac) → Gives (F.post next) to → result ≡ changed_of e to }
{
    if !emac_admitted(e) {
        return refused(e, Reply::NotAdmitted);
    }
    EmacAnswer {
        reply: Reply::Done,
        emac: next(),
    }
}

// The same after a change of accumulator i.
fn acc_changed<F: FnOnce() -> Emac>(e: Emac, i: u32, next: F) -> EmacAnswer
    requires { F.IsAlwaysCallable next }
    ensures { (to : Emac) → Gives (F.post next) to → result ≡ acc_changed_of e i to }
{
    if !emac_admitted(e) {
        return refused(e, Reply::NotAdmitted);
    }
    if ACCUMULATORS <= i {
        return refused(e, Reply::OutOfRange);
    }
    EmacAnswer {
        reply: Reply::Done,
        emac: next(),
    }
}

// MAC, and MSAC where `sub`.
#[tactic(auto, unfolding(manual::specs::UnitCalls::accumulate_call))]
pub fn accumulate(e: Emac, i: u32, scale: u32, sub: bool, x: u32, y: u32) -> EmacAnswer
    ensures { result ≡ accumulate_call e i scale sub x y }
{
    acc_changed(e, i, || sum::accumulate(e, i, scale, sub, x, y))
}

// The unit with MACSR written; refused with 2.
#[tactic(auto, unfolding(manual::specs::UnitCalls::set_macsr_call))]
pub fn set_macsr(e: Emac, v: u32) -> EmacAnswer
    ensures { result ≡ set_macsr_call e v }
{
    changed(e, || accumulators::set_macsr(e, v))
}

// MOVE.L to an accumulator.
#[tactic(auto, unfolding(manual::specs::UnitCalls::set_acc_call))]
pub fn set_acc(e: Emac, i: u32, v: u32) -> EmacAnswer
    ensures { result ≡ set_acc_call e i v }
{
    acc_changed(e, i, || accumulators::set_acc(e, i, v))
}

// The unit with an accumulator cleared; refused with 2, or 6 above number 3.
#[tactic(auto, unfolding(manual::specs::UnitCalls::clear_acc_call))]
pub fn clear_acc(e: Emac, i: u32) -> EmacAnswer
    ensures { result ≡ clear_acc_call e i }
{
    acc_changed(e, i, || accumulators::clear_acc(e, i))
}
