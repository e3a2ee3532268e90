// The calls on the accumulators and MACSR, refusals first.
#![tactic(auto)]

ghost use Rattle.std.specs.Prelude.{◌≡◌, ℕ};
ghost use Rattle.manual.specs.declared.Emac.{Emac};
ghost use Rattle.manual.specs.EmacCalls.{acc_told as acc_told_of, done_with, acc_changed as acc_changed_of, acc_get_call, acc_set_call, acc_phys_call, set_acc_phys_call, set_macsr_call};
ghost use Rattle.calls_emac.specs.Refused.{on_acc as on_acc_of, Gives};

use emac::accumulators;
use emac::accumulators::{acc_of, acc_part, ext_part, pattern_of, with_acc};
use emac::flags::{fractional, mode_of};
use emac::number::block_number;
use manual::{Answer, Cpu, Emac, Reply, Told};
use state::status::admitted;
use word::registers::with_emac;

const ACCUMULATORS: u32 = 4;

// What the work on accumulator i gives, or why the call is refused; a refused call does no work.
fn on_acc<T, F: FnOnce() -> T>(cpu: Cpu, i: u32, work: F) -> Result<T, Reply>
    requires { F.IsAlwaysCallable work }
    ensures { (x : T) → Gives (F.post work) x → result ≡ on_acc_of cpu i x }
{
    if !admitted(cpu) {
        return Err(Reply::NotAdmitted);
    }
    if ACCUMULATORS <= i {
        return Err(Reply::OutOfRange);
    }
    Ok(work())
}

// A number of accumulator i, or 0 in a refusal.
fn acc_told<F: FnOnce() -> u64>(cpu: Cpu, i: u32, value: F) -> Told
    requires { F.IsAlwaysCallable value }
    ensures { (v : ℕ) → Gives (F.post value) v → result ≡ acc_told_of cpu i v }
{
    match on_acc(cpu, i, value) {
        Ok(value) => Told {
            reply: Reply::Done,
            value,
        },
        Err(reply) => Told { reply, value: 0 },
    }
}

fn done_with(cpu: Cpu, e: Emac) -> Answer
    ensures { result ≡ done_with e cpu }
{
    Answer {
        reply: Reply::Done,
        cpu: with_emac(cpu, e),
    }
}

// The state after a change of accumulator i, or as it was in a refusal.
fn acc_changed<F: FnOnce() -> Emac>(cpu: Cpu, i: u32, next: F) -> Answer
    requires { F.IsAlwaysCallable next }
    ensures { (e : Emac) → Gives (F.post next) e → result ≡ acc_changed_of cpu i e }
{
    match on_acc(cpu, i, next) {
        Ok(e) => done_with(cpu, e),
        Err(reply) => Answer { reply, cpu },
    }
}

// An accumulator's number in the mode; refused with 2, or 6 above number 3.
#[tactic(auto, unfolding(manual::specs::EmacCalls::acc_get_call))]
pub fn acc_get(cpu: Cpu, i: u32) -> Told
    ensures { result ≡ acc_get_call cpu i }
{
    let e = cpu.emac;
    acc_told(cpu, i, || block_number(mode_of(e.macsr), acc_of(e, i)))
}

// The state with an accumulator set to a number; refused with 2, or 6 above number 3.
#[tactic(auto, unfolding(manual::specs::EmacCalls::acc_set_call))]
pub fn acc_set(cpu: Cpu, i: u32, v: u64) -> Answer
    ensures { result ≡ acc_set_call cpu i v }
{
    let e = cpu.emac;
    acc_changed(cpu, i, || with_acc(e, i, e.macsr, v % 0x1_0000_0000_0000))
}

// ACCn and ACCextn as the physical registers; refused with 2, or 6 above number 3.
#[tactic(auto, unfolding(manual::specs::EmacCalls::acc_phys_call))]
pub fn acc_phys(cpu: Cpu, i: u32) -> Told
    ensures { result ≡ acc_phys_call cpu i }
{
    let e = cpu.emac;
    acc_told(cpu, i, || {
        let fi = fractional(e.macsr);
        let a = acc_of(e, i);
        let low = acc_part(fi, a) as u64;
        let high = ext_part(fi, a) as u64;
        low + 0x1_0000_0000 * high
    })
}

// The state with the physical registers ACCn and ACCextn set; refused with 2, or 6 above number 3.
#[tactic(auto, unfolding(manual::specs::EmacCalls::set_acc_phys_call))]
pub fn set_acc_phys(cpu: Cpu, i: u32, acc: u32, ext: u16) -> Answer
    ensures { result ≡ set_acc_phys_call cpu i acc ext }
{
    let e = cpu.emac;
    acc_changed(cpu, i, || {
        let a = pattern_of(fractional(e.macsr), acc, ext as u32);
        with_acc(e, i, e.macsr, a)
    })
}

// The state with MACSR written; refused with 2.
#[tactic(auto, unfolding(manual::specs::EmacCalls::set_macsr_call))]
pub fn set_macsr(cpu: Cpu, v: u32) -> Answer
    ensures { result ≡ set_macsr_call cpu v }
{
    if !admitted(cpu) {
        return Answer {
            reply: Reply::NotAdmitted,
            cpu,
        };
    }
    done_with(cpu, accumulators::set_macsr(cpu.emac, v))
}
