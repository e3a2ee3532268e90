// What an instruction leaves is done, once all of it has been tested.
#![tactic(auto, unfolding(instructions::specs::Perform::perform, instructions::specs::Perform::status_pushed))]

ghost use Rattle.std.specs.Prelude.{◌≡◌, ◌+◌, ◌*◌, ◌/◌, ◌%◌};
ghost use Rattle.manual.specs.Memory.{mapped};
ghost use Rattle.manual.specs.Reply.{outcome};
ghost use Rattle.instructions.specs.Perform.{status_pushed, perform as perform_of};
ghost use Rattle.machine.specs.Completed.{completed_step};

use emac::accumulators::{clear_acc, copy_acc, set_acc, set_ext, set_macsr, set_mask};
use emac::sum::accumulate;
use exceptions::entry::{entered, faulted, refusal, returned};
use manual::{Action, Change, Cpu, Reply, Size, Stepped};
use memory::many::{load_many, store_many};
use memory::store;
use state::control::movec;
use state::status::with_status;
use word::registers::{
    address, applied, with_address, with_emac, with_other, with_registers, with_stopped,
};
use word::word::minus;

// Done, and no vector was entered.
fn completed(cpu: Cpu) -> Stepped
    ensures { result ≡ completed_step cpu }
{
    Stepped {
        reply: Reply::Done,
        vector: 0,
        cpu,
    }
}

fn push_status(given: Cpu, cpu: Cpu, v: u32, mem: &mut [u8]) -> Stepped
    ensures { outcome result mem.new ≡ status_pushed given cpu v (mapped mem.old) }
{
    let g = cpu.r;
    let sp = minus(address(&g, 7), 4);
    match store(mem, sp, Size::Long, cpu.sr as u32) {
        Ok(()) => {
            let pushed = with_address(cpu, 7, sp);
            completed(with_status(pushed, v))
        }
        Err(x) => faulted(given, x),
    }
}

// The change done, or refused with nothing changed.
pub fn perform(given: Cpu, change: Change, mem: &mut [u8]) -> Stepped
    ensures { outcome result mem.new ≡ perform_of given change (mapped mem.old) }
{
    let cpu = applied(given, change);
    let e = cpu.emac;
    let action = change.action;
    match action {
        Action::Nothing => completed(cpu),
        Action::Store(a, z, v) => {
            match store(mem, a, z, v) {
                Ok(()) => completed(cpu),
                Err(x) => faulted(given, x),
            }
        }
        Action::StoreMany(mask, a) => {
            let g = cpu.r;
            match store_many(mem, &g, mask, a) {
                Ok(()) => completed(cpu),
                Err(x) => faulted(given, x),
            }
        }
        Action::LoadMany(mask, a) => {
            let mut g = cpu.r;
            match load_many(&*mem, &mut g, mask, a) {
                Ok(()) => completed(with_registers(cpu, g)),
                Err(x) => faulted(given, x),
            }
        }
        Action::Enter(vector, pc) => entered(given, cpu, None, vector, pc, mem),
        Action::Return => returned(given, cpu, &*mem),
        Action::Status(v) => completed(with_status(cpu, v)),
        Action::Stop(v) => completed(with_stopped(with_status(cpu, v), true)),
        Action::PushStatus(v) => push_status(given, cpu, v, mem),
        Action::Halt => completed(with_stopped(cpu, true)),
        Action::SetOther(v) => completed(with_other(cpu, v)),
        Action::Accumulate(i, scale, sub, x, y) => {
            completed(with_emac(cpu, accumulate(e, i, scale, sub, x, y)))
        }
        Action::SetAcc(i, v) => completed(with_emac(cpu, set_acc(e, i, v))),
        Action::SetExt(i, v) => completed(with_emac(cpu, set_ext(e, i, v))),
        Action::SetMacsr(v) => completed(with_emac(cpu, set_macsr(e, v))),
        Action::SetMask(v) => completed(with_emac(cpu, set_mask(e, v))),
        Action::CopyAcc(from, to) => completed(with_emac(cpu, copy_acc(e, from, to))),
        Action::ClearAcc(i) => completed(with_emac(cpu, clear_acc(e, i))),
        Action::MoveControl(writes, c, n) => completed(movec(cpu, writes, c, n)),
        Action::Refuse(n) => refusal(given, n),
    }
}
