// The calls that push a long on the stack and pop it, refusals first.
#![tactic(auto, unfolding(manual::specs::Exceptions::pop32, manual::specs::Exceptions::push32))]

ghost use Rattle.std.specs.Prelude.{◌≡◌};
ghost use Rattle.manual.specs.Reply.{outcome};
ghost use Rattle.manual.specs.Lent.{lent};
ghost use Rattle.manual.specs.Exceptions.{push32 as push32_of, not_popped, pop32 as pop32_of};

use exceptions::entry::{faulted, refusal};
use manual::{Cpu, Popped, Reply, Size, Stepped};
use memory::{load, store};
use state::replies::{fault_reply, is_done};
use state::status::first_refusal;
use word::registers::{address, with_address};
use word::word::{minus, plus};

// Pushes a long: the reply, and the state with A7 down by 4.
pub fn push32(cpu: Cpu, mem: &mut [u8], v: u32) -> Stepped
    ensures { outcome result mem.new ≡ push32_of cpu (lent mem.old) v }
{
    let first = first_refusal(cpu, &*mem);
    if !is_done(first) {
        return refusal(cpu, first);
    }
    let g = cpu.r;
    let sp = minus(address(&g, 7), 4);
    match store(mem, sp, Size::Long, v) {
        Ok(()) => {
            let next = with_address(cpu, 7, sp);
            Stepped {
                reply: Reply::Done,
                vector: 0,
                cpu: next,
            }
        }
        Err(x) => faulted(cpu, x),
    }
}

fn not_popped(cpu: Cpu, reply: Reply) -> Popped
    ensures { result ≡ not_popped cpu reply }
{
    Popped {
        reply,
        value: 0,
        cpu,
    }
}

// Pops a long: the reply, the long, and the state with A7 up by 4.
pub fn pop32(cpu: Cpu, mem: &[u8]) -> Popped
    ensures { result ≡ pop32_of cpu (lent mem.now) }
{
    let first = first_refusal(cpu, mem);
    if !is_done(first) {
        return not_popped(cpu, first);
    }
    let g = cpu.r;
    let sp = address(&g, 7);
    match load(mem, sp, Size::Long) {
        Ok(v) => {
            let next = with_address(cpu, 7, plus(sp, 4));
            Popped {
                reply: Reply::Done,
                value: v,
                cpu: next,
            }
        }
        Err(x) => not_popped(cpu, fault_reply(x)),
    }
}
