// The calls that set the status register and tell its fields, refusals first.
#![tactic(auto)]

ghost use Rattle.std.specs.Prelude.{◌≡◌};
ghost use Rattle.manual.specs.Exceptions.{set_sr_call, told as told_of, ipl as ipl_of, supervisor_call};

use manual::{Answer, Cpu, Reply, Told};
use state::status::{admitted, with_status};

// The state with the bits of 0xB71F of a status register, the stack pointers swapped where S changes; refused with 2.
#[tactic(auto, unfolding(manual::specs::Exceptions::set_sr_call))]
pub fn set_sr(cpu: Cpu, v: u16) -> Answer
    ensures { result ≡ set_sr_call cpu v }
{
    if !admitted(cpu) {
        return Answer {
            reply: Reply::NotAdmitted,
            cpu,
        };
    }
    Answer {
        reply: Reply::Done,
        cpu: with_status(cpu, v as u32),
    }
}

#[tactic(auto, unfolding(manual::specs::Exceptions::told))]
fn told(cpu: Cpu, value: u64) -> Told
    ensures { result ≡ told_of cpu value }
{
    if !admitted(cpu) {
        return Told {
            reply: Reply::NotAdmitted,
            value: 0,
        };
    }
    Told {
        reply: Reply::Done,
        value,
    }
}

// The interrupt mask; refused with 2.
pub fn ipl(cpu: Cpu) -> Told
    ensures { result ≡ ipl_of cpu }
{
    told(cpu, (cpu.sr / 0x100 % 8) as u64)
}

// S as 1 or 0; refused with 2.
#[tactic(auto, using(crate::proofs::StatusLaws::one_bit))]
pub fn supervisor(cpu: Cpu) -> Told
    ensures { result ≡ supervisor_call cpu }
{
    told(cpu, (cpu.sr / 0x2000 % 2) as u64)
}
