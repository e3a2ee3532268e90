// The calls that enter an exception and return from it.
#![tactic(auto, unfolding(manual::specs::Exceptions::exception, manual::specs::Exceptions::interrupt, manual::specs::Exceptions::masked, manual::specs::Exceptions::rte))]

ghost use Rattle.std.specs.Prelude.{◌≡◌};
ghost use Rattle.manual.specs.Reply.{outcome};
ghost use Rattle.manual.specs.Lent.{lent};
ghost use Rattle.manual.specs.Exceptions.{level_taken, masked as masked_of, exception as exception_of, interrupt as interrupt_of, rte as rte_of};

use exceptions::entry::{entered, refusal, returned};
use manual::{Cpu, Reply, Stepped};
use state::replies::is_done;
use state::status::first_refusal;

fn level_taken(level: Option<u8>) -> bool
    ensures { result ≡ level_taken level }
{
    match level {
        None => true,
        Some(l) => l < 8,
    }
}

// Enters an exception at a level, or keeping the mask.
pub fn exception(cpu: Cpu, mem: &mut [u8], vector: u8, pc: u32, level: Option<u8>) -> Stepped
    ensures { outcome result mem.new ≡ exception_of cpu (lent mem.old) vector pc level }
{
    let first = first_refusal(cpu, &*mem);
    if !is_done(first) {
        return refusal(cpu, first);
    }
    if !level_taken(level) {
        return refusal(cpu, Reply::OutOfRange);
    }
    entered(cpu, cpu, level, vector, pc, mem)
}

// Level 7 is never masked.
fn masked(sr: u16, level: u8) -> bool
    ensures { result ≡ masked_of sr level }
{
    (level < 7) & (level as u16 <= sr / 0x100 % 8)
}

// Enters an interrupt, unless it is masked.
pub fn interrupt(cpu: Cpu, mem: &mut [u8], vector: u8, level: u8) -> Stepped
    ensures { outcome result mem.new ≡ interrupt_of cpu (lent mem.old) vector level }
{
    let first = first_refusal(cpu, &*mem);
    if !is_done(first) {
        return refusal(cpu, first);
    }
    if 8 <= level {
        return refusal(cpu, Reply::OutOfRange);
    }
    if masked(cpu.sr, level) {
        return refusal(cpu, Reply::Masked);
    }
    entered(cpu, cpu, Some(level), vector, cpu.pc, mem)
}

// Returns from an exception.
pub fn rte(cpu: Cpu, mem: &[u8]) -> Stepped
    ensures { outcome result mem.now ≡ rte_of cpu (lent mem.now) }
{
    let first = first_refusal(cpu, mem);
    if !is_done(first) {
        return refusal(cpu, first);
    }
    returned(cpu, cpu, mem)
}
