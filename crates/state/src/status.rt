// The status register, and the states that a call takes.
#![tactic(auto, unfolding(manual::specs::Admitted::admitted, manual::specs::Admitted::emac_admitted, manual::specs::Admitted::status, manual::specs::Emac::acc_of, manual::specs::Exceptions::handler_sr, manual::specs::Exceptions::set_sr, manual::specs::Lent::first_refusal, manual::specs::Lent::lent_refusal, manual::specs::Lent::state_refusal))]

ghost use Rattle.std.specs.Prelude.{◌≡◌, ◌+◌, ◌*◌, ◌/◌, ◌%◌, ◌^◌};
ghost use Rattle.manual.specs.Admitted.{status as status_of, emac_admitted, admitted as admitted_of};
ghost use Rattle.manual.specs.Lent.{lent, lent_refusal, first_refusal};
ghost use Rattle.manual.specs.Exceptions.{set_sr, handler_sr as handler_sr_of};

use super::replies::is_done;
use manual::{Cpu, Emac, Reply};
use word::registers::{address, with_address, with_other, with_sr};

// Memory has at most 16,777,216 bytes.
const LONGEST: usize = 0x100_0000;

// The bits of 0xB71F.
pub fn status(v: u32) -> u16
    ensures { result ≡ status_of v }
{
    (v / 0x8000 % 2 * 0x8000 + v / 0x1000 % 4 * 0x1000 + v / 0x100 % 8 * 0x100 + v % 32) as u16
}

// Whether a unit is admitted.
pub fn emac_admitted(e: Emac) -> bool
    ensures { result ≡ emac_admitted e }
{
    e.macsr < 0x1000 && e.acc.iter().all(|a| *a < 0x1_0000_0000_0000)
}

// Whether a state is admitted.
pub fn admitted(cpu: Cpu) -> bool
    ensures { result ≡ admitted_of cpu }
{
    let e = cpu.emac;
    let kept = status(cpu.sr as u32);
    (kept == cpu.sr) & emac_admitted(e)
}

// What is wrong with what is lent to a call, or done: 1.
pub fn lent_refusal(mem: &[u8]) -> Reply
    ensures { result ≡ lent_refusal (lent mem.now) }
{
    if LONGEST < mem.len() {
        Reply::TooLong
    } else {
        Reply::Done
    }
}

// The reply of the first test that fails before a call begins, or done: 1, 2.
pub fn first_refusal(cpu: Cpu, mem: &[u8]) -> Reply
    ensures { result ≡ first_refusal cpu (lent mem.now) }
{
    let unusable = lent_refusal(mem);
    if !is_done(unusable) {
        return unusable;
    }
    if admitted(cpu) {
        Reply::Done
    } else {
        Reply::NotAdmitted
    }
}

// The state with a status register, the stack pointers swapped where S changes.
pub fn with_status(cpu: Cpu, v: u32) -> Cpu
    ensures { result ≡ set_sr v cpu }
{
    let sr = status(v);
    let two = cpu.cacr / 0x20 % 2 == 1;
    let kept = (sr / 0x2000 % 2 == 1) == (cpu.sr / 0x2000 % 2 == 1);
    if two & !kept {
        let g = cpu.r;
        let sp = address(&g, 7);
        return with_sr(with_other(with_address(cpu, 7, cpu.other), sp), sr);
    }
    with_sr(cpu, sr)
}

// The status register in a handler: S set, T clear, the mask by the level.
pub fn handler_sr(level: Option<u8>, sr: u16) -> u16
    ensures { result ≡ handler_sr_of level sr }
{
    match level {
        None => sr / 0x4000 % 2 * 0x4000 + 0x2000 + sr % 0x2000,
        Some(l) => {
            sr / 0x4000 % 2 * 0x4000
                + 0x2000
                + sr / 0x800 % 4 * 0x800
                + (l % 8) as u16 * 0x100
                + sr % 0x100
        }
    }
}
