// Steps and runs.
#![tactic(auto, unfolding(crate::specs::Advance::progress, instructions::specs::Run::run, instructions::specs::Step::step, manual::specs::Registers::with_parts))]

ghost use Rattle.std.specs.Prelude.{◌≡◌, true, ◌+◌, ◌*◌, ◌/◌, ◌%◌};
ghost use Rattle.manual.specs.Registers.{with_parts};
ghost use Rattle.manual.specs.Emac.{emac_of};
ghost use Rattle.manual.specs.Reply.{outcome, is_done};
ghost use Rattle.manual.specs.Lent.{lent, first_refusal};
ghost use Rattle.instructions.specs.Step.{step as step_of};
ghost use Rattle.instructions.specs.Run.{run_outcome, run as run_of};
ghost use Rattle.rows.specs.Top.{Sound};
ghost use Rattle.machine.specs.Advance.{advance, ended_as, progress};

use super::Progress;
use super::turn::{performed, tried};
use exceptions::entry::refusal;
use manual::{Cpu, Emac, Ran, Reply, Size, Stepped};
use memory::load;
use rows::{row_by, top_rows};
use state::replies::{fault_reply, is_done};
use state::status::first_refusal;
use word::registers::with_parts;

fn ended(reply: Reply, count: u32, vector: u8, cpu: Cpu) -> Progress
    ensures { result ≡ ended_as reply count vector cpu }
{
    Progress {
        reply,
        count,
        vector,
        cpu,
    }
}

// The state of its parts.
fn assembled(rest: Cpu, g: [u32; 16], pc: u32, sr: u16, macsr: u32, mask: u32, acc: [u64; 4]) -> Cpu
    ensures { result ≡ with_parts g pc sr (emac_of macsr mask acc) rest }
{
    with_parts(rest, g, pc, sr, Emac { macsr, mask, acc })
}

// As many steps as the budget says, or up to one that is refused. The registers stand apart from the rest of the state, which is checked
// once, for every step keeps it admitted; the rows are found by the table that is lent. A word is tried in place; what is left is done
// on the whole state.
fn advanced(top: &[u8], given: Cpu, mem: &mut [u8], budget: u32) -> Progress
    requires { (is_done (first_refusal given (lent mem.old)) ≡ true) × Sound top.now }
    ensures { advance result mem.new ≡ progress budget 0 0 given (lent mem.old) }
{
    let mut g = given.r;
    let mut pc = given.pc;
    let mut sr = given.sr;
    let mut macsr = given.emac.macsr;
    let mut mask = given.emac.mask;
    let mut acc = given.emac.acc;
    let mut rest = given;
    let mut vector: u8 = 0;
    for n in 0..budget {
        if rest.stopped {
            let last = assembled(rest, g, pc, sr, macsr, mask, acc);
            return ended(Reply::Stopped, n, 0, last);
        }
        let op = match load(&*mem, pc, Size::Word) {
            Ok(op) => op,
            Err(x) => {
                let last = assembled(rest, g, pc, sr, macsr, mask, acc);
                return ended(fault_reply(x), n, 0, last);
            }
        };
        let row = row_by(top, op);
        let other = rest.other;
        let done = tried(
            row, &mut g, &mut acc, pc, &mut sr, &mut macsr, other, mask, mem, op,
        );
        if let Some(next) = done {
            pc = next;
            vector = 0;
            continue;
        }
        let held = assembled(rest, g, pc, sr, macsr, mask, acc);
        let stepped = performed(row, held, mem, op);
        let next = stepped.cpu;
        let reply = stepped.reply;
        if !is_done(reply) {
            return ended(reply, n, 0, next);
        }
        rest = next;
        g = next.r;
        pc = next.pc;
        sr = next.sr;
        macsr = next.emac.macsr;
        mask = next.emac.mask;
        acc = next.emac.acc;
        vector = stepped.vector;
    }
    let last = assembled(rest, g, pc, sr, macsr, mask, acc);
    ended(Reply::Done, budget, vector, last)
}

// As many steps as the budget says, or up to one that is refused: the reply, the count and the state.
pub fn run(cpu: Cpu, mem: &mut [u8], budget: u32) -> Ran
    ensures { run_outcome result mem.new ≡ run_of budget cpu (lent mem.old) }
{
    let first = first_refusal(cpu, &*mem);
    if !is_done(first) {
        return Ran {
            reply: first,
            count: 0,
            cpu,
        };
    }
    let top = top_rows();
    let end = advanced(&top, cpu, mem, budget);
    Ran {
        reply: end.reply,
        count: end.count,
        cpu: end.cpu,
    }
}

// One step: the reply, the vector that was entered, or 0, and the state. It is a run of one, so that the quick path has one caller and is
// compiled into the loop. It lends an empty table: to build the table takes a third of the time of a step.
pub fn step(cpu: Cpu, mem: &mut [u8]) -> Stepped
    ensures { outcome result mem.new ≡ step_of cpu (lent mem.old) }
{
    let first = first_refusal(cpu, &*mem);
    if !is_done(first) {
        return refusal(cpu, first);
    }
    let none: [u8; 0] = [];
    let end = advanced(&none, cpu, mem, 1);
    Stepped {
        reply: end.reply,
        vector: end.vector,
        cpu: end.cpu,
    }
}
