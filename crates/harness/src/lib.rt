// The calls that a host makes: on a state block and a memory, or on a text and a memory. `harness_c` exports them to C.
#![tactic(auto)]

pub mod calls;

ghost use Rattle.std.specs.Prelude.{◌≡◌, None, Some};
ghost use Rattle.manual.specs.Lent.{lent};
ghost use Rattle.instructions.specs.HostCalls.{called, exception_on, interrupt_on, rte_on, step_on, run_on};
ghost use Rattle.srecord.specs.TextCalls.{text_called, read_call, write_call};

use calls::{
    exception as exception_call, exception_at as exception_at_call, interrupt as interrupt_call,
    on_block, opened, rte as rte_call, store_after,
};
use machine::run::{run as run_call, step as step_call};
use manual::{Answer, Ran};
use srecord_read::read::read_call;
use srecord_write::write::write_call;
use state::replies::{is_done, number_of};

// One step: the number of the reply, and 256 times the vector that was entered.
pub fn step(block: &mut [u8], mem: &mut [u8]) -> u32
    ensures { called result block.new mem.new ≡ step_on block.old (lent mem.old) }
{
    on_block(256, block, mem, step_call)
}

// A run: the number of the reply, and 256 times the steps that were done.
pub fn run(block: &mut [u8], mem: &mut [u8], budget: u32) -> u64
    ensures { called result block.new mem.new ≡ run_on block.old (lent mem.old) budget }
{
    let Answer { reply, cpu } = opened(&*block, &*mem);
    if !is_done(reply) {
        return number_of(reply) as u64;
    }
    let Ran { reply, count, cpu } = run_call(cpu, mem, budget);
    store_after(0 < count, cpu, block);
    number_of(reply) as u64 + 256 * count as u64
}

// Returns from an exception: the number of the reply.
pub fn rte(block: &mut [u8], mem: &mut [u8]) -> u32
    ensures { called result block.new mem.new ≡ rte_on block.old (lent mem.old) }
{
    rte_call(block, mem)
}

// Enters an exception, keeping the mask: the number of the reply.
pub fn exception(block: &mut [u8], mem: &mut [u8], vector: u8, pc: u32) -> u32
    ensures { called result block.new mem.new ≡ exception_on block.old (lent mem.old) vector pc None }
{
    exception_call(block, mem, vector, pc)
}

// Enters an exception at a level: the number of the reply.
pub fn exception_at(block: &mut [u8], mem: &mut [u8], vector: u8, pc: u32, level: u8) -> u32
    ensures { called result block.new mem.new ≡ exception_on block.old (lent mem.old) vector pc (Some level) }
{
    exception_at_call(block, mem, vector, pc, level)
}

// Enters an interrupt: the number of the reply.
pub fn interrupt(block: &mut [u8], mem: &mut [u8], vector: u8, level: u8) -> u32
    ensures { called result block.new mem.new ≡ interrupt_on block.old (lent mem.old) vector level }
{
    interrupt_call(block, mem, vector, level)
}

// Reads S-records into memory: the number of the reply, and 256 times the start address.
pub fn srecord_read(text: &[u8], mem: &mut [u8]) -> u64
    ensures { text_called result mem.new ≡ read_call text.now mem.old }
{
    read_call(text, mem)
}

// Writes a range of memory as S-records: the number of the reply, and 256 times the count of bytes that were written.
pub fn srecord_write(mem: &[u8], from: u32, count: u32, start: u32, text: &mut [u8]) -> u64
    ensures { text_called result text.new ≡ write_call mem.now from count start text.old }
{
    write_call(mem, from, count, start, text)
}
