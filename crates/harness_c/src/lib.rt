// The calls that a host makes in C: a state block and a memory, or a text and a memory, each a pointer and a length.
#![tactic(auto)]

ghost use Rattle.std.specs.Prelude.{◌≡◌, None, Some};
ghost use Rattle.manual.specs.Lent.{lent};
ghost use Rattle.instructions.specs.HostCalls.{called, exception_on, interrupt_on, rte_on, step_on, run_on};
ghost use Rattle.srecord.specs.TextCalls.{text_called, read_call, write_call};

// One step: the number of the reply, and 256 times the vector that was entered.
#[unsafe(no_mangle)]
pub extern "C" fn step(block: &mut [u8], mem: &mut [u8]) -> u32
    ensures { called result block.new mem.new ≡ step_on block.old (lent mem.old) }
{
    harness::step(block, mem)
}

// A run: the number of the reply, and 256 times the steps that were done.
#[unsafe(no_mangle)]
pub extern "C" fn run(block: &mut [u8], mem: &mut [u8], budget: u32) -> u64
    ensures { called result block.new mem.new ≡ run_on block.old (lent mem.old) budget }
{
    harness::run(block, mem, budget)
}

// Returns from an exception: the number of the reply.
#[unsafe(no_mangle)]
pub extern "C" fn rte(block: &mut [u8], mem: &mut [u8]) -> u32
    ensures { called result block.new mem.new ≡ rte_on block.old (lent mem.old) }
{
    harness::rte(block, mem)
}

// Enters an exception, keeping the mask: the number of the reply.
#[unsafe(no_mangle)]
pub extern "C" fn exception(block: &mut [u8], mem: &mut [u8], vector: u8, pc: u32) -> u32
    ensures { called result block.new mem.new ≡ exception_on block.old (lent mem.old) vector pc None }
{
    harness::exception(block, mem, vector, pc)
}

// Enters an exception at a level: the number of the reply.
#[unsafe(no_mangle)]
pub extern "C" fn exception_at(
    block: &mut [u8],
    mem: &mut [u8],
    vector: u8,
    pc: u32,
    level: u8,
) -> u32
    ensures { called result block.new mem.new ≡ exception_on block.old (lent mem.old) vector pc (Some level) }
{
    harness::exception_at(block, mem, vector, pc, level)
}

// Enters an interrupt: the number of the reply.
#[unsafe(no_mangle)]
pub extern "C" fn interrupt(block: &mut [u8], mem: &mut [u8], vector: u8, level: u8) -> u32
    ensures { called result block.new mem.new ≡ interrupt_on block.old (lent mem.old) vector level }
{
    harness::interrupt(block, mem, vector, level)
}

// Reads S-records into memory: the number of the reply, and 256 times the start address.
#[unsafe(no_mangle)]
pub extern "C" fn srecord_read(text: &[u8], mem: &mut [u8]) -> u64
    ensures { text_called result mem.new ≡ read_call text.now mem.old }
{
    harness::srecord_read(text, mem)
}

// Writes a range of memory as S-records: the number of the reply, and 256 times the count of bytes that were written.
#[unsafe(no_mangle)]
pub extern "C" fn srecord_write(
    mem: &[u8],
    from: u32,
    count: u32,
    start: u32,
    text: &mut [u8],
) -> u64
    ensures { text_called result text.new ≡ write_call mem.now from count start text.old }
{
    harness::srecord_write(mem, from, count, start, text)
}
