// The calls on a state block and a memory that do no step, and what every call on a block begins and ends with.
ghost use Rattle.std.specs.Prelude.{◌≡◌, ◌≤◌, cond, None, Some};
ghost use Rattle.manual.specs.Lent.{lent};
ghost use Rattle.manual.specs.Block.{read_block, store_block};
ghost use Rattle.harness.specs.OnBlock.{IsOnBlock};
ghost use Rattle.instructions.specs.HostCalls.{called, block_reply, opened as opened_of, exception_on, interrupt_on, rte_on};

use block::read::read_block;
use block::store::store_block;
use calls_exception::entry::{
    exception as exception_call, interrupt as interrupt_call, rte as rte_call,
};
use manual::{Answer, Cpu, Reply, Stepped};
use state::replies::{is_done, number_of};
use state::status::lent_refusal;

// A block that says no admitted state is refused after what is lent.
#[tactic(auto, unfolding(instructions::specs::HostCalls::block_reply))]
fn block_reply(reply: Reply, mem: &[u8]) -> Reply
    ensures { result ≡ block_reply reply (lent mem.now) }
{
    if !matches!(reply, Reply::NotAdmitted) {
        return reply;
    }
    let unusable = lent_refusal(mem);
    if is_done(unusable) { reply } else { unusable }
}

// The state that the block holds, or the reply that refuses the block.
pub fn opened(block: &[u8], mem: &[u8]) -> Answer
    ensures { result ≡ opened_of block.now (lent mem.now) }
{
    let read = read_block(block);
    Answer {
        reply: block_reply(read.reply, mem),
        ..read
    }
}

// The new state goes into the block where something was done.
pub fn store_after(done: bool, cpu: Cpu, block: &mut [u8])
    ensures { block.new ≡ cond done (store_block cpu block.old).bytes block.old }
{
    if done {
        store_block(cpu, block);
    }
}

// A call on the state that a block holds: the number of the reply, and `weight` times the vector that was entered.
pub(crate) fn on_block<F: FnOnce(Cpu, &mut [u8]) -> Stepped>(
    weight: u32,
    block: &mut [u8],
    mem: &mut [u8],
    call: F,
) -> u32
    requires callable { F.IsAlwaysCallable call }
    requires small { weight ≤ 256 }
    ensures { IsOnBlock (F.post call) weight block.old mem.old result block.new mem.new }
{
    let Answer { reply, cpu: given } = opened(&*block, &*mem);
    if !is_done(reply) {
        return number_of(reply);
    }
    let Stepped { reply, vector, cpu } = call(given, mem);
    store_after(is_done(reply), cpu, block);
    number_of(reply) + weight * vector as u32
}

// Returns from an exception: the number of the reply.
pub fn rte(block: &mut [u8], mem: &mut [u8]) -> u32
    ensures { called result block.new mem.new ≡ rte_on block.old (lent mem.old) }
{
    on_block(0, block, mem, |cpu, mem| rte_call(cpu, &*mem))
}

// Enters an exception, keeping the mask: the number of the reply.
pub fn exception(block: &mut [u8], mem: &mut [u8], vector: u8, pc: u32) -> u32
    ensures { called result block.new mem.new ≡ exception_on block.old (lent mem.old) vector pc None }
{
    on_block(0, block, mem, |cpu, mem| {
        exception_call(cpu, mem, vector, pc, None)
    })
}

// Enters an exception at a level: the number of the reply.
pub fn exception_at(block: &mut [u8], mem: &mut [u8], vector: u8, pc: u32, level: u8) -> u32
    ensures { called result block.new mem.new ≡ exception_on block.old (lent mem.old) vector pc (Some level) }
{
    on_block(0, block, mem, |cpu, mem| {
        exception_call(cpu, mem, vector, pc, Some(level))
    })
}

// Enters an interrupt: the number of the reply.
pub fn interrupt(block: &mut [u8], mem: &mut [u8], vector: u8, level: u8) -> u32
    ensures { called result block.new mem.new ≡ interrupt_on block.old (lent mem.old) vector level }
{
    on_block(0, block, mem, |cpu, mem| {
        interrupt_call(cpu, mem, vector, level)
    })
}
