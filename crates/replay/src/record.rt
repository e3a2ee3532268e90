// One record: a call, and the answer that is expected of it.
ghost use Rattle.std.specs.Prelude.{◌≡◌, ◌≤◌, eqb, length};
ghost use Rattle.manual.specs.Memory.{value_at};
ghost use Rattle.instructions.specs.HostCalls.{called};
ghost use Rattle.replay.specs.Asked.{call_of, asked, answered};

use crate::patch::patch;
use crate::rest::Rest;
use harness::{exception, exception_at, interrupt, rte, run, step};
use memory::long_at;

// The calls of the harness that a record may name.
#[derive(Clone, Copy)]
pub(crate) enum Call {
    Step,
    Run,
    Exception,
    ExceptionAt,
    Interrupt,
    Rte,
}

impl From<u8> for Call {
    ghost use Rattle.std.specs.Prelude.{◌≡◌};
    ghost use Rattle.replay.specs.Asked.{call_of};

    ghost from_gives = { λ kind call. call ≡ call_of kind };

    #[tactic(auto, unfolding(crate::specs::Asked::call_of))]
    fn from(kind: u8) -> Self {
        match kind {
            0 => Call::Step,
            1 => Call::Run,
            2 => Call::Exception,
            3 => Call::ExceptionAt,
            4 => Call::Interrupt,
            _ => Call::Rte,
        }
    }
}

// The call that the head names, on a block and a memory.
#[tactic(auto, unfolding(crate::specs::Asked::asked, crate::specs::Asked::answer_of))]
fn made(head: &[u8; 16], block: &mut [u8], mem: &mut [u8]) -> u64
    ensures { called result block.new mem.new ≡ asked head.now block.old mem.old }
{
    let vector = head[1];
    let level = head[2];
    let number = long_at(head, 6);
    match Call::from(head[0]) {
        Call::Step => u64::from(step(block, mem)),
        Call::Run => run(block, mem, number),
        Call::Exception => u64::from(exception(block, mem, vector, number)),
        Call::ExceptionAt => u64::from(exception_at(block, mem, vector, number, level)),
        Call::Interrupt => u64::from(interrupt(block, mem, vector, level)),
        Call::Rte => u64::from(rte(block, mem)),
    }
}

#[tactic(auto, unfolding(manual::specs::Memory::value_at))]
fn expected(head: &[u8; 16]) -> u64
    ensures { result ≡ value_at head.now 10 5 }
{
    u64::from(head[10]) * 0x1_0000_0000 + u64::from(long_at(head, 11))
}

// Whether the call answers what the head expects, on as much of the block and the memory as it says.
fn answers(head: &[u8; 16], block: &mut [u8], mem: &mut [u8]) -> bool
    ensures { (result ≡ eqb (answered head.now block.old mem.old).answer (value_at head.now 10 5)) × (block.new ≡ (answered head.now block.old mem.old).block) × (mem.new ≡ (answered head.now block.old mem.old).storage) }
{
    let b = usize::from(head[3]).min(block.len());
    let m = usize::from(u16::from_be_bytes([head[4], head[5]])).min(mem.len());
    let lent_block = &mut block[..b];
    let lent_mem = &mut mem[..m];
    made(head, lent_block, lent_mem) == expected(head)
}

// The arrays that stay from one record to the next.
#[derive(Clone, Copy, PartialEq, Eq)]
pub(crate) struct Record {
    head: [u8; 16],
    block: [u8; 160],
    mem: [u8; 1024],
}

impl Record {
    pub(crate) fn new() -> Self {
        Record {
            head: [0; 16],
            block: [0; 160],
            mem: [0; 1024],
        }
    }

    // Makes the next record's call, and says whether its answer is the expected one, which then stays.
    pub(crate) fn replay(&mut self, file: &mut Rest) -> bool
        ensures { length file.new.0.now ≤ length file.old.0.now }
    {
        patch(file, &mut self.head);
        patch(file, &mut self.block);
        patch(file, &mut self.mem);
        let mut want = *self;
        let answered = answers(&self.head, &mut self.block, &mut self.mem);
        patch(file, &mut want.block);
        patch(file, &mut want.mem);
        let agrees = answered && *self == want;
        *self = want;
        agrees
    }
}
