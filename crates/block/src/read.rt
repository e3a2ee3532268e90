// The state that a block of 128 bytes says, or the reply that refuses it. Document 01: "A state block is 128 bytes".
ghost use Rattle.std.specs.Prelude.{◌≡◌, ◌<◌};
ghost use Rattle.manual.specs.Block.{registers_at, longs_at, acc_number as acc_number_of, emac_at, state_at, numbers_fit, not_read, read_block};

use super::Block;
use super::number::{byte_at, long_at, read_number, word_at};
use emac::flags::mode_of;
use emac::number::block_in_range;
use manual::{Answer, Cpu, Emac, Reply, block_places};
use state::fresh::fresh;
use state::status::admitted;

#[tactic(auto, unfolding(manual::specs::Block::longs_at))]
fn registers_at(block: &Block) -> [u32; 16]
    ensures { result ≡ longs_at block.now 16 registers_at }
{
    let mut g = [0; 16];
    for i in 0..16 {
        g[i] = long_at(block, block_places::REGISTERS_AT + i * 4);
    }
    g
}

fn acc_number(block: &Block, i: usize) -> u64
    requires { i < 4 }
    ensures { result ≡ acc_number_of block.now i }
{
    read_number(block, block_places::ACC0_AT + i * 8, 8)
}

fn emac_at(block: &Block) -> Emac
    ensures { result ≡ emac_at block.now }
{
    Emac {
        macsr: long_at(block, block_places::MACSR_AT),
        mask: long_at(block, block_places::MASK_AT),
        acc: std::array::from_fn(|i| acc_number(block, i) % 0x1_0000_0000_0000),
    }
}

#[tactic(auto, unfolding(manual::specs::Block::state_at))]
fn state_at(block: &Block) -> Cpu
    ensures { result ≡ state_at block.now }
{
    Cpu {
        r: registers_at(block),
        pc: long_at(block, block_places::PC_AT),
        sr: word_at(block, block_places::SR_AT),
        other: long_at(block, block_places::OTHER_AT),
        vbr: long_at(block, block_places::VBR_AT),
        cacr: long_at(block, block_places::CACR_AT),
        emac: emac_at(block),
        stopped: byte_at(block, block_places::STOPPED_AT) == 1,
    }
}

// The accumulators one by one, as the definition has them.
#[tactic(auto, unfolding(manual::specs::Block::numbers_fit))]
fn numbers_fit(block: &Block) -> bool
    ensures { result ≡ numbers_fit block.now }
{
    let k = mode_of(long_at(block, block_places::MACSR_AT));
    block_in_range(k, acc_number(block, 0))
        && block_in_range(k, acc_number(block, 1))
        && block_in_range(k, acc_number(block, 2))
        && block_in_range(k, acc_number(block, 3))
        && byte_at(block, block_places::STOPPED_AT) < 2
}

fn not_read(reply: Reply) -> Answer
    ensures { result ≡ not_read reply }
{
    Answer {
        reply,
        cpu: fresh(),
    }
}

// The state that a block holds; refused with 9, 8, 9 or 2, in this order.
#[tactic(auto, unfolding(manual::specs::Block::read_block))]
pub fn read_block(bytes: &[u8]) -> Answer
    ensures { result ≡ read_block bytes.now }
{
    if bytes.len() < block_places::HEAD_BYTES {
        return not_read(Reply::WrongLength);
    }
    if byte_at(bytes, block_places::VERSION_AT) != 1 {
        return not_read(Reply::WrongVersion);
    }
    let Some(block) = bytes.as_array::<{ block_places::BLOCK_BYTES }>() else {
        return not_read(Reply::WrongLength);
    };
    if long_at(block, block_places::LENGTH_AT) != block_places::BLOCK_REST {
        return not_read(Reply::WrongLength);
    }
    let cpu = state_at(block);
    if !(admitted(cpu) && numbers_fit(block)) {
        return not_read(Reply::NotAdmitted);
    }
    Answer {
        reply: Reply::Done,
        cpu,
    }
}
