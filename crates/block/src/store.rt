// The block of 128 bytes that holds a state. Document 01: "A state block is 128 bytes".
ghost use Rattle.std.specs.Prelude.{◌≡◌, ◌+◌, ◌≤◌};
ghost use Rattle.manual.specs.Memory.{store_at};
ghost use Rattle.manual.specs.Emac.{mode_of, acc_of, block_number};
ghost use Rattle.manual.specs.Block.{block_bytes, registers_at, headed, with_longs, with_controls, with_accs, with_unit, block_of, stored, store_block};

use super::Block;
use emac::accumulators::acc_of;
use emac::flags::mode_of;
use emac::number::block_number;
use manual::{Cpu, Emac, Reply, block_places};
use state::status::admitted;
use word::flags::bit;

// The n low bytes of v, highest first: one function for every width, as the definition has.
#[tactic(auto, unfolding(manual::specs::Memory::store_at))]
fn write_number(block: &mut Block, at: usize, n: usize, v: u64)
    requires { at + n ≤ block_bytes }
    ensures { block.new ≡ store_at block.old at n v }
{
    let mut w = v;
    for k in 0..n {
        block[at + (n - 1 - k)] = (w % 0x100) as u8;
        w /= 0x100;
    }
}

fn write_long(block: &mut Block, at: usize, v: u32)
    requires { at + 4 ≤ block_bytes }
    ensures { block.new ≡ store_at block.old at 4 v }
{
    write_number(block, at, 4, v as u64);
}

#[tactic(auto, unfolding(manual::specs::Block::headed))]
fn headed() -> Block
    ensures { result ≡ headed }
{
    let mut block = [0; block_places::BLOCK_BYTES];
    write_number(&mut block, block_places::VERSION_AT, 1, 1);
    write_long(
        &mut block,
        block_places::LENGTH_AT,
        block_places::BLOCK_REST,
    );
    block
}

#[tactic(auto, unfolding(manual::specs::Block::with_longs))]
fn write_registers(block: &mut Block, g: &[u32; 16])
    ensures { block.new ≡ with_longs g.now 0 16 registers_at block.old }
{
    for i in 0..16 {
        write_long(block, block_places::REGISTERS_AT + i * 4, g[i]);
    }
}

#[tactic(auto, unfolding(manual::specs::Block::with_controls))]
fn write_controls(cpu: Cpu, block: &mut Block)
    ensures { block.new ≡ with_controls cpu block.old }
{
    write_long(block, block_places::PC_AT, cpu.pc);
    write_number(block, block_places::SR_AT, 2, cpu.sr as u64);
    write_long(block, block_places::OTHER_AT, cpu.other);
    write_long(block, block_places::VBR_AT, cpu.vbr);
    write_long(block, block_places::CACR_AT, cpu.cacr);
}

fn number_of(e: Emac, i: u32) -> u64
    ensures { result ≡ block_number (mode_of e.macsr) (acc_of e i) }
{
    block_number(mode_of(e.macsr), acc_of(e, i))
}

#[tactic(auto, unfolding(crate::proofs::StoreLoops::accs, manual::specs::Block::with_accs))]
fn write_accs(block: &mut Block, e: Emac)
    ensures { block.new ≡ with_accs e block.old }
{
    for i in 0..4 {
        write_number(
            block,
            block_places::ACC0_AT + i * 8,
            8,
            number_of(e, i as u32),
        );
    }
}

#[tactic(auto, unfolding(manual::specs::Block::with_unit))]
fn write_unit(block: &mut Block, e: Emac)
    ensures { block.new ≡ with_unit e block.old }
{
    write_long(block, block_places::MACSR_AT, e.macsr);
    write_long(block, block_places::MASK_AT, e.mask);
    write_accs(block, e);
}

#[tactic(auto, unfolding(manual::specs::Block::block_of))]
fn block_of(cpu: Cpu) -> Block
    ensures { result ≡ block_of cpu }
{
    let mut block = headed();
    write_registers(&mut block, &cpu.r);
    write_controls(cpu, &mut block);
    write_unit(&mut block, cpu.emac);
    write_number(
        &mut block,
        block_places::STOPPED_AT,
        1,
        bit(cpu.stopped) as u64,
    );
    block
}

// The state written as a block; refused with 9 where there are not 128 bytes for it.
#[tactic(auto, unfolding(manual::specs::Block::store_block))]
pub fn store_block(cpu: Cpu, bytes: &mut [u8]) -> Reply
    ensures { stored result bytes.new ≡ store_block cpu bytes.old }
{
    if bytes.len() != block_places::BLOCK_BYTES {
        return Reply::WrongLength;
    }
    if !admitted(cpu) {
        return Reply::NotAdmitted;
    }
    bytes.copy_from_slice(&block_of(cpu));
    Reply::Done
}
