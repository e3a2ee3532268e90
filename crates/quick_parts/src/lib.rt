// What the quick bodies stand on: a change done in place, operands at the near modes, and sums of longs.
#![tactic(auto)]

pub mod inplace;
pub mod longs;
pub mod operands;

use manual::Write;

// Where an operand in memory is, the address after its extension words, and the move of its register.
#[derive(Clone, Copy)]
pub struct Spot {
    pub at: u32,
    pub next: u32,
    pub moved: Write,
}

// What an operand reads, the address after its extension words, and the move of its register.
#[derive(Clone, Copy)]
pub struct Reading {
    pub value: u32,
    pub next: u32,
    pub moved: Write,
}
