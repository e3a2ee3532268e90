// Lines 0 to 3. An instruction takes what it may look at and no more, one by one as its definition does: a signature says what
// it cannot depend on. So no struct goes round the registers, the address, the word and memory.
#![tactic(auto)]

mod bits;
pub mod line0;
pub mod lines1to3;
