// Lines 5, 6, 7 and 9, and the sums that lines 9 and D share. An instruction takes what it may look at and no more, one by one as its definition does: a signature says what
// it cannot depend on. So no struct goes round the registers, the address, the word and memory.
#![tactic(auto)]

pub mod line5;
pub mod line6;
pub mod line7;
pub mod line9;
pub mod sums;
