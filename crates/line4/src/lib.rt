// Line 4: its bodies, and the line by its rows. An instruction takes what it may look at and no more, one by one as its definition does: a signature says what
// it cannot depend on. So no struct goes round the registers, the address, the word and memory.
#![tactic(auto)]

pub mod control;
pub mod line4;
pub mod single;
pub mod status;
