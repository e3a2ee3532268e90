// Lines B to F, and line 8, whose OR is line C's AND. An instruction takes what it may look at and no more, one by one as its definition does: a signature says what
// it cannot depend on. So no struct goes round the registers, the address, the word and memory.
#![tactic(auto)]

pub mod line8;
pub mod lineb;
pub mod linec;
pub mod lined;
pub mod linee;
pub mod linef;
