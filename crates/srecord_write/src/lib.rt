// A range of a memory and a start address, written as S-records.
#![tactic(auto)]

pub mod write;
