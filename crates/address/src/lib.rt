#![tactic(auto)]

pub mod changes;
pub mod operands;
