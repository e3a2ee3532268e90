#![tactic(auto)]

pub mod entry;
