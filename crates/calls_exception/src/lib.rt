// The calls on exceptions, refusals first.
#![tactic(auto)]

pub mod entry;
