// The multiply-accumulate unit, by value.
#![tactic(auto)]

pub mod accumulators;
pub mod flags;
pub mod number;
pub mod operand;
pub mod product;
pub mod read;
pub mod sum;
