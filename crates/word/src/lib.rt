// Numbers of a size, single bits, the registers, the condition codes and the conditions: what every instruction uses.
#![tactic(auto)]

pub mod bits;
pub mod conditions;
pub mod flags;
pub mod registers;
pub mod word;
