// Shifts, products and quotients of longs.
#![tactic(auto)]

pub mod divide;
pub mod multiply;
pub mod shift;
