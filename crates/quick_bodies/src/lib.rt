// The bodies of the quick path. Each equals the definition that the plain body equals, and may leave a word, with nothing changed.
#![tactic(auto)]

pub mod far;
pub mod flow;
pub mod logic;
pub mod mac;
pub mod moves;
pub mod parts;
pub mod sums;
