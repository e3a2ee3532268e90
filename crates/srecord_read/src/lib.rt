// A text of S-records, read into a memory: tested whole, then stored.
#![tactic(auto)]

pub mod read;
mod text;
