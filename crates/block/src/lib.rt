// The state block: the state that it says, and the block of a state. Document 01: "A state block is 128 bytes".
#![tactic(auto)]

mod number;
pub mod read;
pub mod store;

use manual::block_places;

pub(crate) type Block = [u8; block_places::BLOCK_BYTES];
