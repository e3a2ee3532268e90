// The image file: from bytes to a machine, and from a run to its text.
#![tactic(auto)]

pub mod file;
pub mod print;

pub use manual::Loaded;

// A text of `len` bytes, and zeros after it.
#[derive(Clone, Copy)]
pub struct Text {
    pub bytes: [u8; 256],
    pub len: usize,
}
