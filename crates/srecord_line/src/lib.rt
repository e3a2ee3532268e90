// A line of S-records: what record it is, its bytes stored, and the numbers of the replies.
#![tactic(auto)]

pub mod hex;
pub mod line;
pub mod replies;
#[cfg(test)]
mod tests;

use hex::HexBytes;

// What a line is to its reader: data by its address and its bytes, the end by the start address, or nothing that counts.
#[derive(Drop)]
pub enum Record<'a> {
    Data(u32, HexBytes<'a>),
    End(u32),
    Skipped,
}

// The same with the count of the bytes in their place. `HexBytes` cannot be copied, and lies in the line; a `Counted` is free of both.
#[derive(Clone, Copy)]
pub enum Counted {
    Data(u32, usize),
    End(u32),
    Skipped,
}

// What is wrong with a line: its form, or the sum of what is well formed.
#[derive(Clone, Copy)]
pub enum LineError {
    Malformed,
    WrongSum,
}
