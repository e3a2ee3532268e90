// The data of S-records: what the definition in specs/ speaks of, and what the crates above pass around.
#![tactic(auto)]

// The answers to a text that is read and to a range that is written, each with its number.
#[derive(Clone, Copy)]
pub enum TextReply {
    Done = 0,
    TooLong = 1,
    NotInside = 4,
    Malformed = 10,
    WrongSum = 11,
    NoRoom = 16,
}

// How many bytes an address has.
#[derive(Clone, Copy)]
pub enum Width {
    Two = 2,
    Three = 3,
    Four = 4,
}

// What a record is by its digit, and how long its address is.
#[derive(Clone, Copy)]
pub enum Kind {
    Data(Width),
    End(Width),
    Skipped(Width),
}

// What a read answers: the reply and the start address, 0 where it is refused. The theorem refused-text and the C interface name that 0,
// so it is no Result.
#[derive(Clone, Copy)]
pub struct ReadAnswer {
    pub reply: TextReply,
    pub start: u32,
}

// What a write answers: the reply and how many bytes of the text were written, 0 where it is refused. The theorem refused_write and the C
// interface name that 0, so it is no Result.
#[derive(Clone, Copy)]
pub struct WriteAnswer {
    pub reply: TextReply,
    pub count: u32,
}
