// The machine's data: what the definition in specs/ speaks of, and what the crates above pass around.
#![tactic(auto)]

pub mod block_places;

// The size of an operand.
#[derive(Clone, Copy)]
pub enum Size {
    Byte,
    Word,
    Long,
}

// The multiply-accumulate unit. Each accumulator is a pattern of 48 bits; what number it stands for is the mode's to say.
#[derive(Clone, Copy)]
pub struct Emac {
    pub macsr: u32,
    pub mask: u32,
    pub acc: [u64; 4],
}

// The state. `r` is D0 to D7 and then A0 to A7; `other` is the stack pointer that A7 is not.
#[derive(Clone, Copy)]
pub struct Cpu {
    pub r: [u32; 16],
    pub pc: u32,
    pub sr: u16,
    pub other: u32,
    pub vbr: u32,
    pub cacr: u32,
    pub emac: Emac,
    pub stopped: bool,
}

// What memory can answer other than a number.
#[derive(Clone, Copy)]
pub enum Fault {
    Outside,
}

// An operand as an opcode word names it, by its mode and its register.
#[derive(Clone, Copy)]
pub enum Operand {
    Data(u32),
    Address(u32),
    Indirect(u32),
    PostIncrement(u32),
    PreDecrement(u32),
    Displaced(u32),
    Indexed(u32),
    AbsoluteWord,
    AbsoluteLong,
    PcDisplaced,
    PcIndexed,
    Immediate,
    Zero,
}

// Where an operand is: a data register, an address register, memory, or in the instruction itself.
#[derive(Clone, Copy)]
pub enum Place {
    D(u32),
    A(u32),
    M(u32),
    I(u32),
}

// A register write: 0 to 7 are D0 to D7, 8 to 15 are A0 to A7, anything above is none. A number and no Option, for
// Registers.written has a meaning for each number.
#[derive(Clone, Copy)]
pub struct Write {
    pub to: u32,
    pub value: u32,
}

// What an operand reads: the value or the fault, the address after its extension words, and its register's move.
#[derive(Clone, Copy)]
pub struct Source {
    pub got: Result<u32, Fault>,
    pub next: u32,
    pub moved: Write,
}

// Where an operand is written: its place or the fault, the address after its extension words, and its register's move.
#[derive(Clone, Copy)]
pub struct Destination {
    pub place: Result<Place, Fault>,
    pub next: u32,
    pub moved: Write,
}

// What AND, OR and EOR do to each pair of bits.
#[derive(Clone, Copy)]
pub enum Logic {
    And,
    Or,
    Eor,
}

// A result of a size, and what it says of itself.
#[derive(Clone, Copy)]
pub struct Sum {
    pub value: u32,
    pub negative: bool,
    pub zero: bool,
    pub overflow: bool,
    pub carry: bool,
}

// A shifted long, and the last bit that went out.
#[derive(Clone, Copy)]
pub struct Shifted {
    pub value: u32,
    pub carry: bool,
}

// A quotient and its remainder.
#[derive(Clone, Copy)]
pub struct Quotient {
    pub quotient: u32,
    pub remainder: u32,
}

// How the EMAC reads its operands and accumulators: MACSR's bits FI, SU, RT and OMC.
#[derive(Clone, Copy)]
pub struct Mode {
    pub fi: bool,
    pub su: bool,
    pub rt: bool,
    pub omc: bool,
}

// What of the EMAC a move writes.
#[derive(Clone, Copy)]
pub enum EmacPart {
    Acc,
    Ext,
    Macsr,
    Mask,
}

// The control registers that MOVEC is carried for.
#[derive(Clone, Copy)]
pub enum ControlRegister {
    Cacr,
    Vbr,
}

// The answers, 0 to 9 in the order of their numbers. Done is one of them, as document 01 numbers it, and so no Option stands for it.
#[derive(Clone, Copy)]
pub enum Reply {
    Done,
    TooLong,
    NotAdmitted,
    Stopped,
    NotInside,
    NotCarried,
    OutOfRange,
    Masked,
    WrongVersion,
    WrongLength,
}

// What an instruction leaves to be done beyond its own registers. StoreMany and LoadMany are MOVEM's: a mask of registers
// and an address. Stop, PushStatus and Status hand on a new status register. Accumulate is MAC and MSAC: the accumulator,
// the scale factor, whether the product is taken from it, and the two operands. MoveControl is MOVEC: whether the control
// register is written, which one it is, and the general register.
#[derive(Clone, Copy)]
pub enum Action {
    Nothing,
    Store(u32, Size, u32),
    StoreMany(u32, u32),
    LoadMany(u32, u32),
    Enter(u8, u32),
    Return,
    Status(u32),
    Stop(u32),
    PushStatus(u32),
    Halt,
    SetOther(u32),
    Accumulate(u32, u32, bool, u32, u32),
    SetAcc(u32, u32),
    SetExt(u32, u32),
    SetMacsr(u32),
    SetMask(u32),
    CopyAcc(u32, u32),
    ClearAcc(u32),
    MoveControl(bool, ControlRegister, u32),
    Refuse(Reply),
}

// All that an instruction changes: nothing else of the machine can differ after it. `ccr` is the five condition codes.
#[derive(Clone, Copy)]
pub struct Change {
    pub pc: u32,
    pub ccr: u32,
    pub first: Write,
    pub second: Write,
    pub action: Action,
}

// What a step, an entry or a return answers: the reply, the vector that was entered, or 0, and the state. No Result, here and below:
// a refusal hands back the state that was given (Reply.refusal).
#[derive(Clone, Copy)]
pub struct Stepped {
    pub reply: Reply,
    pub vector: u8,
    pub cpu: Cpu,
}

// What a run answers: the reply, how many steps were done, and the state.
#[derive(Clone, Copy)]
pub struct Ran {
    pub reply: Reply,
    pub count: u32,
    pub cpu: Cpu,
}

// What an image file that is accepted says: the budget and the state.
#[derive(Clone, Copy)]
pub struct Loaded {
    pub budget: u32,
    pub cpu: Cpu,
}

// What a question of the state answers: the reply and the number. No Result, for a refusal has a number too, 0 (Exceptions.told).
#[derive(Clone, Copy)]
pub struct Told {
    pub reply: Reply,
    pub value: u64,
}

// What a pop answers: the reply, the number, and the state, which a refusal has too (Exceptions.not_popped).
#[derive(Clone, Copy)]
pub struct Popped {
    pub reply: Reply,
    pub value: u32,
    pub cpu: Cpu,
}

// What a call on a unit alone answers: the reply and the unit, as it was where the call is refused (UnitCalls.answer).
#[derive(Clone, Copy)]
pub struct EmacAnswer {
    pub reply: Reply,
    pub emac: Emac,
}

// What any other call answers: the reply and the state.
#[derive(Clone, Copy)]
pub struct Answer {
    pub reply: Reply,
    pub cpu: Cpu,
}
