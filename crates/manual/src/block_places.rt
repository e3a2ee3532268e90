// Where each part of a state block lies, as specs/Block.antt has it: what reads a block and what stores one share these.

pub const VERSION_AT: usize = 0;

pub const LENGTH_AT: usize = 1;

pub const HEAD_BYTES: usize = 5;

pub const BLOCK_BYTES: usize = 128;

pub const BLOCK_REST: u32 = 123;

pub const REGISTERS_AT: usize = 5;

pub const PC_AT: usize = 69;

pub const SR_AT: usize = 73;

pub const OTHER_AT: usize = 75;

pub const VBR_AT: usize = 79;

pub const CACR_AT: usize = 83;

pub const MACSR_AT: usize = 87;

pub const MASK_AT: usize = 91;

pub const ACC0_AT: usize = 95;

pub const STOPPED_AT: usize = 127;
