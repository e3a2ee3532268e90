// Line 6: BRA, BSR and Bcc.
#![tactic(auto, unfolding(instructions::specs::Line6::bcc, instructions::specs::Line6::bra, instructions::specs::Line6::bsr, instructions::specs::Line6::displacement, instructions::specs::Line6::displacement_bytes, instructions::specs::Line6::line6, instructions::specs::Rows::place_in))]

ghost use Rattle.std.specs.Prelude.{◌≡◌, ◌+◌, ◌*◌, ◌/◌, ◌%◌};
ghost use Rattle.manual.specs.Memory.{mapped};
ghost use Rattle.instructions.specs.Line6.{displacement as displacement_of, displacement_bytes, bra as bra_of, bsr as bsr_of, bcc as bcc_of, line6 as line6_of};

use address::changes::{illegal, jump, push, refused};
use manual::{Change, Fault, Size};
use memory::load;
use word::conditions::condition;
use word::word::{plus, sign_extended};

fn displacement(mem: &[u8], pc: u32, low: u32) -> Result<u32, Fault>
    ensures { result ≡ displacement_of (mapped mem.now) pc low }
{
    if low == 0 {
        match load(mem, pc, Size::Word) {
            Ok(v) => Ok(sign_extended(Size::Word, v)),
            Err(x) => Err(x),
        }
    } else if low == 255 {
        load(mem, pc, Size::Long)
    } else {
        Ok(sign_extended(Size::Byte, low))
    }
}

fn displacement_bytes(low: u32) -> u32
    ensures { result ≡ displacement_bytes low }
{
    if low == 0 {
        2
    } else if low == 255 {
        4
    } else {
        0
    }
}

// BRA: the program goes on at a displacement from the word after.
pub fn bra(at: u32, sr: u16, mem: &[u8], op: u32) -> Change
    ensures { result ≡ bra_of at sr (mapped mem.now) op }
{
    let pc = plus(at, 2);
    let d = match displacement(mem, pc, op % 256) {
        Ok(d) => d,
        Err(x) => return refused(x),
    };
    jump(sr, plus(pc, d))
}

// BSR: the address of the next instruction is pushed, and the program goes on like BRA.
pub fn bsr(g: &[u32; 16], at: u32, sr: u16, mem: &[u8], op: u32) -> Change
    ensures { result ≡ bsr_of g.now at sr (mapped mem.now) op }
{
    let pc = plus(at, 2);
    let d = match displacement(mem, pc, op % 256) {
        Ok(d) => d,
        Err(x) => return refused(x),
    };
    let target = plus(pc, d);
    push(g, sr, target, plus(pc, displacement_bytes(op % 256)))
}

fn bcc(at: u32, sr: u16, mem: &[u8], op: u32) -> Change
    ensures { result ≡ bcc_of at sr (mapped mem.now) op }
{
    let pc = plus(at, 2);
    let d = match displacement(mem, pc, op % 256) {
        Ok(d) => d,
        Err(x) => return refused(x),
    };
    if condition(op / 256, sr) {
        jump(sr, plus(pc, d))
    } else {
        jump(sr, plus(pc, displacement_bytes(op % 256)))
    }
}

// What a word of line 6 changes, taken for the instruction of a row.
pub fn instruction(row: u8, g: &[u32; 16], at: u32, sr: u16, mem: &[u8], op: u32) -> Change
    ensures { result ≡ line6_of row g.now at sr (mapped mem.now) op }
{
    match row {
        rows::BRA => bra(at, sr, mem, op),
        rows::BSR => bsr(g, at, sr, mem, op),
        rows::BCC => bcc(at, sr, mem, op),
        _ => illegal(at, sr),
    }
}
