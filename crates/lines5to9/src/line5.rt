// Line 5: ADDQ, SUBQ, Scc and TPF.
#![tactic(auto, unfolding(instructions::specs::Line5::addq, instructions::specs::Line5::addq_address, instructions::specs::Line5::line5, instructions::specs::Line5::quick_number, instructions::specs::Line5::scc, instructions::specs::Line5::tpf, instructions::specs::Rows::place_in))]

ghost use Rattle.std.specs.Prelude.{◌≡◌, ◌+◌, ◌*◌, ◌/◌, ◌%◌, ◌<◌};
ghost use Rattle.instructions.specs.Line5.{quick_number, quick_adds, addq_address, addq as addq_of, scc as scc_of, tpf as tpf_of, line5 as line5_of};
ghost use Rattle.manual.specs.Memory.{mapped};
ghost use Rattle.manual.specs.Differences.{any_size};

use super::sums::{add_to_place, more_or_less};
use address::changes::{done, illegal, jump};
use manual::{Change, Size};
use word::conditions::condition;
use word::flags::{kept_codes, sum_codes, sum_or_difference};
use word::registers::{address, data, no_write, write_address, write_data};
use word::word::{merged, plus, size_of};

// The number of ADDQ, SUBQ and a shift: 1 to 8.
pub fn quick_number(op: u32) -> u32
    ensures { result ≡ quick_number op }
{
    let n = op / 512 % 8;
    if n == 0 { 8 } else { n }
}

// ADDQ and SUBQ to An.
pub fn addq_address(g: &[u32; 16], at: u32, sr: u16, op: u32) -> Change
    ensures { result ≡ addq_address g.now at sr op }
{
    let next = plus(at, 2);
    let codes = kept_codes(sr);
    let r = more_or_less(op / 256 % 2 == 0, address(g, op % 8), quick_number(op));
    done(next, codes, no_write(), write_address(op % 8, r))
}

// ADDQ and SUBQ to any other operand.
fn addq(g: &[u32; 16], at: u32, mem: &[u8], op: u32) -> Change
    ensures { result ≡ addq_of g.now at (mapped mem.now) op }
{
    let z = size_of(op / 64);
    add_to_place(op / 256 % 2 == 0, z, g, at, mem, op, quick_number(op))
}

// Scc: the low byte of Dn all ones where the condition holds, else 0.
pub fn scc(g: &[u32; 16], at: u32, sr: u16, op: u32) -> Change
    ensures { result ≡ scc_of g.now at sr op }
{
    let next = plus(at, 2);
    let codes = kept_codes(sr);
    let old = data(g, op % 8);
    if condition(op / 256, sr) {
        done(
            next,
            codes,
            no_write(),
            write_data(op % 8, merged(Size::Byte, old, 0xFF)),
        )
    } else {
        done(
            next,
            codes,
            no_write(),
            write_data(op % 8, merged(Size::Byte, old, 0)),
        )
    }
}

fn tpf(n: u32, at: u32, sr: u16) -> Change
    requires { n < 8 }
    ensures { result ≡ tpf_of n at sr }
{
    jump(sr, plus(at, 2 + n))
}

// What a word of line 5 changes, taken for the instruction of a row.
pub fn instruction(row: u8, g: &[u32; 16], at: u32, sr: u16, mem: &[u8], op: u32) -> Change
    ensures { result ≡ line5_of row g.now at sr (mapped mem.now) op }
{
    match row {
        rows::TPF_W => tpf(2, at, sr),
        rows::TPF_L => tpf(4, at, sr),
        rows::TPF => tpf(0, at, sr),
        rows::ADDQ_AN_B => addq_address(g, at, sr, op),
        rows::ADDQ_AN_W => addq_address(g, at, sr, op),
        rows::ADDQ_AN_L => addq_address(g, at, sr, op),
        rows::SCC => scc(g, at, sr, op),
        rows::ILL_50C0 => illegal(at, sr),
        rows::ADDQ => addq(g, at, mem, op),
        _ => illegal(at, sr),
    }
}
