// Line E: shifts of a data register.
#![tactic(auto, unfolding(instructions::specs::LineE::line_e, instructions::specs::LineE::shift, instructions::specs::LineE::shift_count, instructions::specs::LineE::shifted, instructions::specs::Rows::place_in))]

ghost use Rattle.std.specs.Prelude.{◌≡◌, ◌<◌};
ghost use Rattle.instructions.specs.LineE.{shift_count, shifted as shifted_of, shift as shift_of, line_e as line_e_of};

use address::changes::{done, illegal};
use arith::shift::{shift_codes, shifted_left, shifted_right, signed_shifted_right};
use lines5to9::line5::quick_number;
use manual::{Change, Shifted};
use word::registers::{data, no_write, write_data};
use word::word::plus;

fn shift_count(g: &[u32; 16], op: u32) -> u32
    ensures { (result ≡ shift_count g.now op) × (result < 64) }
{
    if op / 32 % 2 == 1 {
        data(g, op / 512 % 8) % 64
    } else {
        quick_number(op)
    }
}

fn shifted(signs: bool, op: u32, v: u32, n: u32) -> Shifted
    requires { n < 64 }
    ensures { result ≡ shifted_of signs op v n }
{
    if op / 256 % 2 == 1 {
        shifted_left(v, n)
    } else if signs {
        signed_shifted_right(v, n)
    } else {
        shifted_right(v, n)
    }
}

// ASL and ASR where `signs`, else LSL and LSR.
pub fn shift(signs: bool, g: &[u32; 16], at: u32, sr: u16, op: u32) -> Change
    ensures { result ≡ shift_of signs g.now at sr op }
{
    let n = shift_count(g, op);
    let s = shifted(signs, op, data(g, op % 8), n);
    let next = plus(at, 2);
    let codes = shift_codes(sr, n, s);
    done(next, codes, no_write(), write_data(op % 8, s.value))
}

// What a word of line E changes, taken for the instruction of a row.
pub fn instruction(row: u8, g: &[u32; 16], at: u32, sr: u16, op: u32) -> Change
    ensures { result ≡ line_e_of row g.now at sr op }
{
    match row {
        rows::ASX => shift(true, g, at, sr, op),
        rows::LSX => shift(false, g, at, sr, op),
        rows::ILL_E => illegal(at, sr),
        _ => illegal(at, sr),
    }
}
