// Sums and differences: ADD, ADDA, ADDX, SUB, SUBA, SUBX, and what ADDQ and SUBQ do to a place.
#![tactic(auto, unfolding(instructions::specs::Line9D::add_to_data, instructions::specs::Line9D::add_to_memory, instructions::specs::Line9D::add_to_place, instructions::specs::Line9D::adda, instructions::specs::Line9D::addx, instructions::specs::Line9D::more_or_less, instructions::specs::Line9D::sums, instructions::specs::Rows::place_in))]

ghost use Rattle.std.specs.Prelude.{◌≡◌, ◌+◌, ◌*◌, ◌/◌, ◌%◌};
ghost use Rattle.instructions.specs.Line9D.{add_to_data, add_to_place, add_to_memory, more_or_less, adda as adda_of, addx as addx_of, sums as sums_of};
ghost use Rattle.manual.specs.Memory.{mapped};
ghost use Rattle.manual.specs.Differences.{any_size};
ghost use Rattle.instructions.specs.Rows.{place_in};

use address::changes::{done, illegal, put_to, refused};
use address::operands::{destination, fetch, source};
use manual::{Change, Size};
use word::flags::{extended_codes, kept_codes, sum_codes, sum_or_difference};
use word::registers::{address_after, data, no_write, write_address, write_data};
use word::word::{merged, minus, plus, sign_extended, size_of};

// ADD to Dn, or SUB.
pub fn add_to_data(add: bool, g: &[u32; 16], at: u32, mem: &[u8], op: u32) -> Change
    ensures { result ≡ add_to_data add g.now at (mapped mem.now) op }
{
    let z = size_of(op / 64);
    let from = source(g, mem, plus(at, 2), op, z);
    let v = match from.got {
        Ok(v) => v,
        Err(x) => return refused(x),
    };
    let old = data(g, op / 512 % 8);
    let r = sum_or_difference(add, z, v, old, false);
    let codes = sum_codes(r);
    done(
        from.next,
        codes,
        from.moved,
        write_data(op / 512 % 8, merged(z, old, r.value)),
    )
}

// A number added to the value at an operand's place, or taken from it.
pub fn add_to_place(
    add: bool,
    z: Size,
    g: &[u32; 16],
    at: u32,
    mem: &[u8],
    op: u32,
    n: u32,
) -> Change
    ensures { result ≡ add_to_place add z g.now at (mapped mem.now) op n }
{
    let to = destination(g, mem, plus(at, 2), op, z);
    let v = match fetch(g, mem, to.place, z) {
        Ok(v) => v,
        Err(x) => return refused(x),
    };
    let r = sum_or_difference(add, z, n, v, false);
    let codes = sum_codes(r);
    put_to(g, codes, to, z, r.value)
}

// ADD to memory, or SUB.
pub fn add_to_memory(add: bool, g: &[u32; 16], at: u32, mem: &[u8], op: u32) -> Change
    ensures { result ≡ add_to_memory add g.now at (mapped mem.now) op }
{
    add_to_place(add, size_of(op / 64), g, at, mem, op, data(g, op / 512 % 8))
}

// A number added to a long, or taken from it, wrapped. Line8.word_divided and LineC.product choose alike, each between two of its own.
pub fn more_or_less(add: bool, old: u32, v: u32) -> u32
    ensures { result ≡ more_or_less add old v }
{
    if add { plus(old, v) } else { minus(old, v) }
}

// ADDA, or SUBA.
pub fn adda(add: bool, z: Size, g: &[u32; 16], at: u32, sr: u16, mem: &[u8], op: u32) -> Change
    ensures { result ≡ adda_of add z g.now at sr (mapped mem.now) op }
{
    let from = source(g, mem, plus(at, 2), op, z);
    let v = match from.got {
        Ok(v) => v,
        Err(x) => return refused(x),
    };
    let old = address_after(g, from.moved, op / 512 % 8);
    let r = more_or_less(add, old, sign_extended(z, v));
    let codes = kept_codes(sr);
    done(from.next, codes, from.moved, write_address(op / 512 % 8, r))
}

// ADDX, or SUBX.
pub fn addx(add: bool, g: &[u32; 16], at: u32, sr: u16, op: u32) -> Change
    ensures { result ≡ addx_of add g.now at sr op }
{
    let z = size_of(op / 64);
    let old = data(g, op / 512 % 8);
    let r = sum_or_difference(add, z, data(g, op % 8), old, sr / 16 % 2 == 1);
    let next = plus(at, 2);
    let codes = extended_codes(sr, r);
    done(
        next,
        codes,
        no_write(),
        write_data(op / 512 % 8, merged(z, old, r.value)),
    )
}

// A row's place in a line, and past all places for a row of another line.
fn place_in(first: u8, row: u8) -> u8
    ensures { result ≡ place_in first row }
{
    if row < first {
        rows::ROW_COUNT
    } else {
        row - first
    }
}

// Lines 9 and D by their rows: with X, three that are illegal, to An, to Dn, to memory.
pub fn by_row(
    first: u8,
    add: bool,
    row: u8,
    g: &[u32; 16],
    at: u32,
    sr: u16,
    mem: &[u8],
    op: u32,
) -> Change
    ensures { result ≡ sums_of first add row g.now at sr (mapped mem.now) op }
{
    match place_in(first, row) {
        0 => addx(add, g, at, sr, op),
        1 => addx(add, g, at, sr, op),
        2 => addx(add, g, at, sr, op),
        3 => illegal(at, sr),
        4 => illegal(at, sr),
        5 => illegal(at, sr),
        6 => adda(add, Size::Word, g, at, sr, mem, op),
        7 => adda(add, Size::Long, g, at, sr, mem, op),
        8 => add_to_data(add, g, at, mem, op),
        9 => add_to_memory(add, g, at, mem, op),
        _ => illegal(at, sr),
    }
}
