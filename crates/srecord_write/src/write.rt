// A range of a memory and a start address, written as S3 lines and an S7 line.
ghost use Rattle.std.specs.Prelude.{◌≡◌, ◌+◌, ◌*◌, ◌/◌, ◌%◌, ◌-◌, ◌≤◌, ◌<◌, length, fold};
ghost use Rattle.std.proofs.lemmas.List.Edits.{sets};
ghost use Rattle.manual.specs.Lent.{longest};
ghost use Rattle.srecord.specs.Records.{total};
ghost use Rattle.srecord.specs.Writing.{digit as digit_of, hexed, line_of, writing, write_text};
ghost use Rattle.srecord.specs.TextCalls.{text_called, write_call};
ghost use Rattle.srecord_write.specs.Puts.{Puts, text_from, text_size, room};

use srecord::{TextReply, WriteAnswer};
use srecord_line::replies::text_number;

#[tactic(auto, unfolding(srecord::specs::Writing::digit), using(std::proofs::lemmas::Bool::Decides::nat_tests))]
fn digit(d: u8) -> u8
    requires { d < 16 }
    ensures { result ≡ digit_of d }
{
    if d < 10 { b'0' + d } else { b'A' + (d - 10) }
}

// What puts bytes into a text answers the place behind them.
fn put(text: &mut [u8], at: usize, bytes: &[u8]) -> usize
    requires { at + length bytes.now ≤ length text.old }
    ensures { Puts text.old at bytes.now text.new result }
{
    let end = at + bytes.len();
    text[at..end].copy_from_slice(bytes);
    end
}

#[tactic(auto, unfolding(srecord::specs::Writing::hexed))]
fn put_hex(text: &mut [u8], at: usize, bytes: &[u8]) -> usize
    requires { at + 2 * length bytes.now ≤ length text.old }
    ensures { Puts text.old at (hexed bytes.now) text.new result }
{
    for (i, b) in bytes.iter().enumerate() {
        text[at + 2 * i] = digit(*b / 16);
        text[at + 2 * i + 1] = digit(*b % 16);
    }
    at + 2 * bytes.len()
}

// The low byte of the sum.
fn low_sum(bytes: &[u8]) -> u8
    ensures { result ≡ fold (λ sum b. (sum + b) % 256) 0 bytes.now }
{
    bytes.iter().fold(0, |sum: u8, b| sum.wrapping_add(*b))
}

#[tactic(auto, using(crate::proofs::WriteLaws::low_sums))]
fn checksum(count: u8, address: &[u8; 4], bytes: &[u8]) -> u8
    ensures { result ≡ 255 - (count + (total address.now + total bytes.now)) % 256 }
{
    let sum = count
        .wrapping_add(low_sum(address))
        .wrapping_add(low_sum(bytes));
    255 - sum
}

// A line with an address of four bytes.
#[tactic(auto, using(crate::proofs::WriteLaws::length_hexed))]
fn put_line(text: &mut [u8], at: usize, kind: u8, address: u32, bytes: &[u8]) -> usize
    requires { (at + (15 + 2 * length bytes.now) ≤ length text.old) × (length bytes.now ≤ 16) }
    ensures { Puts text.old at (line_of kind address bytes.now) text.new result }
{
    let count = bytes.len() as u8 + 5;
    let address = address.to_be_bytes();
    let sum = checksum(count, &address, bytes);
    let behind_kind = put(text, at, &[b'S', kind]);
    let behind_count = put_hex(text, behind_kind, &[count]);
    let behind_address = put_hex(text, behind_count, &address);
    let behind_data = put_hex(text, behind_address, bytes);
    let behind_sum = put_hex(text, behind_data, &[sum]);
    put(text, behind_sum, b"\n")
}

// The length of the text for so many bytes.
fn text_length(count: usize) -> usize
    requires { count ≤ longest }
    ensures { result ≡ text_size count }
{
    15 * ((count + 15) / 16) + 2 * count + 15
}

fn put_text(text: &mut [u8], bytes: &[u8], from: u32, start: u32)
    requires { (from + length bytes.now ≤ longest) × (text_size (length bytes.now) ≤ length text.old) }
    ensures { text.new ≡ sets text.old 0 (text_from from bytes.now start) }
{
    let mut address = from;
    let mut at = 0;
    for data in bytes.chunks(16) {
        at = put_line(text, at, b'3', address, data);
        address += 16;
    }
    put_line(text, at, b'7', start, &[]);
}

// How long the text of a range is, or why it is not written: for a memory and a text of so many bytes.
fn fitting(size: usize, from: u32, count: u32, given: usize) -> Result<u32, TextReply>
    ensures { result ≡ room size from count given }
{
    if 0x100_0000 < size {
        return Err(TextReply::TooLong);
    }
    let n = count as usize;
    if size < from as usize + n {
        return Err(TextReply::NotInside);
    }
    let length = text_length(n);
    if given < length {
        return Err(TextReply::NoRoom);
    }
    Ok(length as u32)
}

// A range and a start address, written into a text: the reply and how many bytes were written. Refused, the text is as it was.
pub fn write(mem: &[u8], from: u32, count: u32, start: u32, text: &mut [u8]) -> WriteAnswer
    ensures { writing result text.new ≡ write_text mem.now from count start text.old }
{
    match fitting(mem.len(), from, count, text.len()) {
        Ok(length) => {
            let first = from as usize;
            put_text(text, &mem[first..first + count as usize], from, start);
            WriteAnswer {
                reply: TextReply::Done,
                count: length,
            }
        }
        Err(reply) => WriteAnswer { reply, count: 0 },
    }
}

// The same in one number: the reply's, and 256 times the count of bytes that were written.
#[tactic(auto, unfolding(srecord::specs::TextCalls::write_call))]
pub fn write_call(mem: &[u8], from: u32, count: u32, start: u32, text: &mut [u8]) -> u64
    ensures { text_called result text.new ≡ write_call mem.now from count start text.old }
{
    let w = write(mem, from, count, start, text);
    text_number(w.reply) as u64 + 256 * w.count as u64
}
