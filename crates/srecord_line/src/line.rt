// A line, without its line end: what record it is, and its bytes stored.
ghost use Rattle.std.specs.Prelude.{◌≡◌, Some};
ghost use Rattle.srecord.specs.Records.{kind_of, unhexed};
ghost use Rattle.srecord.specs.Reading.{said as said_of, stored};
ghost use Rattle.srecord_line.specs.Lines.{record_of, counted_of, fits_by, in_hex, is_formed};

use super::hex::{HexBytes, scan};
use super::{Counted, LineError, Record};
use srecord::{Kind, Width};

#[tactic(auto, unfolding(srecord::specs::Records::kind_of))]
fn kind_of(d: u8) -> Option<Kind>
    ensures { result ≡ kind_of d }
{
    match d {
        b'0' | b'5' => Some(Kind::Skipped(Width::Two)),
        b'1' => Some(Kind::Data(Width::Two)),
        b'2' => Some(Kind::Data(Width::Three)),
        b'3' => Some(Kind::Data(Width::Four)),
        b'7' => Some(Kind::End(Width::Four)),
        b'8' => Some(Kind::End(Width::Three)),
        b'9' => Some(Kind::End(Width::Two)),
        _ => None,
    }
}

// Whether bytes have the form of a kind: count, address and checksum, and in an end nothing else; and the count is theirs.
fn is_formed(kind: Kind, bytes: &HexBytes) -> bool
    ensures { result ≡ is_formed kind bytes.now }
{
    let n = bytes.len();
    let long = match kind {
        Kind::End(w) => n == w as usize + 2,
        Kind::Data(w) | Kind::Skipped(w) => w as usize + 2 <= n,
    };
    long && n == bytes.at(0) as usize + 1
}

// What the record of a kind is, by its digits.
fn record(kind: Kind, digits: &[u8]) -> Result<Record<'_>, LineError>
    ensures { result ≡ record_of (in_hex kind digits.now) }
{
    let Some((bytes, sum)) = scan(digits) else {
        return Err(LineError::Malformed);
    };
    if !is_formed(kind, &bytes) {
        return Err(LineError::Malformed);
    }
    if sum != 255 {
        return Err(LineError::WrongSum);
    }
    match kind {
        Kind::Data(w) => Ok(Record::Data(bytes.address(w), bytes.payload(w))),
        Kind::End(w) => Ok(Record::End(bytes.address(w))),
        Kind::Skipped(_) => Ok(Record::Skipped),
    }
}

// What record a line is, with its bytes, or what is wrong with it.
pub fn said(line: &[u8]) -> Result<Record<'_>, LineError>
    ensures { result ≡ record_of (said_of line.now) }
{
    let [b'S', digit, digits @ ..] = line else {
        return Err(LineError::Malformed);
    };
    let kind = kind_of(*digit).ok_or(LineError::Malformed)?;
    record(kind, digits)
}

// What record a line is, with the count of its bytes, or what is wrong with it.
pub fn counted(line: &[u8]) -> Result<Counted, LineError>
    ensures { result ≡ counted_of (said_of line.now) }
{
    Ok(match said(line)? {
        Record::Data(a, bytes) => Counted::Data(a, bytes.len()),
        Record::End(a) => Counted::End(a),
        Record::Skipped => Counted::Skipped,
    })
}

// Whether n bytes for an address are inside so many; no bytes always are.
pub fn inside(size: usize, a: u32, n: usize) -> bool
    ensures { result ≡ fits_by size a n }
{
    n == 0 || (n <= size && a as usize <= size - n)
}

// The bytes of a data record that are inside, stored.
pub fn store_line(line: &[u8], mem: &mut [u8])
    ensures { mem.new ≡ stored (said_of line.now) mem.old }
{
    let Ok(Record::Data(a, bytes)) = said(line) else {
        return;
    };
    if inside(mem.len(), a, bytes.len()) {
        bytes.store(mem, a as usize);
    }
}
