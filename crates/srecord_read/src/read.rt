// A text, read into a memory: tested whole, then stored.
ghost use Rattle.std.specs.Prelude.{◌≡◌};
ghost use Rattle.srecord.specs.Reading.{said as said_of, lines, placed, answer_to, reading, read_text};
ghost use Rattle.srecord.specs.TextCalls.{text_called, read_call};
ghost use Rattle.srecord_read.specs.Texts.{judged, answer_of, IsRefusal};

use super::text::{bare, clear, next_line};
use srecord::{ReadAnswer, TextReply};
use srecord_line::Counted;
use srecord_line::line::{counted, inside, store_line};
use srecord_line::replies::text_number;

// What a line brings: the start address where it is an end, none where the text goes on.
fn judge(line: &[u8], size: usize) -> Result<Option<u32>, TextReply>
    ensures { result ≡ judged size (said_of line.now) }
{
    match counted(line)? {
        Counted::Data(a, n) => {
            if inside(size, a, n) {
                Ok(None)
            } else {
                Err(TextReply::NotInside)
            }
        }
        Counted::End(start) => Ok(Some(start)),
        Counted::Skipped => Ok(None),
    }
}

// The start address that a text says, for a memory of so many bytes, or why it is refused.
fn start_of(text: &[u8], size: usize) -> Result<u32, TextReply>
    ensures { (answer_of result ≡ answer_to text.now size) × IsRefusal result }
{
    if 0x100_0000 < size {
        return Err(TextReply::TooLong);
    }
    let mut rest = text;
    while let Some((line, after)) = next_line(rest) {
        if let Some(start) = judge(bare(line), size)? {
            if !clear(after) {
                return Err(TextReply::Malformed);
            }
            return Ok(start);
        }
        rest = after;
    }
    Err(TextReply::Malformed)
}

fn store_text(text: &[u8], mem: &mut [u8])
    ensures { mem.new ≡ placed (lines text.now) mem.old }
{
    let mut rest = text;
    while let Some((line, after)) = next_line(rest) {
        store_line(bare(line), mem);
        rest = after;
    }
}

// A text, read into memory: the reply and the start address. A text that is refused leaves memory as it is.
pub fn read(text: &[u8], mem: &mut [u8]) -> ReadAnswer
    ensures { reading result mem.new ≡ read_text text.now mem.old }
{
    match start_of(text, mem.len()) {
        Ok(start) => {
            store_text(text, mem);
            ReadAnswer {
                reply: TextReply::Done,
                start,
            }
        }
        Err(reply) => ReadAnswer { reply, start: 0 },
    }
}

// The same in one number: the reply's, and 256 times the start address.
#[tactic(auto, unfolding(srecord::specs::TextCalls::read_call))]
pub fn read_call(text: &[u8], mem: &mut [u8]) -> u64
    ensures { text_called result mem.new ≡ read_call text.now mem.old }
{
    let r = read(text, mem);
    text_number(r.reply) as u64 + 256 * r.start as u64
}
