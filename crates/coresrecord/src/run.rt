// What the program `coresrecord` does with the bytes that it was given.
ghost use Rattle.std.specs.Prelude.{◌≡◌, [], ◌∷◌, ◌++◌};
ghost use Rattle.manual.specs.Image.{printed, text_of};
ghost use Rattle.instructions.specs.ImageRun.{image_ran};
ghost use Rattle.srecord.specs.TextRun.{text_state, text_answer, text_ran, text_run};

use image::Text;
use image::print::{answer_text, run_text};
use machine::run::run;
use manual::{Cpu, Reply};
use memory::long_at;
use srecord::TextReply;
use srecord_line::replies::text_done;
use srecord_read::read::read;
use state::fresh::fresh;
use state::status::admitted;
use word::registers::{with_address, with_pc, with_sr};

// Where each part of the input lies, as the definition has it.
const STACK_AT: usize = 0;

const STATUS_AT: usize = 4;

const BUDGET_AT: usize = 6;

const TEXT_AT: usize = 10;

const TEXT_MOST: usize = 0x10_0000;

fn text_state(head: &[u8; TEXT_AT], start: u32) -> Cpu
    ensures { result ≡ text_state head.now start }
{
    let sr = u16::from_be_bytes([head[STATUS_AT], head[STATUS_AT + 1]]);
    let cpu = with_address(fresh(), 7, long_at(head, STACK_AT));
    with_sr(with_pc(cpu, start), sr)
}

// "answer 1" and one digit more.
fn answer_from_ten(last: u8) -> Text
    ensures { printed result.bytes result.len ≡ text_of (97 ∷ 110 ∷ 115 ∷ 119 ∷ 101 ∷ 114 ∷ 32 ∷ 49 ∷ last ∷ 10 ∷ []) }
{
    let mut bytes = [0u8; 256];
    bytes[..8].copy_from_slice(b"answer 1");
    bytes[8] = last;
    bytes[9] = b'\n';
    Text { bytes, len: 10 }
}

fn refused_text(reply: TextReply) -> Text
    ensures { printed result.bytes result.len ≡ text_of (text_answer reply) }
{
    match reply {
        TextReply::Done => answer_text(Reply::Done),
        TextReply::TooLong => answer_text(Reply::TooLong),
        TextReply::NotInside => answer_text(Reply::NotInside),
        TextReply::Malformed => answer_from_ten(b'0'),
        TextReply::WrongSum => answer_from_ten(b'1'),
        TextReply::NoRoom => answer_from_ten(b'6'),
    }
}

fn read_and_run(head: &[u8; TEXT_AT], text: &[u8], mem: &mut [u8]) -> Text
    ensures { image_ran (printed result.bytes result.len) mem.new ≡ text_ran (head.now ++ text.now) mem.old }
{
    let found = read(text, mem);
    if !text_done(found.reply) {
        return refused_text(found.reply);
    }
    let cpu = text_state(head, found.start);
    let ran = run(cpu, mem, long_at(head, BUDGET_AT));
    run_text(ran.reply, ran.count, ran.cpu)
}

// The text of the run of S-records, or the first line alone where they, or what stands before them, are refused.
// Memory is read into as it is: the program lends zeros.
pub fn answer(input: &[u8], mem: &mut [u8]) -> Text
    ensures { image_ran (printed result.bytes result.len) mem.new ≡ text_run input.now mem.old }
{
    let Some((head, text)) = input.split_first_chunk::<TEXT_AT>() else {
        return answer_text(Reply::WrongLength);
    };
    if text.len() > TEXT_MOST {
        return answer_text(Reply::WrongLength);
    }
    if !admitted(text_state(head, 0)) {
        return answer_text(Reply::NotAdmitted);
    }
    read_and_run(head, text, mem)
}
