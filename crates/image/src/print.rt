// What a run of an image prints.
ghost use Rattle.std.specs.Prelude.{◌≡◌, [], ◌∷◌, ◌++◌, ◌<◌, length};
ghost use Rattle.manual.specs.Image.{digit as digit_of, hex, decimal, longs, newline, answer_line, steps_line, run_text, printed, text_of};
ghost use Rattle.image.specs.Texts.{put as put_of, appended};

use crate::Text;
use manual::{Cpu, Reply};
use state::replies::number_of;

// A full text stays as it is; none that is made here gets full.
#[tactic(auto, unfolding(crate::specs::Texts::put))]
fn put(text: &mut Text, b: u8)
    ensures { text.new ≡ put_of text.old b }
{
    if text.len < 256 {
        text.bytes[text.len] = b;
        text.len += 1;
    }
}

fn put_all(text: &mut Text, bytes: &[u8])
    ensures { text.new ≡ appended text.old bytes.now }
{
    for b in bytes {
        put(text, *b);
    }
}

#[tactic(auto, unfolding(manual::specs::Image::digit))]
fn digit(d: u32) -> u8
    requires { d < 16 }
    ensures { result ≡ digit_of d }
{
    char::from_digit(d, 16).unwrap() as u8
}

// The low digits of a number to the base 16, as many as are asked for.
fn put_hex(text: &mut Text, digits: usize, v: u32)
    ensures { text.new ≡ appended text.old (hex digits v) }
{
    if digits > 0 {
        put_hex(text, digits - 1, v / 16);
        put(text, digit(v % 16));
    }
}

fn put_decimal(text: &mut Text, v: u32)
    ensures { text.new ≡ appended text.old (decimal 10 v) }
{
    if v >= 10 {
        put_decimal(text, v / 10);
    }
    put(text, digit(v % 10));
}

// A line of one number: "answer", "pc", "sr", "other", "macsr".
fn hex_line(text: &mut Text, name: &str, digits: usize, v: u32)
    ensures { text.new ≡ appended text.old (name.now ++ (hex digits v ++ (newline ∷ []))) }
{
    put_all(text, name.as_bytes());
    put_hex(text, digits, v);
    put(text, b'\n');
}

// A line of registers: "d" and "a".
fn registers_line(text: &mut Text, name: &str, registers: &[u32])
    ensures { text.new ≡ appended text.old (name.now ++ (longs registers.now 0 (length registers.now) ++ (newline ∷ []))) }
{
    put_all(text, name.as_bytes());
    for v in registers {
        put(text, b' ');
        put_hex(text, 8, *v);
    }
    put(text, b'\n');
}

fn steps_line(text: &mut Text, count: u32)
    ensures { text.new ≡ appended text.old (steps_line count) }
{
    put_all(text, b"steps ");
    put_decimal(text, count);
    put(text, b'\n');
}

// The text of a refused file: the answer's line.
pub fn answer_text(reply: Reply) -> Text
    ensures { printed result.bytes result.len ≡ text_of (answer_line reply) }
{
    let mut text = Text {
        bytes: [0; 256],
        len: 0,
    };
    hex_line(&mut text, "answer ", 1, number_of(reply));
    text
}

// The text of a run: answer, steps, PC, SR, registers, the other pointer and MACSR.
pub fn run_text(reply: Reply, count: u32, cpu: Cpu) -> Text
    ensures { printed result.bytes result.len ≡ text_of (run_text reply count cpu) }
{
    let mut text = answer_text(reply);
    steps_line(&mut text, count);
    hex_line(&mut text, "pc ", 8, cpu.pc);
    hex_line(&mut text, "sr ", 4, u32::from(cpu.sr));
    registers_line(&mut text, "d", &cpu.r[..8]);
    registers_line(&mut text, "a", &cpu.r[8..]);
    hex_line(&mut text, "other ", 8, cpu.other);
    hex_line(&mut text, "macsr ", 8, cpu.emac.macsr);
    text
}
