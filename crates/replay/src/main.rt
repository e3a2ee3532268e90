// Replays the original's answers on standard input (VECTORS.md), and prints how many of them this core gives too.
#![tactic(auto)]

mod patch;
mod record;
mod rest;

ghost use Rattle.std.specs.Prelude.{◌≡◌, ◌+◌, ◌≤◌, ◌<◌, cond, Some, length};
ghost use Rattle.std.specs.Option.{option_or};
ghost use Rattle.replay.specs.Sums.{summed};

use memory::long_at;
use record::Record;
use rest::Rest;
use standard_input::read_full;
use std::io;

// How many records there are, how many agree, and the number of the first that does not.
#[derive(Clone, Copy)]
struct Tally {
    records: u64,
    agree: u64,
    first: Option<u64>,
}

fn counted(t: Tally, agrees: bool) -> Tally
    requires { (t.agree ≤ t.records) × (t.records < 4294967296) }
    ensures { (result.agree ≤ result.records) × (result.records ≡ t.records + 1) × (result.agree ≡ cond agrees (t.agree + 1) t.agree) × (result.first ≡ cond agrees t.first (option_or t.first (Some (t.records + 1)))) }
{
    let records = t.records + 1;
    if agrees {
        let agree = t.agree + 1;
        Tally {
            records,
            agree,
            ..t
        }
    } else {
        let first = t.first.or(Some(records));
        Tally {
            records,
            first,
            ..t
        }
    }
}

// The file's first long, which is the count of the records; 0 where it has none.
fn count_of(file: &mut Rest) -> u32
    ensures { length file.new.0.now ≤ length file.old.0.now }
{
    if file.0.len() < 4 {
        return 0;
    }
    long_at(file.bytes(4), 0)
}

fn replay(file: &mut Rest) -> Tally
    ensures { length file.new.0.now ≤ length file.old.0.now }
{
    let mut record = Record::new();
    let mut t = Tally {
        records: 0,
        agree: 0,
        first: None,
    };
    let count = count_of(file);
    for _record in 0..count {
        t = counted(t, record.replay(file));
    }
    t
}

// A sum of all bytes: it changes where one byte does.
#[tactic(auto, unfolding(crate::specs::Sums::summed))]
fn sum_of(file: &[u8]) -> u64
    ensures { result ≡ summed (length file.now) file.now }
{
    let mut sum = 0;
    for byte in file {
        sum = (sum * 257 + u64::from(*byte)) % 0x1_0000_0000;
    }
    sum
}

fn line(rt: &impl Print, name: &str, n: u64) -> io::Result<()> {
    println!(rt; "{name} {n}")
}

fn main(rt: HostRuntime) -> io::Result<()> {
    let mut space = [0u8; 393_216];
    let n = read_full(&mut rt.stdin(), &mut space)?;
    let file = &space[..n];
    let mut rest = Rest(file);
    let t = replay(&mut rest);
    line(&rt, "records", t.records)?;
    line(&rt, "agree", t.agree)?;
    line(&rt, "first that differs", t.first.unwrap_or(0))?;
    line(&rt, "bytes", n as u64)?;
    line(&rt, "bytes replayed", (n - rest.0.len()) as u64)?;
    line(&rt, "sum", sum_of(file))
}
