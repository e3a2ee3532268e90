// Runs the image file on standard input, and prints what came of it.
#![tactic(auto)]

mod run;

use run::answer;
use standard_input::read_full;
use std::io;

fn main(rt: HostRuntime) -> io::Result<()> {
    // A file that does not fit is longer than an image can be, and what fits of it gets the same reply.
    let mut input = [0u8; 65_536];
    let n = read_full(&mut rt.stdin(), &mut input)?;
    let mut mem = [0u8; 49_152];
    let text = answer(&input[..n], &mut mem);
    rt.write_all(&text.bytes[..text.len])
}
