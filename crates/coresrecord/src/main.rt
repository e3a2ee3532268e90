// Runs the S-records on standard input, and prints what came of it. Before them stand A7, the status register and the budget.
#![tactic(auto)]

mod run;

ghost use Rattle.std.specs.Prelude.{◌≡◌, length};

use run::answer;
use standard_input::read_full;
use std::io;

// A byte more than the longest input, so that a longer one is noticed. It is made here, since a proof of `main` that sees the
// million zeros themselves does not end.
fn input_buffer() -> [u8; 1_048_587]
    ensures { 1048587 ≡ length result }
{
    [0; 1_048_587]
}

fn main(rt: HostRuntime) -> io::Result<()> {
    let mut input = input_buffer();
    let n = read_full(&mut rt.stdin(), &mut input)?;
    let mut mem = [0u8; 49_152];
    let text = answer(&input[..n], &mut mem);
    rt.write_all(&text.bytes[..text.len])
}
