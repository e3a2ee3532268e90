// The fresh state: what a core starts with, and what a refused read of a block or of an image file answers.
#![tactic(auto, unfolding(manual::specs::Block::fresh))]

ghost use Rattle.std.specs.Prelude.{◌≡◌};
ghost use Rattle.manual.specs.Block.{fresh as fresh_of};

use manual::{Cpu, Emac};

// The fresh state: all 0, MASK all ones.
pub fn fresh() -> Cpu
    ensures { result ≡ fresh_of }
{
    let unit = Emac {
        macsr: 0,
        mask: 0xFFFF_FFFF,
        acc: [0; 4],
    };
    Cpu {
        r: [0; 16],
        pc: 0,
        sr: 0,
        other: 0,
        vbr: 0,
        cacr: 0,
        emac: unit,
        stopped: false,
    }
}
