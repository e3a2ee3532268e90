// The control registers: which one a number names, and what MOVEC moves to or from it.
#![tactic(auto, unfolding(manual::specs::Control::control_moved, manual::specs::Control::control_register, manual::specs::Control::movec_read, manual::specs::Control::movec_write, manual::specs::Registers::with_cacr, manual::specs::Registers::with_vbr))]

ghost use Rattle.std.specs.Prelude.{◌≡◌, ◌+◌, ◌*◌, ◌/◌, ◌%◌};
ghost use Rattle.manual.specs.Control.{control_register, movec_read, movec_write, control_moved};

use manual::{ControlRegister, Cpu};
use word::registers::{general, with_registers, write, write_general};

// The control register of a number.
pub fn control_register(number: u32) -> Option<ControlRegister>
    ensures { result ≡ control_register number }
{
    match number {
        0x002 => Some(ControlRegister::Cacr),
        0x801 => Some(ControlRegister::Vbr),
        _ => None,
    }
}

fn movec_read(cpu: Cpu, from: ControlRegister) -> u32
    ensures { result ≡ movec_read from cpu }
{
    match from {
        ControlRegister::Cacr => cpu.cacr,
        ControlRegister::Vbr => cpu.vbr,
    }
}

fn movec_write(cpu: Cpu, to: ControlRegister, v: u32) -> Cpu
    ensures { result ≡ movec_write to v cpu }
{
    match to {
        ControlRegister::Cacr => Cpu { cacr: v, ..cpu },
        ControlRegister::Vbr => Cpu {
            vbr: v / 0x10_0000 * 0x10_0000,
            ..cpu
        },
    }
}

// The state after MOVEC: Rn goes to a control register, or comes from it.
pub fn movec(cpu: Cpu, writes: bool, c: ControlRegister, n: u32) -> Cpu
    ensures { result ≡ control_moved writes c n cpu }
{
    let mut g = cpu.r;
    if writes {
        return movec_write(cpu, c, general(&g, n));
    }
    write(&mut g, write_general(n, movec_read(cpu, c)));
    with_registers(cpu, g)
}
