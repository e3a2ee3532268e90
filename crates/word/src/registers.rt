// The registers by number, register writes, and the state with a part replaced. Each function is one definition of Registers: what two
// share is one index or one struct update, and a field is no parameter.
#![tactic(auto, unfolding(manual::specs::Registers::address_of, manual::specs::Registers::applied, manual::specs::Registers::coded, manual::specs::Registers::data_of, manual::specs::Registers::general, manual::specs::Registers::no_write, manual::specs::Registers::with_address, manual::specs::Registers::with_emac, manual::specs::Registers::with_other, manual::specs::Registers::with_parts, manual::specs::Registers::with_pc, manual::specs::Registers::with_registers, manual::specs::Registers::with_sr, manual::specs::Registers::with_stopped, manual::specs::Registers::write_address, manual::specs::Registers::write_data, manual::specs::Registers::write_general, manual::specs::Registers::written))]

ghost use Rattle.std.specs.Prelude.{◌≡◌, ◌+◌, ◌-◌, ◌*◌, ◌/◌, ◌%◌, ◌^◌, ◌<◌, ◌≤◌};
ghost use Rattle.manual.specs.Registers.{data_of, address_of, general as general_of, no_write, write_data, write_address, write_general, written as written_of, with_parts, with_registers, with_address, with_pc, with_sr, with_other, with_emac, with_stopped, coded as coded_of, applied as applied_of};

use manual::{Change, Cpu, Emac, Write};

// Dn, n modulo 8.
pub fn data(g: &[u32; 16], r: u32) -> u32
    ensures { result ≡ data_of g.now r }
{
    let i = (r % 8) as usize;
    g[i]
}

// An, n modulo 8.
pub fn address(g: &[u32; 16], r: u32) -> u32
    ensures { result ≡ address_of g.now r }
{
    let i = (8 + r % 8) as usize;
    g[i]
}

// Register n of D0 to A7, modulo 16.
pub fn general(g: &[u32; 16], n: u32) -> u32
    ensures { result ≡ general_of g.now n }
{
    let i = (n % 16) as usize;
    g[i]
}

// The write to no register.
pub fn no_write() -> Write
    ensures { result ≡ no_write }
{
    Write { to: 16, value: 0 }
}

// The write of a long to Dn.
pub fn write_data(r: u32, v: u32) -> Write
    ensures { result ≡ write_data r v }
{
    Write {
        to: r % 8,
        value: v,
    }
}

// The write of a long to An.
pub fn write_address(r: u32, v: u32) -> Write
    ensures { result ≡ write_address r v }
{
    Write {
        to: 8 + r % 8,
        value: v,
    }
}

// The write of a long to register n of sixteen.
pub fn write_general(n: u32, v: u32) -> Write
    ensures { result ≡ write_general n v }
{
    Write {
        to: n % 16,
        value: v,
    }
}

// The registers after a write, in place.
pub fn write(g: &mut [u32; 16], w: Write)
    ensures { g.new ≡ written_of w g.old }
{
    if w.to < 16 {
        let i = w.to as usize;
        g[i] = w.value;
    }
}

// An address register as it is after a write, with no copy of the registers. The slice says how many there are.
pub fn address_after(g: &[u32; 16], w: Write, r: u32) -> u32
    ensures { result ≡ address_of (written_of w g.now) r }
{
    let all = &g[..];
    let n = 8 + r % 8;
    if w.to == n {
        return w.value;
    }
    all[n as usize]
}

// The state with the registers, PC, status register and unit replaced.
pub fn with_parts(cpu: Cpu, g: [u32; 16], pc: u32, sr: u16, emac: Emac) -> Cpu
    ensures { result ≡ with_parts g pc sr emac cpu }
{
    Cpu {
        r: g,
        pc,
        sr,
        emac,
        ..cpu
    }
}

// The state with the registers replaced.
pub fn with_registers(cpu: Cpu, g: [u32; 16]) -> Cpu
    ensures { result ≡ with_registers g cpu }
{
    Cpu { r: g, ..cpu }
}

// The state with An replaced.
pub fn with_address(cpu: Cpu, n: u32, v: u32) -> Cpu
    ensures { result ≡ with_address n v cpu }
{
    let i = (8 + n % 8) as usize;
    let mut next = cpu;
    next.r[i] = v;
    next
}

// The state with the PC replaced.
pub fn with_pc(cpu: Cpu, pc: u32) -> Cpu
    ensures { result ≡ with_pc pc cpu }
{
    Cpu { pc, ..cpu }
}

// The state with the status register replaced, and no swap.
pub fn with_sr(cpu: Cpu, sr: u16) -> Cpu
    ensures { result ≡ with_sr sr cpu }
{
    Cpu { sr, ..cpu }
}

// The state with the other stack pointer replaced.
pub fn with_other(cpu: Cpu, v: u32) -> Cpu
    ensures { result ≡ with_other v cpu }
{
    Cpu { other: v, ..cpu }
}

// The state with the unit replaced.
pub fn with_emac(cpu: Cpu, emac: Emac) -> Cpu
    ensures { result ≡ with_emac emac cpu }
{
    Cpu { emac, ..cpu }
}

// The state stopped, or not.
pub fn with_stopped(cpu: Cpu, stopped: bool) -> Cpu
    ensures { result ≡ with_stopped stopped cpu }
{
    Cpu { stopped, ..cpu }
}

// A status register with its flags replaced.
pub fn coded(sr: u16, c: u32) -> u16
    ensures { result ≡ coded_of sr c }
{
    sr / 32 * 32 + (c % 32) as u16
}

// The state after a change's two writes, its PC and its flags.
pub fn applied(cpu: Cpu, change: Change) -> Cpu
    ensures { result ≡ applied_of cpu change }
{
    let first = change.first;
    let second = change.second;
    let mut g = cpu.r;
    write(&mut g, first);
    write(&mut g, second);
    with_parts(cpu, g, change.pc, coded(cpu.sr, change.ccr), cpu.emac)
}
