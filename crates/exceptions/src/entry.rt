// Entry of an exception, and return from it.
#![tactic(auto, unfolding(manual::specs::Exceptions::entered, manual::specs::Exceptions::frame_long, manual::specs::Exceptions::handler_state, manual::specs::Exceptions::return_state, manual::specs::Exceptions::returned, manual::specs::Reply::refusal))]

ghost use Rattle.std.specs.Prelude.{◌≡◌, ◌+◌, ◌*◌, ◌/◌, ◌%◌, ◌^◌};
ghost use Rattle.manual.specs.Memory.{mapped};
ghost use Rattle.manual.specs.Reply.{outcome, refusal as refusal_of, fault_reply};
ghost use Rattle.manual.specs.Differences.{frame_bytes};
ghost use Rattle.manual.specs.Exceptions.{frame_long, framed, handler_state, entered as entered_of, return_state as return_state_of, returned as returned_of};

use manual::{Cpu, Fault, Reply, Size, Stepped};
use memory::{access, load, long_at, put_long};
use state::replies::fault_reply;
use state::status::{handler_sr, with_status};
use word::registers::{address, with_address, with_pc, with_stopped};
use word::word::{minus, plus};

// Refused: the registers as given, and no vector.
pub fn refusal(given: Cpu, reply: Reply) -> Stepped
    ensures { result ≡ refusal_of given reply }
{
    Stepped {
        reply,
        vector: 0,
        cpu: given,
    }
}

// Refused for an access that memory does not take.
pub fn faulted(given: Cpu, x: Fault) -> Stepped
    ensures { result ≡ refusal_of given (fault_reply x) }
{
    refusal(given, fault_reply(x))
}

fn frame_long(sp: u32, vector: u8, sr: u16) -> u32
    ensures { result ≡ frame_long sp vector sr }
{
    (4 + sp % 4) * 0x1000_0000 + (vector as u32) * 0x4_0000 + sr as u32
}

fn store_frame(mem: &mut [u8], high: u32, low: u32, pc: u32, w: u32)
    ensures { mem.new ≡ framed mem.old high low pc w }
{
    put_long(mem, high, pc);
    put_long(mem, low, w);
}

fn handler_state(cpu: Cpu, frame: u32, handler: u32) -> Cpu
    ensures { result ≡ handler_state cpu frame handler }
{
    with_stopped(with_pc(with_address(cpu, 7, frame), handler), false)
}

// Entry to an exception, or its refusal. The vector is read after the frame is stored.
pub fn entered(
    given: Cpu,
    cpu: Cpu,
    level: Option<u8>,
    vector: u8,
    pc: u32,
    mem: &mut [u8],
) -> Stepped
    ensures { outcome result mem.new ≡ entered_of given cpu level vector pc (mapped mem.old) }
{
    let then = with_status(cpu, handler_sr(level, cpu.sr) as u32);
    let g = then.r;
    let sp = address(&g, 7);
    let above = minus(sp / 4 * 4, 4);
    let frame = minus(above, 4);
    let high = match access(&*mem, above, 4) {
        Ok(at) => at,
        Err(x) => return faulted(given, x),
    };
    let low = match access(&*mem, frame, 4) {
        Ok(at) => at,
        Err(x) => return faulted(given, x),
    };
    let table = match access(&*mem, plus(cpu.vbr, (vector as u32) * 4), 4) {
        Ok(at) => at,
        Err(x) => return faulted(given, x),
    };
    store_frame(mem, high, low, pc, frame_long(sp, vector, cpu.sr));
    let handler = long_at(mem, table as usize);
    let next = handler_state(then, frame, handler);
    Stepped {
        reply: Reply::Done,
        vector,
        cpu: next,
    }
}

// How far A7 goes up, by the frame's format.
fn frame_bytes(format: u32) -> u32
    ensures { result ≡ frame_bytes format }
{
    if format < 4 {
        return 8;
    }
    if format < 8 {
        return 4 + format;
    }
    8
}

fn return_state(cpu: Cpu, sp: u32, w: u32, pc: u32) -> Cpu
    ensures { result ≡ return_state_of cpu sp w pc }
{
    let up = frame_bytes(w / 0x1000_0000);
    with_pc(with_status(with_address(cpu, 7, plus(sp, up)), w), pc)
}

// Return from an exception, or its refusal.
pub fn returned(given: Cpu, cpu: Cpu, mem: &[u8]) -> Stepped
    ensures { outcome result mem.now ≡ returned_of given cpu (mapped mem.now) }
{
    let g = cpu.r;
    let sp = address(&g, 7);
    let w = match load(mem, sp, Size::Long) {
        Ok(w) => w,
        Err(x) => return faulted(given, x),
    };
    let pc = match load(mem, plus(sp, 4), Size::Long) {
        Ok(pc) => pc,
        Err(x) => return faulted(given, x),
    };
    let next = return_state(cpu, sp, w, pc);
    Stepped {
        reply: Reply::Done,
        vector: 0,
        cpu: next,
    }
}
