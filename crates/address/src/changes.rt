// The parts that an instruction's change is made of.
#![tactic(auto, unfolding(manual::specs::Change::acting, manual::specs::Change::done, manual::specs::Change::enter, manual::specs::Change::enter_after, manual::specs::Change::illegal, manual::specs::Change::jump, manual::specs::Change::privilege, manual::specs::Change::push, manual::specs::Change::put, manual::specs::Change::put_to, manual::specs::Change::refuse, manual::specs::Change::refused, manual::specs::Change::store))]

ghost use Rattle.std.specs.Prelude.{◌≡◌};
ghost use Rattle.manual.specs.Change.{done as done_of, store as store_of, acting as acting_of, enter_after, enter as enter_of, illegal as illegal_of, privilege as privilege_of, refuse as refuse_of, refused as refused_of, jump as jump_of, push as push_of, put as put_of, put_to};
ghost use Rattle.manual.specs.Reply.{fault_reply};

use manual::{Action, Change, Destination, Fault, Place, Reply, Size, Write};
use state::replies::fault_reply;
use word::flags::kept_codes;
use word::registers::{address, data, no_write, write_address, write_data};
use word::word::{merged, minus};

// A change that stores nothing.
pub fn done(next: u32, codes: u32, first: Write, second: Write) -> Change
    ensures { result ≡ done_of next codes first second }
{
    Change {
        pc: next,
        ccr: codes,
        first,
        second,
        action: Action::Nothing,
    }
}

// A change that stores one number.
pub fn store(next: u32, codes: u32, first: Write, second: Write, at: u32, z: Size, v: u32) -> Change
    ensures { result ≡ store_of next codes first second at z v }
{
    Change {
        pc: next,
        ccr: codes,
        first,
        second,
        action: Action::Store(at, z, v),
    }
}

// A change with an action, and the flags as they were.
pub fn acting(sr: u16, next: u32, first: Write, action: Action) -> Change
    ensures { result ≡ acting_of sr next first action }
{
    let codes = kept_codes(sr);
    Change {
        pc: next,
        ccr: codes,
        first,
        second: no_write(),
        action,
    }
}

// A change that enters a vector after an operand's move.
pub fn enter_after(first: Write, sr: u16, vector: u8, at: u32) -> Change
    ensures { result ≡ enter_after first sr vector at }
{
    acting(sr, at, first, Action::Enter(vector, at))
}

// A change that enters a vector and does nothing else.
pub fn enter(sr: u16, vector: u8, at: u32) -> Change
    ensures { result ≡ enter_of sr vector at }
{
    enter_after(no_write(), sr, vector, at)
}

// A change that enters vector 4 with the PC of the word.
pub fn illegal(at: u32, sr: u16) -> Change
    ensures { result ≡ illegal_of at sr }
{
    enter(sr, 4, at)
}

// A change that enters vector 8 with the PC of the word.
pub fn privilege(at: u32, sr: u16) -> Change
    ensures { result ≡ privilege_of at sr }
{
    enter(sr, 8, at)
}

fn refuse(n: Reply) -> Change
    ensures { result ≡ refuse_of n }
{
    Change {
        pc: 0,
        ccr: 0,
        first: no_write(),
        second: no_write(),
        action: Action::Refuse(n),
    }
}

// The refusal with the reply to a fault.
pub fn refused(x: Fault) -> Change
    ensures { result ≡ refused_of x }
{
    refuse(fault_reply(x))
}

// A change of the PC alone.
pub fn jump(sr: u16, next: u32) -> Change
    ensures { result ≡ jump_of sr next }
{
    done(next, kept_codes(sr), no_write(), no_write())
}

// A change that pushes a long, and goes on at `next`.
pub fn push(g: &[u32; 16], sr: u16, next: u32, v: u32) -> Change
    ensures { result ≡ push_of g.now sr next v }
{
    let sp = minus(address(g, 7), 4);
    store(
        next,
        kept_codes(sr),
        write_address(7, sp),
        no_write(),
        sp,
        Size::Long,
        v,
    )
}

// A change that puts a value in a place: a register, memory, or nowhere.
pub fn put(
    g: &[u32; 16],
    next: u32,
    codes: u32,
    first: Write,
    second: Write,
    p: Result<Place, Fault>,
    z: Size,
    v: u32,
) -> Change
    ensures { result ≡ put_of g.now z v p (done_of next codes first second) }
{
    match p {
        Ok(Place::D(r)) => done(next, codes, first, write_data(r, merged(z, data(g, r), v))),
        Ok(Place::A(r)) => done(next, codes, first, write_address(r, v)),
        Ok(Place::M(a)) => store(next, codes, first, second, a, z, v),
        Ok(Place::I(_)) => done(next, codes, first, second),
        Err(x) => refused(x),
    }
}

// A value put to an operand, whose register moves.
pub fn put_to(g: &[u32; 16], codes: u32, to: Destination, z: Size, v: u32) -> Change
    ensures { result ≡ put_to g.now codes to z v }
{
    put(g, to.next, codes, to.moved, no_write(), to.place, z, v)
}
