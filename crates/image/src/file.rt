// An image file, read into a memory and a state.
ghost use Rattle.std.specs.Prelude.{◌≡◌, ◌-◌, ◌≤◌, ◌++◌, false, length, replicate, take, drop, IfOk, IfErr};
ghost use Rattle.manual.specs.Image.{image_memory, program_at, image_state, image_reply, load_image, image_read, read_of};
ghost use Rattle.manual.specs.Reply.{is_done};

use manual::block_places::{HEAD_BYTES, LENGTH_AT, VERSION_AT};
use manual::{Cpu, Loaded, Reply};
use memory::long_at;
use state::fresh::fresh;
use state::status::admitted;
use word::registers::{with_address, with_pc, with_sr};

// Where each part of a file lies, as the definition has it.
const START_AT: usize = 5;

const STACK_AT: usize = 9;

const STATUS_AT: usize = 13;

const BUDGET_AT: usize = 15;

const PROGRAM_AT: usize = 19;

const IMAGE_MEMORY: usize = 49_152;

#[tactic(auto, using(memory::specs::MemoryLaws::value_two), unfolding(manual::specs::Image::image_state))]
fn image_state(head: &[u8; PROGRAM_AT]) -> Cpu
    ensures { result ≡ image_state head.now }
{
    let sr = u16::from_be_bytes([head[STATUS_AT], head[STATUS_AT + 1]]);
    let cpu = with_address(fresh(), 7, long_at(head, STACK_AT));
    with_sr(with_pc(cpu, long_at(head, START_AT)), sr)
}

// A file that is accepted, cut where its program begins, or why it is refused.
fn accepted<'a>(file: &'a [u8], mem: &[u8]) -> Result<(&'a [u8; PROGRAM_AT], &'a [u8]), Reply>
    ensures refused { IfErr result (λ reply. (reply ≡ image_reply file.now mem.now) × (is_done reply ≡ false)) }
    ensures reply { IfOk result (λ _. image_reply file.now mem.now ≡ Reply.Done) }
    ensures parts { IfOk result (λ (head, program). (head.now ≡ take program_at file.now) × (program.now ≡ drop program_at file.now)) }
    ensures fits { IfOk result (λ (_, program). (length program.now ≤ image_memory) × (length mem.now ≡ image_memory)) }
{
    if file.len() < HEAD_BYTES {
        return Err(Reply::WrongLength);
    }
    if file[VERSION_AT] != 1 {
        return Err(Reply::WrongVersion);
    }
    let Some((head, program)) = file.split_first_chunk::<PROGRAM_AT>() else {
        return Err(Reply::WrongLength);
    };
    if long_at(head, LENGTH_AT) as usize != file.len() - HEAD_BYTES
        || program.len() > IMAGE_MEMORY
        || mem.len() != IMAGE_MEMORY
    {
        return Err(Reply::WrongLength);
    }
    if !admitted(image_state(head)) {
        return Err(Reply::NotAdmitted);
    }
    Ok((head, program))
}

// The program at the start of memory, and zeros after it.
fn fill(program: &[u8], mem: &mut [u8])
    requires { length program.now ≤ length mem.old }
    ensures { mem.new ≡ program.now ++ replicate (length mem.old - length program.now) 0 }
{
    let (front, rest) = mem.split_at_mut(program.len());
    front.copy_from_slice(program);
    rest.fill(0);
}

// The machine that an image file says, its memory in place; refused with 9, 8, 9 or 2, in this order.
pub fn read_image(file: &[u8], mem: &mut [u8]) -> Result<Loaded, Reply>
    ensures { image_read result mem.new ≡ read_of (load_image file.now mem.old) }
{
    let (head, program) = accepted(file, mem)?;
    let budget = long_at(head, BUDGET_AT);
    let cpu = image_state(head);
    fill(program, mem);
    Ok(Loaded { budget, cpu })
}
