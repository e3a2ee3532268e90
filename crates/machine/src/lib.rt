// The machine: what an instruction changes, that change done, steps and runs.
#![tactic(auto)]

pub mod execute;
pub mod perform;
pub mod run;
mod turn;

use manual::{Cpu, Reply};

// How far a run has come: the reply, the steps that were done, the vector that the last of them entered, or 0, and the state.
#[derive(Clone, Copy)]
pub struct Progress {
    pub reply: Reply,
    pub count: u32,
    pub vector: u8,
    pub cpu: Cpu,
}
