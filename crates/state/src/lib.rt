// The state: its status register and what is admitted, the control registers, the fresh state, and the numbers of replies.
#![tactic(auto)]

pub mod control;
pub mod fresh;
pub mod replies;
pub mod status;
