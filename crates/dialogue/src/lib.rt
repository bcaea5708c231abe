// The console over a planner: one line in, one line out.
#![tactic(auto)]

pub mod admission;
pub mod command;
pub mod dialogue;
pub mod fault;
pub mod session;
