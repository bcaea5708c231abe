// The calls of a planner: what each is asked and may refuse, what lists of them leave, and what is promised after them.
#![tactic(auto)]

pub mod call;
pub mod fault;
