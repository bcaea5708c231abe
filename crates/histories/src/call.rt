// Calls of a planner, and lists of them.
use definitions::Failure;

// A call of the planner with its arguments; of a buffer the length.
#[derive(Clone, Copy, PartialEq, Eq, Debug)]
pub enum Call {
    Withdraw(usize),
    Restore(usize),
    Plan(usize),
    Guarantee(usize),
    Next(usize),
    Route(usize, usize),
    Backup(usize, usize),
    Trace(usize, Failure, usize),
}

// A call, and whether the planner accepted it.
// Stays a bool: each of the two answers is said of a call that was made, and no fault is kept.
#[derive(Clone, Copy, PartialEq, Eq, Debug)]
pub struct Event {
    pub call: Call,
    pub accepted: bool,
}

// What each call that reads the plan finds first: the destination of the plan, and the guarantee of the node.
#[derive(Clone, Copy, PartialEq, Eq, Debug)]
pub struct Reading {
    pub destination: usize,
    pub guarantee: u64,
}
