// Answers of the planner in sentences.
use definitions::FaultCode;
use histories::fault::PlannerFault;
use std::{fmt, io};

// Places, each after a space.
// Stays beside the console's own: this program does not speak its language, and does not know of it.
#[derive(Clone, Copy)]
struct Places<'a>(&'a [u16]);

impl fmt::Display for Places<'_> {
    fn fmt<W: fmt::Write>(&self, f: &mut fmt::Formatter<W>) -> fmt::Result {
        for place in self.0 {
            write!(f, " {place}")?;
        }
        Ok(())
    }
}

// A refusal, by its number and place.
// The calls below stay a match each: what is said of an answer differs, and as a closure it would be as long.
pub(crate) fn tell_refusal(rt: &HostRuntime, call: &str, fault: PlannerFault) -> io::Result<()> {
    let code = FaultCode::from(fault);
    println!(rt; "{call} is refused with {} at {}.", code.number, code.place)
}

// Whether a call that changes the planner was accepted.
pub(crate) fn tell_done(
    rt: &HostRuntime,
    call: &str,
    answer: Result<(), PlannerFault>,
) -> io::Result<()> {
    match answer {
        Ok(()) => println!(rt; "{call} is accepted."),
        Err(fault) => tell_refusal(rt, call, fault),
    }
}

// The links of a route.
pub(crate) fn tell_links(
    rt: &HostRuntime,
    what: &str,
    answer: Result<usize, PlannerFault>,
    buffer: &[u16],
) -> io::Result<()> {
    match answer {
        Ok(count) => println!(rt;
            "{what} takes links{}.",
            Places(&buffer[..count.min(buffer.len())])
        ),
        Err(fault) => tell_refusal(rt, what, fault),
    }
}

// The value and the links of a trace.
pub(crate) fn tell_trace(
    rt: &HostRuntime,
    what: &str,
    answer: Result<(u64, usize), PlannerFault>,
    buffer: &[u16],
) -> io::Result<()> {
    match answer {
        Ok((value, count)) => {
            println!(rt;
                "{what} has the value {value}; it takes links{}.",
                Places(&buffer[..count.min(buffer.len())])
            )
        }
        Err(fault) => tell_refusal(rt, what, fault),
    }
}

// The guarantee of a node.
pub(crate) fn tell_guarantee(
    rt: &HostRuntime,
    answer: Result<u64, PlannerFault>,
) -> io::Result<()> {
    match answer {
        Ok(value) => println!(rt; "The guarantee is {value}."),
        Err(fault) => tell_refusal(rt, "The guarantee", fault),
    }
}
