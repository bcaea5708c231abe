// Answers and refusals as lines of text.
ghost use Rattle.std.specs.Prelude.{◌≡◌, ◌++◌, Some, string_bytes, OnOk};
ghost use Rattle.std.specs.List.{flat_map};
ghost use Rattle.console.specs.Answers.{answered, answer_line, refusal_line};
ghost use Rattle.console.specs.Commands.{field, printed};
ghost use Rattle.console.specs.FirstLine.{opening_line};

use crate::command::Command;
use crate::measure::MeasureName;
use definitions::FaultCode;
use std::alloc::AllocError;
use std::fmt;

// What a command answers. Places are given as P: themselves, or how many they are.
#[derive(Clone, Copy)]
pub enum Answer<P> {
    // The command was carried out, and has nothing to say.
    Done,
    // How many nodes have a guarantee.
    Count(usize),
    // A guarantee.
    Value(u64),
    // The places of a route.
    Places(P),
    // The value and the places of a trace.
    Traced(u64, P),
}

impl fmt::Display for Command {
    ghost output = { λ c. Some (printed c) };

    fn fmt<W: fmt::Write>(&self, f: &mut fmt::Formatter<W>) -> fmt::Result {
        match self {
            Command::Plan(t) => write!(f, "P {t}"),
            Command::Guarantee(u) => write!(f, "G {u}"),
            Command::Route(u) => write!(f, "R {u}"),
            Command::Backup(u) => write!(f, "B {u}"),
            Command::Withdraw(k) => write!(f, "W {k}"),
            Command::Restore(k) => write!(f, "M {k}"),
            Command::TraceLink(u, k) => write!(f, "L {u} {k}"),
            Command::TraceGroup(u, b) => write!(f, "S {u} {b}"),
        }
    }
}

// Places, each after a space.
#[derive(Clone, Copy)]
struct Places<'a>(&'a [u16]);

impl fmt::Display for Places<'_> {
    ghost output = { λ places. Some (flat_map field places.0.now) };

    fn fmt<W: fmt::Write>(&self, f: &mut fmt::Formatter<W>) -> fmt::Result {
        for place in self.0 {
            write!(f, " {place}")?;
        }
        Ok(())
    }
}

// What follows a command on its line.
impl fmt::Display for Answer<&[u16]> {
    ghost output = { λ answer. Some (answered answer) };

    fn fmt<W: fmt::Write>(&self, f: &mut fmt::Formatter<W>) -> fmt::Result {
        match self {
            Answer::Done => Ok(()),
            Answer::Count(n) => write!(f, " {n}"),
            Answer::Value(v) => write!(f, " {v}"),
            Answer::Places(places) => write!(f, "{}", Places(places)),
            Answer::Traced(v, places) => write!(f, " {v}{}", Places(places)),
        }
    }
}

// Adds the line of a command with its answer.
pub fn print_answer(
    out: &mut String,
    command: Command,
    answer: Answer<&[u16]>,
) -> Result<(), AllocError>
    ensures { OnOk result (string_bytes out.new ≡ string_bytes out.old ++ answer_line command answer.entry) }
{
    writeln!(out, "{command}{answer}")
}

// Adds the line of a refusal.
pub fn print_refusal(out: &mut String, line: u64, fault: FaultCode) -> Result<(), AllocError>
    ensures { OnOk result (string_bytes out.new ≡ string_bytes out.old ++ refusal_line line fault) }
{
    let FaultCode {
        layer,
        number,
        place,
    } = fault;
    writeln!(out, "E {line} {layer} {number} {place}")
}

// Adds the answer of the first line: its letter, the node count and the place count.
pub fn print_opening(
    out: &mut String,
    name: MeasureName,
    nodes: usize,
    places: usize,
) -> Result<(), AllocError>
    ensures { OnOk result (string_bytes out.new ≡ string_bytes out.old ++ opening_line name nodes places) }
{
    writeln!(out, "{name} {nodes} {places}")
}
