// Lines answered by a planner.
ghost use Rattle.std.specs.Prelude.{◌≡◌, ◌++◌, IfOk, string_bytes, OnOk};
ghost use Rattle.console.specs.Answers.{answered};
ghost use Rattle.console.specs.Grammar.{reading};
ghost use Rattle.lines.specs.Dialogues.{Added};
ghost use Rattle.planner.specs.Planners.{state, network_of};
ghost use Rattle.dialogue.specs.Dialogues.{Tried, reply};
ghost use Rattle.dialogue.specs.Outcomes.{shown};
ghost use Rattle.dialogue.specs.Sessions.{Begun, Later};

use crate::command::{Outcome, carry_out};
use crate::fault::{Cause, ConsoleFault, print_fault};
use console::command::Command;
use console::parse::parse;
use console::print::{Answer, print_answer};
use measures::Measure;
use networks::network::Network;
use planner::planner::Planner;
use std::alloc::{AllocError, AllocFailed, Global};

// A planner, and how many lines have come.
pub struct Dialogue<N: Network, M: Measure> {
    pub planner: Planner<N, M>,
    pub lines: u64,
}

// A dialogue is let go by closing its planner.
// Stays written out: a planner is closed and not dropped, so nothing derives this.
impl<N: Network + Drop, M: Measure> Drop for Dialogue<N, M> {
    fn drop(self) {
        let Dialogue { planner, lines: _ } = self;
        drop(planner.close());
    }
}

// Reads a line and carries out its command.
fn try_line<N: Network, M: Measure>(
    planner: &mut Planner<N, M>,
    line: &[u8],
    buffer: &mut [u16],
) -> Result<(Command, Outcome), Cause>
    ensures answer { Tried M.Measure.scale (state N.Network.meaning planner.old) (reading line.now) result (state N.Network.meaning planner.new) buffer.old buffer.new }
    ensures keeps { network_of planner.new ≡ network_of planner.old }
{
    let command = parse(line)?;
    Ok((command, carry_out(planner, command, buffer)?))
}

// What is printed of an outcome, whose places stand in the buffer.
// Stays a match: a public map over the places would ask its callers that the closure may be called.
fn answer_of(outcome: Outcome, buffer: &[u16]) -> Answer<&[u16]>
    ensures { answered result ≡ shown outcome buffer.now }
{
    match outcome {
        Outcome::Done => Answer::Done,
        Outcome::Count(n) => Answer::Count(n),
        Outcome::Value(v) => Answer::Value(v),
        Outcome::Places(n) => Answer::Places(&buffer[..n.min(buffer.len())]),
        Outcome::Traced(v, n) => Answer::Traced(v, &buffer[..n.min(buffer.len())]),
    }
}

// Adds the line that answers line `number`.
fn print_reply(
    out: &mut String,
    number: u64,
    res: Result<(Command, Outcome), Cause>,
    buffer: &[u16],
) -> Result<(), AllocError>
    ensures { OnOk result (string_bytes out.new ≡ string_bytes out.old ++ reply number res buffer.now) }
{
    match res {
        Ok((command, outcome)) => print_answer(out, command, answer_of(outcome, buffer)),
        Err(cause) => print_fault(
            out,
            ConsoleFault {
                line: number,
                cause,
            },
        ),
    }
}

impl<N: Network, M: Measure> Dialogue<N, M> {
    // A dialogue with a new planner, after one line.
    pub fn open(heap: Global, network: N) -> Result<Dialogue<N, M>, AllocFailed<N>>
        ensures { IfOk result (λ d. Begun N.Network.meaning M.Measure.scale network d) }
    {
        let planner = Planner::open(heap, network).map_err(|value| AllocFailed { value })?;
        Ok(Dialogue { planner, lines: 1 })
    }

    // Answers one line more.
    pub fn answer(&mut self, line: &[u8], out: &mut String) -> Result<(), AllocError>
        ensures { OnOk result (Added (string_bytes out.old) (string_bytes out.new) (Later N.Network.meaning M.Measure.scale self.old line.now self.new)) }
    {
        self.lines = self.lines.saturating_add(1);
        let mut buffer = [0; 512];
        let result = try_line(&mut self.planner, line, &mut buffer);
        print_reply(out, self.lines, result, &buffer)
    }
}
