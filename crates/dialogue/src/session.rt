// A session from its first line on.
ghost use Rattle.std.specs.Prelude.{◌≡◌, ℕ, List, IfOk, Ok, string_bytes, OnOk};
ghost use Rattle.console.specs.FirstLine.{measure_named};
ghost use Rattle.lines.specs.Dialogues.{Added, Dialogue as Exchange};
ghost use Rattle.lines.specs.Lines.{TheLines};
ghost use Rattle.dialogue.specs.declared.session.Session.{Session};
ghost use Rattle.dialogue.specs.declared.session.Session.TheVariants.{Opening};
ghost use Rattle.dialogue.specs.Sessions.{is_over, First, Later, Answered};
ghost use Rattle.dialogue.specs.Shorts.{answered_short};

use crate::dialogue::Dialogue;
use crate::fault::{Cause, ConsoleFault, print_fault};
use console::measure::MeasureName;
use console::print::print_opening;
use lines::feed::respond_all;
use lines::responder::Responder;
use measures::{Delay, Measure, Width};
use networks::network::Network;
use std::alloc::{AllocError, Global};
use std::mem;

// The first line is still to come, a dialogue goes on under the measure that it chose, or the session has ended.
#[derive(Drop)]
pub enum Session<N: Network> {
    Opening(Global, N),
    ByDelay(Dialogue<N, Delay>),
    ByWidth(Dialogue<N, Width>),
    Ended,
}

// Opens the dialogue under the measure that the first line names.
// The allocator and the network stay two parameters, here and below: as everywhere, what allocates is passed the allocator first.
// So do a line and the text that answers it: the text is emptied between lines, and outlives each.
fn begin<N: Network + Drop>(
    heap: Global,
    network: N,
    name: MeasureName,
    out: &mut String,
) -> Result<Session<N>, AllocError>
    ensures { IfOk result (λ t. Added (string_bytes out.old) (string_bytes out.new) (First N.Network.meaning (Ok name) network t)) }
{
    print_opening(out, name, network.node_count(), network.place_count())?;
    // Stays an arm for each measure: `map(Session::ByDelay)` was tried, and the check cannot state what is passed over such a type.
    match name {
        MeasureName::Delay => Ok(Session::ByDelay(Dialogue::open(heap, network)?)),
        MeasureName::Width => Ok(Session::ByWidth(Dialogue::open(heap, network)?)),
    }
}

// Takes the first line: it chooses the measure, or is refused and ends the session.
fn open<N: Network + Drop>(
    heap: Global,
    network: N,
    line: &[u8],
    out: &mut String,
) -> Result<Session<N>, AllocError>
    ensures { IfOk result (λ t. Added (string_bytes out.old) (string_bytes out.new) (First N.Network.meaning (measure_named line.now) network t)) }
{
    match MeasureName::try_from(line) {
        Ok(name) => begin(heap, network, name, out),
        Err(fault) => {
            let cause = Cause::from(fault);
            print_fault(out, ConsoleFault { line: 1, cause })?;
            Ok(Session::Ended)
        }
    }
}

// The dialogue after one line more.
fn answered<N: Network + Drop, M: Measure>(
    mut dialogue: Dialogue<N, M>,
    line: &[u8],
    out: &mut String,
) -> Result<Dialogue<N, M>, AllocError>
    ensures { IfOk result (λ d. Added (string_bytes out.old) (string_bytes out.new) (Later N.Network.meaning M.Measure.scale dialogue line.now d)) }
{
    dialogue.answer(line, out)?;
    Ok(dialogue)
}

impl<N: Network + Drop> Session<N> {
    // A session over a network, before its first line.
    pub fn new(heap: Global, network: N) -> Session<N>
        ensures { result ≡ Opening heap network }
    {
        Self::Opening(heap, network)
    }

    // What one line makes of the session.
    fn advance(self, line: &[u8], out: &mut String) -> Result<Session<N>, AllocError>
        ensures { IfOk result (λ t. Added (string_bytes out.old) (string_bytes out.new) (Answered N.Network.meaning self line.now t)) }
    {
        // Stays an arm for each measure, as above.
        match self {
            Session::Opening(heap, network) => open(heap, network, line, out),
            Session::ByDelay(dialogue) => Ok(Session::ByDelay(answered(dialogue, line, out)?)),
            Session::ByWidth(dialogue) => Ok(Session::ByWidth(answered(dialogue, line, out)?)),
            Session::Ended => Ok(Session::Ended),
        }
    }
}

// A session answers lines, until it has ended.
impl<N: Network + Drop> Responder for Session<N> {
    ghost answers = { Answered N.Network.meaning };

    ghost ended = { is_over };

    ghost short = { answered_short N.Network.meaning };

    fn has_ended(&self) -> bool {
        matches!(self, Session::Ended)
    }

    fn respond(&mut self, line: &[u8], out: &mut String) -> Result<(), AllocError> {
        let session = mem::replace(self, Session::Ended);
        *self = session.advance(line, out)?;
        Ok(())
    }
}

// Answers all lines of an input over a network, from the first to the last.
pub fn converse<N: Network + Drop>(
    heap: Global,
    network: N,
    input: &[u8],
    out: &mut String,
) -> Result<(), AllocError>
    ensures { OnOk result (Added (string_bytes out.old) (string_bytes out.new) (λ said. (lines : List (List ℕ)) × (t : Session N N.Network) × TheLines input.now lines × Exchange (Answered N.Network.meaning) is_over lines (Opening heap network) t said)) }
{
    let mut session = Session::new(heap, network);
    respond_all(input, out, &mut session)
}
