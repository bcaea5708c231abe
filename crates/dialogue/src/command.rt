// Commands carried out on a planner.
ghost use Rattle.std.specs.Prelude.{◌≡◌, ℕ};
ghost use Rattle.dialogue.specs.Outcomes.{pair_traced};
ghost use Rattle.dialogue.specs.Commands.{Carried};
ghost use Rattle.planner.specs.Planners.{state, network_of};

use console::command::Command;
use console::print::Answer;
use definitions::Failure;
use histories::fault::PlannerFault;
use measures::Measure;
use networks::network::Network;
use planner::planner::Planner;

// What a planner answers to a command: places are counted, and stand in the caller's buffer.
pub type Outcome = Answer<usize>;

// The outcome of a trace.
fn traced(answer: (u64, usize)) -> Outcome
    ensures { result ≡ pair_traced answer }
{
    let (value, count) = answer;
    Outcome::Traced(value, count)
}

// Makes the planner's call of a command; a route, a backup or a trace is written into the buffer.
pub fn carry_out<N: Network, M: Measure>(
    planner: &mut Planner<N, M>,
    command: Command,
    buffer: &mut [u16],
) -> Result<Outcome, PlannerFault>
    ensures answer { Carried M.Measure.scale (state N.Network.meaning planner.old) command result (state N.Network.meaning planner.new) buffer.old buffer.new }
    ensures keeps { network_of planner.new ≡ network_of planner.old }
{
    match command {
        Command::Plan(t) => planner.plan(usize::from(t)).map(Outcome::Count),
        Command::Guarantee(u) => planner.guarantee(usize::from(u)).map(Outcome::Value),
        Command::Route(u) => planner.route(usize::from(u), buffer).map(Outcome::Places),
        Command::Backup(u) => planner.backup(usize::from(u), buffer).map(Outcome::Places),
        Command::Withdraw(k) => planner.withdraw(usize::from(k)).map(|()| Outcome::Done),
        Command::Restore(k) => planner.restore(usize::from(k)).map(|()| Outcome::Done),
        Command::TraceLink(u, k) => planner
            .trace(usize::from(u), Failure::OneLink(k), buffer)
            .map(traced),
        Command::TraceGroup(u, b) => planner
            .trace(usize::from(u), Failure::OneGroup(b), buffer)
            .map(traced),
    }
}
