// Lists of calls, made on a planner one after the other, and what is promised of the answers after them.
#![tactic(auto)]

ghost use Rattle.std.specs.Prelude.{◌≡◌};
ghost use Rattle.histories.specs.Histories.{Follows};
ghost use Rattle.planner.specs.Planners.{state, network_of};
ghost use Rattle.runs.specs.Promise.{AnswersAfter};
ghost use Rattle.runs.specs.Replays.{ReplayAnswer};

use definitions::Failure;
use histories::call::{Call, Event};
use histories::fault::PlannerFault;
use measures::Measure;
use networks::network::Network;
use planner::planner::Planner;
use std::alloc::Global;

// What guarantee, route and trace answer for a node.
#[derive(Clone, Copy, PartialEq, Eq, Debug)]
pub struct Answers {
    pub guarantee: Result<u64, PlannerFault>,
    pub route: Result<usize, PlannerFault>,
    pub trace: Result<(u64, usize), PlannerFault>,
}

// Makes one call and says whether it was accepted. Its buffer holds 512 places at most, as good as any longer one: no
// route, backup or trace has more.
// Stays a bool: a list of calls keeps of each whether it was accepted, and no fault.
pub fn perform<N: Network, M: Measure>(planner: &mut Planner<N, M>, call: Call) -> bool
    ensures follows { Follows M.Measure.scale (state N.Network.meaning planner.old) call result (state N.Network.meaning planner.new) }
    ensures keeps { network_of planner.new ≡ network_of planner.old }
{
    let mut places = [0; 512];
    // Stays written in each arm: a closure that lends the slice would be called in each arm all the same.
    match call {
        Call::Withdraw(place) => planner.withdraw(place).is_ok(),
        Call::Restore(place) => planner.restore(place).is_ok(),
        Call::Plan(destination) => planner.plan(destination).is_ok(),
        Call::Guarantee(node) => planner.guarantee(node).is_ok(),
        Call::Next(node) => planner.next(node).is_ok(),
        Call::Route(node, room) => planner.route(node, &mut places[..room.min(512)]).is_ok(),
        Call::Backup(node, room) => planner.backup(node, &mut places[..room.min(512)]).is_ok(),
        Call::Trace(node, failure, room) => planner
            .trace(node, failure, &mut places[..room.min(512)])
            .is_ok(),
    }
}

// Opens a planner and makes the calls of a list on it, each from what the one before left, and notes which were accepted.
// Gives the network back, and notes nothing, where there is no memory. The error stays the network alone, as that of `open`.
pub fn replay<N: Network, M: Measure>(
    heap: Global,
    network: N,
    events: &mut [Event],
) -> Result<Planner<N, M>, N>
    ensures { ReplayAnswer N.Network.meaning M.Measure.scale network events.old events.new result }
{
    let mut planner = Planner::open(heap, network)?;
    for event in events.iter_mut() {
        event.accepted = perform(&mut planner, event.call);
    }
    Ok(planner)
}

// Makes the calls of a list on a new planner and then asks it for the guarantee and the route of a node, and for the trace
// from it under a failure. Gives the network back.
pub fn answers_after<N: Network, M: Measure>(
    heap: Global,
    network: N,
    events: &mut [Event],
    node: usize,
    failure: Failure,
    route: &mut [u16],
    trace: &mut [u16],
) -> Result<(Answers, N), N>
    ensures { AnswersAfter N.Network.meaning M.Measure.scale network node failure events.old events.new route.old route.new trace.old trace.new result }
{
    let planner = replay::<N, M>(heap, network, events)?;
    let answers = Answers {
        guarantee: planner.guarantee(node),
        route: planner.route(node, route),
        trace: planner.trace(node, failure, trace),
    };
    Ok((answers, planner.close()))
}
