// The incident as lists of calls, each made on a new planner.
use crate::words::{tell_guarantee, tell_links, tell_trace};
use definitions::Failure;
use histories::call::{Call, Event};
use measures::Delay;
use networks::draft::Book;
use runs::answers_after;
use std::io;

// A call that is still to be made.
fn asked(call: Call) -> Event {
    Event {
        call,
        accepted: false,
    }
}

// A call of the list, and whether it was accepted.
fn tell_event(rt: &HostRuntime, event: Event) -> io::Result<()> {
    let answer = if event.accepted {
        "accepted"
    } else {
        "refused"
    };
    match event.call {
        Call::Withdraw(place) => println!(rt; "Withdraw of link {place} was {answer}."),
        Call::Restore(place) => println!(rt; "Restore of link {place} was {answer}."),
        Call::Plan(node) => println!(rt; "Plan to node {node} was {answer}."),
        _ => println!(rt; "A reading call was {answer}."),
    }
}

// Makes the calls of a list, then asks for the guarantee and the route of node 0 and for its trace with the duct cut.
fn replay_list(rt: &HostRuntime, network: Book, events: &mut [Event]) -> io::Result<Book> {
    let mut route = [0; 16];
    let mut trace = [0; 16];
    match answers_after::<Book, Delay>(
        rt.alloc(),
        network,
        events,
        0,
        Failure::OneGroup(0),
        &mut route,
        &mut trace,
    ) {
        Ok((answers, network)) => {
            for event in events.iter() {
                tell_event(rt, *event)?;
            }
            tell_guarantee(rt, answers.guarantee)?;
            tell_links(rt, "The route of node 0", answers.route, &route)?;
            tell_trace(rt, "With the duct cut the trace", answers.trace, &trace)?;
            Ok(network)
        }
        Err(network) => {
            println!(rt; "There is no memory for a planner.")?;
            Ok(network)
        }
    }
}

// The list with the withdraw sent twice, and the same list with the link put back before the plan.
pub(crate) fn replay_lists(rt: &HostRuntime, network: Book) -> io::Result<()> {
    let mut twice = [
        asked(Call::Plan(4)),
        asked(Call::Withdraw(6)),
        asked(Call::Withdraw(6)),
        asked(Call::Plan(4)),
    ];
    let network = replay_list(rt, network, &mut twice)?;
    let mut restored = [
        asked(Call::Plan(4)),
        asked(Call::Withdraw(6)),
        asked(Call::Withdraw(6)),
        asked(Call::Restore(6)),
        asked(Call::Plan(4)),
    ];
    let _ = replay_list(rt, network, &mut restored)?;
    Ok(())
}
