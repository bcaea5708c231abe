// Replays the calls behind an outage: a link was withdrawn for repair, the same withdraw was sent again, and the plan made
// after it was taken to be safe when a duct was cut. It prints what was called, what was answered, and where traffic goes.
#![tactic(auto)]

mod calls;
mod layout;
mod replays;
mod words;

use std::io;

fn main(rt: HostRuntime) -> io::Result<()> {
    let Ok(network) = layout::lay_out(rt.alloc()) else {
        return println!(rt; "There is no memory for the network.");
    };
    println!(rt; "Call by call.")?;
    let Some(network) = calls::call_by_call(&rt, network)? else {
        return println!(rt; "There is no memory for a planner.");
    };
    println!(rt; "The same calls as one list, and then with the link put back.")?;
    replays::replay_lists(&rt, network)
}
