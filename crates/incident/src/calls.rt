// The incident, call by call on one planner.
use crate::words::{tell_done, tell_guarantee, tell_links, tell_refusal, tell_trace};
use definitions::Failure;
use measures::Delay;
use networks::draft::Book;
use planner::planner::Planner;
use std::io;

// The guarantee, the route and the backup of a node.
fn tell_node(rt: &HostRuntime, planner: &Planner<Book, Delay>, node: usize) -> io::Result<()> {
    println!(rt; "Node {node}.")?;
    tell_guarantee(rt, planner.guarantee(node))?;
    let mut route = [0; 16];
    tell_links(rt, "The route", planner.route(node, &mut route), &route)?;
    let mut backup = [0; 16];
    tell_links(rt, "The backup", planner.backup(node, &mut backup), &backup)
}

// Plans to node 4 and tells what the plan holds for every other node.
fn plan(rt: &HostRuntime, planner: &mut Planner<Book, Delay>) -> io::Result<()> {
    match planner.plan(4) {
        Ok(count) => println!(rt; "Plan to node 4 is accepted; {count} nodes have a guarantee.")?,
        Err(fault) => tell_refusal(rt, "Plan to node 4", fault)?,
    }
    for node in 0..4 {
        tell_node(rt, planner, node)?;
    }
    Ok(())
}

// Where traffic from a node goes before and after the duct is cut.
fn tell_traffic(rt: &HostRuntime, planner: &Planner<Book, Delay>, node: usize) -> io::Result<()> {
    println!(rt; "Traffic from node {node}.")?;
    let mut whole = [0; 16];
    let before = planner.trace(node, Failure::Nothing, &mut whole);
    tell_trace(rt, "With no failure the trace", before, &whole)?;
    let mut cut = [0; 16];
    let after = planner.trace(node, Failure::OneGroup(0), &mut cut);
    tell_trace(rt, "With the duct cut the trace", after, &cut)
}

// Where traffic from nodes 0 and 1 goes.
fn cut_the_duct(rt: &HostRuntime, planner: &Planner<Book, Delay>) -> io::Result<()> {
    for node in 0..2 {
        tell_traffic(rt, planner, node)?;
    }
    Ok(())
}

// Withdraws link 6 twice, plans, cuts the duct, and puts the link back.
fn incident(rt: &HostRuntime, planner: &mut Planner<Book, Delay>) -> io::Result<()> {
    plan(rt, planner)?;
    cut_the_duct(rt, planner)?;
    tell_done(rt, "Withdraw of link 6", planner.withdraw(6))?;
    tell_done(rt, "The same withdraw, sent again,", planner.withdraw(6))?;
    println!(rt; "Link 6 stays out of service.")?;
    plan(rt, planner)?;
    cut_the_duct(rt, planner)?;
    tell_done(rt, "Restore of link 6", planner.restore(6))?;
    tell_done(rt, "The same restore, sent again,", planner.restore(6))?;
    plan(rt, planner)
}

// Makes the calls on a planner over the network, and gives the network back if there was memory for a planner.
pub(crate) fn call_by_call(rt: &HostRuntime, network: Book) -> io::Result<Option<Book>> {
    let Ok(mut planner) = Planner::open(rt.alloc(), network) else {
        return Ok(None);
    };
    let told = incident(rt, &mut planner);
    let network = planner.close();
    told?;
    Ok(Some(network))
}
