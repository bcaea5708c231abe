// Looks at the map in `net.map`: says what network it holds, or why it is no map. With a node's number as its argument it also
// says the best delay and the best width from every node to that one.
#![tactic(auto)]

use definitions::{FaultCode, GROUP_COUNT};
use frontier::record::NodeRecord;
use maps::fault::MapFault;
use maps::map::Map;
use maps::writing::rewrite;
use measures::{Delay, Measure, Width};
use networks::network::Network;
use search::tables::{Workspace, plain_values};
use std::io::Read;
use std::{env, fs, io};
use survey::{Selection, count_links};

// One byte more than the longest map: whatever is longer has the same fault at any length.
const BYTES_READ: u64 = 12_293;

// The bytes of the map, as far as they matter. A file that is missing or cannot be read counts as empty.
// Stays in both programs that read a map: in a library it would be a public call, and no contract says what a file holds.
fn read_map(rt: &HostRuntime) -> io::Result<Vec<u8>> {
    let mut bytes = Vec::with_capacity(rt.alloc(), 16_384)?;
    if let Ok(file) = fs::open(rt, "net.map") {
        if file.take(BYTES_READ).read_to_end(&mut bytes).is_err() {
            bytes.clear();
        }
    }
    Ok(bytes)
}

fn print_fault(rt: &HostRuntime, fault: MapFault) -> io::Result<()> {
    let FaultCode {
        layer,
        number,
        place,
    } = FaultCode::from(fault);
    let byte = fault.byte();
    println!(rt;
        "net.map holds no map: layer {layer}, number {number}, place {place}, byte {byte}."
    )?;
    println!(rt; "That means: {fault}.")
}

// Which risk groups are in use, and by how many links.
fn print_groups(rt: &HostRuntime, map: &Map) -> io::Result<()> {
    let mut used = (0..GROUP_COUNT)
        .map(|group| (group, count_links(map, Selection::InGroup(group))))
        .filter(|(_, links)| *links > 0)
        .peekable();
    if used.peek().is_none() {
        return println!(rt; "No link belongs to a risk group.");
    }
    for (group, links) in used {
        println!(rt; "Risk group {group}: {links} links.")?;
    }
    Ok(())
}

// Which nodes have no link out, and which none in.
fn print_ends(rt: &HostRuntime, map: &Map) -> io::Result<()> {
    for node in (0..map.node_count()).filter_map(|node| u16::try_from(node).ok()) {
        if count_links(map, Selection::From(node)) == 0 {
            println!(rt; "Node {node} has no link out.")?;
        }
        if count_links(map, Selection::Into(node)) == 0 {
            println!(rt; "Node {node} has no link in.")?;
        }
    }
    Ok(())
}

// Writes the map back, and says whether that gives the same bytes.
fn print_copy(rt: &HostRuntime, bytes: &[u8]) -> io::Result<()> {
    let mut copy = vec![in rt.alloc(); 0u8; 12_292]?;
    match rewrite(bytes, &mut copy) {
        Ok(_) if copy.starts_with(bytes) => println!(rt;
            "Written back, it is the same map byte for byte."
        ),
        Ok(_) => println!(rt; "Written back, it is another map."),
        Err(fault) => print_fault(rt, fault),
    }
}

// The best plain values of all nodes to a destination.
fn print_values<M: Measure>(
    rt: &HostRuntime,
    map: &Map,
    destination: u16,
    name: &str,
) -> io::Result<()> {
    let mut records = [NodeRecord::default(); 256];
    let mut workspace = Workspace::new();
    if plain_values::<Map, M>(map, destination, &mut records, &mut workspace).is_err() {
        return println!(rt; "There is no node {destination}.");
    }
    for (node, record) in records.iter().take(map.node_count()).enumerate() {
        match record.value {
            Some(value) => println!(rt;
                "Best {name} from node {node} to node {destination}: {value}."
            )?,
            None => println!(rt; "No route from node {node} to node {destination}.")?,
        }
    }
    Ok(())
}

// The best values to the node that the argument names, if there is one.
fn print_argument(rt: &HostRuntime, map: &Map) -> io::Result<()> {
    let Some(word) = env::args(rt)?.nth(1) else {
        return Ok(());
    };
    match word.parse::<u16>() {
        Ok(destination) => {
            print_values::<Delay>(rt, map, destination, "delay")?;
            print_values::<Width>(rt, map, destination, "width")
        }
        Err(_) => println!(rt; "{word} is no node's number."),
    }
}

// What network the map holds.
fn print_map(rt: &HostRuntime, map: &Map, length: usize) -> io::Result<()> {
    let nodes = map.node_count();
    let links = count_links(map, Selection::All);
    println!(rt; "net.map holds a map of {nodes} nodes and {links} links in {length} bytes.")?;
    print_groups(rt, map)?;
    print_ends(rt, map)
}

fn main(rt: HostRuntime) -> io::Result<()> {
    let bytes = read_map(&rt)?;
    match Map::try_from(bytes.as_slice()) {
        Ok(map) => {
            print_map(&rt, &map, bytes.len())?;
            print_copy(&rt, &bytes)?;
            print_argument(&rt, &map)
        }
        Err(fault) => print_fault(&rt, fault),
    }
}
