// The console: takes the network in `net.map`, then answers the lines of standard input.
#![tactic(auto)]

use dialogue::admission::admit_map;
use dialogue::session::Session;
use lines::feed::Feed;
use lines::responder::Responder;
use maps::map::Map;
use std::io::{Read, Write};
use std::{fs, io};

// One byte more than the longest map: whatever is longer has the same fault at any length.
const MAP_BYTES: u64 = 12_293;

// How many bytes of input are taken at a time.
const PIECE_BYTES: usize = 65_536;

// Adds the bytes of the map's file, as far as they matter.
fn read_file(rt: &HostRuntime, bytes: &mut Vec<u8>) -> io::Result<usize> {
    fs::open(rt, "net.map")?.take(MAP_BYTES).read_to_end(bytes)
}

// The bytes of the map. A file that is missing or cannot be read counts as empty.
// Stays in both programs that read a map: in a library it would be a public call, and no contract says what a file holds.
fn read_map(rt: &HostRuntime) -> io::Result<Vec<u8>> {
    let mut bytes = Vec::with_capacity(rt.alloc(), 16_384)?;
    if read_file(rt, &mut bytes).is_err() {
        bytes.clear();
    }
    Ok(bytes)
}

// Writes the text at once, and empties it.
fn print(rt: &HostRuntime, out: &mut String) -> io::Result<()> {
    let mut output = rt.stdout();
    output.write_all(out.as_bytes())?;
    output.flush()?;
    out.clear();
    Ok(())
}

// Answers the lines of standard input over the network in the map.
fn converse(rt: &HostRuntime, map: &[u8], out: &mut String) -> io::Result<()> {
    let mut session = Session::new(rt.alloc(), Map::open(map));
    let mut feed = Feed::new();
    let mut input = rt.stdin();
    let mut piece = vec![in rt.alloc(); 0u8; PIECE_BYTES]?;
    // Stays a loop over numbers: the input ends it, and a bound shows that it ends.
    for _ in 0..u64::MAX {
        let count = input.read(&mut piece)?;
        if count == 0 {
            break;
        }
        feed.feed(&piece[..count], out, &mut session)?;
        print(rt, out)?;
        if session.has_ended() {
            return Ok(());
        }
    }
    feed.finish(out, &mut session)?;
    print(rt, out)
}

fn main(rt: HostRuntime) -> io::Result<()> {
    let map = read_map(&rt)?;
    let mut out = String::new(rt.alloc());
    if !admit_map(&map, &mut out)? {
        return print(&rt, &mut out);
    }
    converse(&rt, &map, &mut out)
}
