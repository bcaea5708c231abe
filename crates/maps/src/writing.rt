// Networks written as maps.
ghost use Rattle.std.specs.Prelude.{◌≡◌, ℕ, ◌+◌, ◌*◌, ◌<◌, ◌≤◌, List, length, None, refl};
ghost use Rattle.std.proofs.Math.Seq.{paste};
ghost use Rattle.definitions.specs.declared.Link.{Link};
ghost use Rattle.maps.specs.Writes.{ends, attributes, first_empty, writable, written, ReadsBack, AtByteZero};
ghost use Rattle.maps.specs.Writes.{entries, sizes, Rewritten};

use crate::fault::MapFault;
use crate::map::Map;
use definitions::Link;
use networks::network::Network;

// Writes these bytes from `at` on.
fn put(out: &mut [u8], at: usize, bytes: &[u8])
    requires { at + length bytes.now ≤ length out.old }
    ensures { out.new ≡ paste out.old at bytes.now (length bytes.now) }
{
    out[at..at + bytes.len()].copy_from_slice(bytes);
}

// One of the two arrays of a map: it has an entry of W bytes for each link.
trait Column<const W: usize> {
    ghost entry: { Link → List ℕ };

    fn entry(link: Link) -> [u8; W]
        ensures { result ≡ entry link };

    ghost long: { (l : Link) → length (entry l) ≡ W };
}

// The first array: tails and heads.
struct Ends;

impl Column<4> for Ends {
    ghost entry = { ends };

    ghost long = { λ _. refl };

    fn entry(link: Link) -> [u8; 4] {
        let [a, b] = link.tail.to_be_bytes();
        let [c, d] = link.head.to_be_bytes();
        [a, b, c, d]
    }
}

// The second array: figures and groups.
struct Attributes;

impl Column<8> for Attributes {
    ghost entry = { attributes };

    ghost long = { λ _. refl };

    fn entry(link: Link) -> [u8; 8] {
        let [a, b, c, d] = link.figure.to_be_bytes();
        let [e, f, g, h] = link.groups.to_be_bytes();
        [a, b, c, d, e, f, g, h]
    }
}

// The first empty place, if any.
fn first_empty<N: Network>(network: &N) -> Option<usize>
    ensures { result ≡ first_empty (N.Network.meaning network.now).places }
{
    (0..network.place_count()).find(|k| network.place(*k).is_none())
}

// The questions before a map is written into `room` bytes; the length of the map.
fn writable_len<N: Network>(network: &N, room: usize) -> Result<usize, MapFault>
    ensures { result ≡ writable (N.Network.meaning network.now) room }
{
    if network.node_count() == 0 {
        return Err(MapFault::Nodes(0));
    }
    if let Some(k) = first_empty(network) {
        return Err(MapFault::EmptyPlace(k));
    }
    let len = 4 + 12 * network.place_count();
    if len > room {
        return Err(MapFault::SmallBuffer(len));
    }
    Ok(len)
}

// The node count and the link count.
fn sizes<N: Network>(network: &N) -> [u8; 4]
    ensures { result ≡ sizes (N.Network.meaning network.now) }
{
    // Casts: both counts are within the limits, so a conversion has nothing to refuse.
    let [a, b] = (network.node_count() as u16).to_be_bytes();
    let [c, d] = (network.place_count() as u16).to_be_bytes();
    [a, b, c, d]
}

// Writes an array of a map from `start` on: the entries of the links, one behind the other.
fn write_column<const W: usize, C: Column<W>, N: Network>(network: &N, out: &mut [u8], start: usize)
    requires room { start + W * length (N.Network.meaning network.now).places ≤ length out.old }
    requires full { first_empty (N.Network.meaning network.now).places ≡ None }
    ensures { out.new ≡ paste out.old start (entries C.Column.entry (N.Network.meaning network.now).places) (W * length (N.Network.meaning network.now).places) }
{
    // Each entry by its offset: of chunks lent by `chunks_exact_mut`, a proof does not know what was written.
    for k in 0..network.place_count() {
        if let Some(link) = network.place(k) {
            put(out, start + W * k, &C::entry(link));
        }
    }
}

// Writes the map of a network to the start of `out` and answers its length, or refuses and writes nothing.
// What was written passes the check and opens as that network.
pub fn write<N: Network>(network: &N, out: &mut [u8]) -> Result<usize, MapFault>
    ensures value { result ≡ writable (N.Network.meaning network.now) (length out.old) }
    ensures bytes { out.new ≡ written (N.Network.meaning network.now) out.old result }
    ensures byte { AtByteZero result }
    ensures back { ReadsBack (N.Network.meaning network.now) out.new result }
{
    let len = writable_len(network, out.len())?;
    put(out, 0, &sizes(network));
    write_column::<4, Ends, N>(network, out, 4);
    write_column::<8, Attributes, N>(network, out, 4 + 4 * network.place_count());
    Ok(len)
}

// Reads a map and writes it again: the same bytes, or the first fault and nothing written.
pub fn rewrite(bytes: &[u8], out: &mut [u8]) -> Result<usize, MapFault>
    ensures { Rewritten bytes.now out.old out.new result }
{
    let map = Map::try_from(bytes)?;
    write(&map, out)
}
