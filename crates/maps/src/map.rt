// Maps read in their own bytes.
ghost use Rattle.std.specs.Prelude.{◌≡◌, ◌+◌, ◌*◌, ◌<◌, ◌≤◌, length, take, drop};
ghost use Rattle.definitions.specs.Networks.{AllSound};
ghost use Rattle.maps.specs.Maps.{node_count, link_count, link_at, mapped};
ghost use Rattle.networks.specs.Drafts.{answered};
ghost use Rattle.maps.specs.Checks.{link_fault, first, map_fault, opened};

use crate::fault::MapFault;
use definitions::Link;
use networks::draft::admit;
use networks::network::Network;

// Bytes with the sizes of a map: node count and link count within the limits, and the length for so many links.
#[derive(Clone, Copy)]
struct Framed<'a> {
    bytes: &'a [u8],
    ghost few: { node_count bytes.now ≤ 256 },
    ghost short: { link_count bytes.now ≤ 1024 },
    ghost long: { length bytes.now ≡ 4 + 12 * link_count bytes.now },
}

// A network read in the bytes of a map, which are well formed.
#[derive(Clone, Copy)]
pub struct Map<'a> {
    framed: Framed<'a>,
    ghost sound: { AllSound (mapped framed.bytes.now) },
}

// The W bytes from `at` on.
fn bytes_at<const W: usize>(bytes: &[u8], at: usize) -> [u8; W]
    requires { at + W ≤ length bytes.now }
    ensures { result ≡ take W (drop at bytes.now) }
{
    let mut part = [0; W];
    part.copy_from_slice(&bytes[at..at + W]);
    part
}

impl<'a> Framed<'a> {
    fn node_count(&self) -> usize
        ensures { result ≡ node_count self.now.bytes.now }
    {
        usize::from(u16::from_be_bytes(bytes_at(self.bytes, 0)))
    }

    fn link_count(&self) -> usize
        ensures { result ≡ link_count self.now.bytes.now }
    {
        usize::from(u16::from_be_bytes(bytes_at(self.bytes, 2)))
    }

    fn link(&self, k: usize) -> Link
        requires { k < link_count self.now.bytes.now }
        ensures { result ≡ link_at self.now.bytes.now (link_count self.now.bytes.now) k }
    {
        let ends = 4 + 4 * k;
        let attributes = 4 + 4 * self.link_count() + 8 * k;
        Link {
            tail: u16::from_be_bytes(bytes_at(self.bytes, ends)),
            head: u16::from_be_bytes(bytes_at(self.bytes, ends + 2)),
            figure: u32::from_be_bytes(bytes_at(self.bytes, attributes)),
            groups: u32::from_be_bytes(bytes_at(self.bytes, attributes + 4)),
        }
    }

    // Is link k one that a draft would take?
    fn check_link(&self, k: usize) -> Result<(), MapFault>
        requires { k < link_count self.now.bytes.now }
        ensures { result ≡ answered (link_fault self.now.bytes.now k) }
    {
        Ok(admit(self.node_count(), k, self.link(k))?)
    }

    // Is each link one that a draft would take?
    #[tactic(auto, using(crate::proofs::Firsts::first_at, crate::proofs::Firsts::first_next, crate::proofs::Firsts::first_end))]
    fn check_links(&self) -> Result<(), MapFault>
        ensures { result ≡ answered (first (link_fault self.now.bytes.now) 0 (link_count self.now.bytes.now)) }
    {
        // Stays a loop: it is as plain as `try_for_each`, of whose result the library has no lemma.
        for k in 0..self.link_count() {
            self.check_link(k)?;
        }
        Ok(())
    }
}

impl<'a> TryFrom<&'a [u8]> for Framed<'a> {
    type Error = MapFault;

    ghost use Rattle.maps.specs.Reads.{HasSizes};

    ghost try_from_gives = { λ bytes r. HasSizes bytes.now r };

    fn try_from(bytes: &'a [u8]) -> Result<Self, MapFault> {
        let len = bytes.len();
        let [a, b, c, d, ..] = *bytes else {
            return Err(MapFault::TooShort(len));
        };
        let nodes = usize::from(u16::from_be_bytes([a, b]));
        if !(1..=256).contains(&nodes) {
            return Err(MapFault::Nodes(nodes));
        }
        let count = usize::from(u16::from_be_bytes([c, d]));
        if count > 1024 {
            return Err(MapFault::Links(count));
        }
        let right = 4 + 12 * count;
        if len != right {
            return Err(MapFault::WrongLength(len.min(right)));
        }
        Ok(Framed { bytes })
    }
}

// The network in these bytes, read where they lie; the first fault, where they are no map.
impl<'a> TryFrom<&'a [u8]> for Map<'a> {
    type Error = MapFault;

    ghost use Rattle.maps.specs.Reads.{IsMap};

    ghost try_from_gives = { λ bytes r. IsMap bytes.now r };

    fn try_from(bytes: &'a [u8]) -> Result<Self, MapFault> {
        let framed = Framed::try_from(bytes)?;
        framed.check_links()?;
        Ok(Map { framed })
    }
}

impl<'a> Map<'a> {
    ghost use Rattle.maps.specs.Reads.{network_of};

    // Are these bytes a map? The first fault, if not.
    pub fn check(bytes: &[u8]) -> Result<(), MapFault>
        ensures { result ≡ answered (map_fault bytes.now) }
    {
        Map::try_from(bytes)?;
        Ok(())
    }

    // The network in these bytes, read where they lie; where they are no map, one with no nodes and no places.
    pub fn open(bytes: &'a [u8]) -> Map<'a>
        ensures { network_of result ≡ opened bytes.now }
    {
        Map::try_from(bytes).unwrap_or(Map {
            framed: Framed { bytes: EMPTY },
        })
    }
}

// A map with no nodes and no links.
const EMPTY: &[u8] = &[0, 0, 0, 0];

impl<'a> Network for Map<'a> {
    ghost use Rattle.maps.specs.Reads.{network_of, map_limits};

    ghost meaning = { network_of };

    ghost limits = { map_limits };

    fn node_count(&self) -> usize {
        self.framed.node_count()
    }

    #[tactic(auto, using(crate::proofs::Firsts::mapped_places))]
    fn place_count(&self) -> usize {
        self.framed.link_count()
    }

    // An `if`: the closure of `then` would need clauses of its own.
    #[tactic(auto, using(crate::proofs::Firsts::place_within, crate::proofs::Firsts::place_past))]
    fn place(&self, k: usize) -> Option<Link> {
        if k < self.framed.link_count() {
            Some(self.framed.link(k))
        } else {
            None
        }
    }
}
