// Why bytes are no map, and why a network cannot be written as one.
ghost use Rattle.std.specs.Prelude.{◌≡◌, Some};
ghost use Rattle.maps.specs.declared.fault.MapFault.TheVariants.{BadLink};
ghost use Rattle.maps.specs.Faults.{link_byte, map_code, byte_of, fault_words};

use definitions::FaultCode;
use networks::draft::DraftFault;
use std::error::Error;
use std::fmt;

// The first five cases are of reading, or of a node count of 0 when writing; each holds the number in question.
#[derive(Clone, Copy, PartialEq, Eq, Debug)]
pub enum MapFault {
    // There are fewer than four bytes.
    TooShort(usize),
    // The node count is not 1 to 256.
    Nodes(usize),
    // There are more than 1,024 links.
    Links(usize),
    // The length is not that of a map with so many links; the smaller of the two lengths.
    WrongLength(usize),
    // A link that no draft would take: the draft's fault, and the byte at which it lies.
    BadLink(DraftFault, usize),
    // A place of the network to be written is empty.
    EmptyPlace(usize),
    // The buffer does not hold this many bytes.
    SmallBuffer(usize),
}

// Layer, number and place of the fault; a link's fault is the draft's own.
impl From<MapFault> for FaultCode {
    ghost from_gives = { λ e r. r ≡ map_code e };

    fn from(fault: MapFault) -> FaultCode {
        let (number, place) = match fault {
            MapFault::TooShort(n) => (6, n),
            MapFault::Nodes(n) => (1, n),
            MapFault::Links(m) => (2, m),
            MapFault::WrongLength(n) => (7, n),
            MapFault::BadLink(fault, _) => return FaultCode::from(fault),
            MapFault::EmptyPlace(k) => (18, k),
            MapFault::SmallBuffer(n) => (16, n),
        };
        FaultCode {
            layer: 2,
            number,
            place,
        }
    }
}

impl MapFault {
    // The byte at which the fault lies; 0 where a map was to be written.
    // Stays a method: it is a question beside the code, and no conversion of the fault.
    pub fn byte(&self) -> usize
        ensures { result ≡ byte_of self.now }
    {
        match self {
            MapFault::TooShort(n) | MapFault::WrongLength(n) => *n,
            MapFault::Links(_) => 2,
            MapFault::BadLink(_, byte) => *byte,
            _ => 0,
        }
    }
}

// A draft's fault in a map: the whole of it, and the byte at which it lies.
impl From<DraftFault> for MapFault {
    ghost from_gives = { λ e r. r ≡ BadLink e (link_byte e) };

    fn from(fault: DraftFault) -> MapFault {
        let byte = match fault {
            DraftFault::TailBeyond(k) | DraftFault::SameEnds(k) => 4 + 4 * usize::from(k),
            DraftFault::HeadBeyond(k) => 6 + 4 * usize::from(k),
            _ => 0,
        };
        MapFault::BadLink(fault, byte)
    }
}

// What the fault means, in words.
impl fmt::Display for MapFault {
    ghost output = { λ e. Some (fault_words e) };

    fn fmt<W: fmt::Write>(&self, f: &mut fmt::Formatter<W>) -> fmt::Result {
        f.write_str(match self {
            MapFault::TooShort(_) => "a map has at least four bytes",
            MapFault::Nodes(_) => "the node count is not 1 to 256",
            MapFault::Links(_) => "the link count is above 1,024",
            MapFault::WrongLength(_) => "a map has 4 bytes and 12 for each link",
            MapFault::BadLink(DraftFault::TailBeyond(_), _) =>
                "the tail of this link is not below the node count",
            MapFault::BadLink(DraftFault::HeadBeyond(_), _) =>
                "the head of this link is not below the node count",
            MapFault::BadLink(DraftFault::SameEnds(_), _) =>
                "this link leads from a node to itself",
            MapFault::BadLink(_, _) => "no draft would take this link",
            MapFault::EmptyPlace(_) => "this place holds no link",
            MapFault::SmallBuffer(_) => "the buffer does not hold the map",
        })
    }
}

impl Error for MapFault {}
