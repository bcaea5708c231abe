// A network that is being laid out, and the closed network that it becomes.
ghost use Rattle.std.specs.Prelude.{◌≡◌, []};
ghost use Rattle.definitions.specs.Networks.{listed};
ghost use Rattle.networks.specs.declared.draft.DraftFault.TheVariants.{NoMemory};
ghost use Rattle.networks.specs.Drafts.{drafted, booked, booked_limits, refusal, answered, Sized, Added, Laid};
ghost use Rattle.networks.specs.Faults.{draft_code};

use crate::network::Network;
use crate::table::Table;
use definitions::{FaultCode, Link};
use std::alloc::{AllocFailed, Global};

// Why a draft refuses a call. Each case holds the number in question: the node count, or the place to be filled.
#[derive(Clone, Copy, PartialEq, Eq, Debug)]
pub enum DraftFault {
    NodeCount(usize),
    Full(usize),
    TailBeyond(u16),
    HeadBeyond(u16),
    SameEnds(u16),
    NoMemory,
}

// Layer, number and place of the fault.
impl From<DraftFault> for FaultCode {
    ghost from_gives = { λ e r. r ≡ draft_code e };

    fn from(fault: DraftFault) -> FaultCode {
        let (number, place) = match fault {
            DraftFault::NodeCount(n) => (1, n),
            DraftFault::Full(k) => (2, k),
            DraftFault::TailBeyond(k) => (3, usize::from(k)),
            DraftFault::HeadBeyond(k) => (4, usize::from(k)),
            DraftFault::SameEnds(k) => (5, usize::from(k)),
            DraftFault::NoMemory => (0, 0),
        };
        FaultCode {
            layer: 1,
            number,
            place,
        }
    }
}

// A push that found no memory refuses with `NoMemory`.
impl<T: Drop> From<AllocFailed<T>> for DraftFault {
    ghost from_gives = { λ _ r. r ≡ NoMemory };

    fn from(_refused: AllocFailed<T>) -> DraftFault {
        DraftFault::NoMemory
    }
}

// A network that is being laid out.
#[derive(Drop)]
pub struct Draft {
    table: Table,
}

// A closed network: it answers questions, and takes no more links.
#[derive(Drop)]
pub struct Book {
    table: Table,
}

// The questions put before a link fills a place, in order: the place, the tail, the head, and whether the two differ.
pub fn admit(nodes: usize, place: usize, link: Link) -> Result<(), DraftFault>
    ensures { result ≡ answered (refusal nodes place link) }
{
    if place >= 1024 {
        return Err(DraftFault::Full(place));
    }
    // A cast, since a place below 1,024 always fits: a try_from would have a branch that nothing takes.
    let number = place as u16;
    if usize::from(link.tail) >= nodes {
        return Err(DraftFault::TailBeyond(number));
    }
    if usize::from(link.head) >= nodes {
        return Err(DraftFault::HeadBeyond(number));
    }
    if link.tail == link.head {
        return Err(DraftFault::SameEnds(number));
    }
    Ok(())
}

impl Draft {
    // A draft with no nodes and no links.
    pub fn new(heap: Global) -> Draft
        ensures { drafted result ≡ listed 0 [] }
    {
        Draft {
            table: Table {
                nodes: 0,
                links: Vec::new(heap),
            },
        }
    }

    // Sets the node count, 1 to 256, and clears the links, or refuses and changes nothing.
    pub fn size(&mut self, count: usize) -> Result<(), DraftFault>
        ensures { Sized (drafted self.old) count result (drafted self.new) }
    {
        if count == 0 || count > 256 {
            return Err(DraftFault::NodeCount(count));
        }
        self.table.links.clear();
        self.table.nodes = count;
        Ok(())
    }

    // Fills the next place and answers its number, or refuses and changes nothing.
    pub fn add(&mut self, link: Link) -> Result<usize, DraftFault>
        ensures { Added (drafted self.old) link result (drafted self.new) }
    {
        let place = self.table.links.len();
        admit(self.table.nodes, place, link)?;
        self.table.links.push(link)?;
        Ok(place)
    }

    // Ends the draft; the book has exactly its nodes and links.
    pub fn close(self) -> Book
        ensures { booked result ≡ drafted self }
    {
        let Draft { table } = self;
        Book { table }
    }
}

impl Book {
    // A network of so many nodes with these links in their order, or the first fault that a draft finds.
    pub fn from_links(heap: Global, nodes: usize, links: &[Link]) -> Result<Book, DraftFault>
        ensures { Laid nodes links.now result }
    {
        let mut draft = Draft::new(heap);
        draft.size(nodes)?;
        for link in links {
            draft.add(*link)?;
        }
        Ok(draft.close())
    }

    // Ends the book; the draft has exactly its nodes and links.
    pub fn reopen(self) -> Draft
        ensures { drafted result ≡ booked self }
    {
        let Book { table } = self;
        Draft { table }
    }
}

impl Network for Book {
    ghost meaning = { booked };

    ghost limits = { booked_limits };

    fn node_count(&self) -> usize {
        self.table.nodes
    }

    fn place_count(&self) -> usize {
        self.table.links.len()
    }

    fn place(&self, k: usize) -> Option<Link> {
        self.table.links.get(k).copied()
    }
}
