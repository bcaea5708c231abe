// The index of the links into each node.
ghost use Rattle.std.specs.Prelude.{◌≡◌, ◌+◌, ◌<◌, length, replicate, None};
ghost use Rattle.definitions.specs.Networks.{place};
ghost use Rattle.std.specs.Iterator.{at_most};
ghost use Rattle.frontier.specs.Indexes.{Indexed, Stepped};
ghost use Rattle.frontier.specs.Progress.{Indexing, above};

use crate::lists::at;
use networks::network::Network;

// The links into each node, the highest number first: `first` has the highest of each node, and `next`
// the next lower at each place.
// Stays two arrays of numbers: the searches work in memory of fixed size.
#[derive(PartialEq, Eq, Debug, Drop)]
pub struct Index {
    pub first: [Option<u16>; 256],
    pub next: [Option<u16>; 1024],
}

impl Index {
    // An index with no link in it.
    pub fn new() -> Self
        ensures first { result.first ≡ replicate 256 None }
        ensures next { result.next ≡ replicate 1024 None }
    {
        Index {
            first: [None; 256],
            next: [None; 1024],
        }
    }

    // Enters the link at place k, where the places below are entered.
    fn enter_place<N: Network>(&mut self, network: &N, k: usize)
        requires inside { k < length (N.Network.meaning network.now).places }
        requires below { Indexing (N.Network.meaning network.now) self.old k }
        ensures { Indexing (N.Network.meaning network.now) self.new (k + 1) }
    {
        if let Some(link) = network.place(k) {
            // Stays a cast: k is a place below 1,024, and a conversion that can fail would have nothing to do where it fails.
            self.next[k] = self.first[usize::from(link.head)].replace(k as u16);
        }
    }

    // The places that hold the links into a node, the highest first.
    pub fn links_into(&self, node: u16) -> LinksInto<'_>
        ensures index { result.index.now ≡ self.now }
        ensures cursor { result.cursor ≡ place self.now.first node }
    {
        LinksInto {
            index: self,
            cursor: at(&self.first, usize::from(node)),
        }
    }
}

// A walk along the links into one node: it stands at the place that it gives next. It goes on to a lower place only, so that it
// ends along any index.
#[derive(Clone, Debug, Drop)]
pub struct LinksInto<'a> {
    index: &'a Index,
    cursor: Option<u16>,
}

impl<'a> Iterator for LinksInto<'a> {
    type Item = usize;

    ghost next_gives = { Stepped };

    ghost remaining = { λ s. at_most (above s.cursor) };

    fn next(&mut self) -> Option<usize> {
        let k = usize::from(self.cursor?);
        self.cursor = at(&self.index.next, k).filter(|j| usize::from(*j) < k);
        Some(k)
    }
}

// Makes the index of a network; what it held before does not matter.
pub fn index_links<N: Network>(network: &N, index: &mut Index)
    ensures { Indexed (N.Network.meaning network.now) (place index.new.first) (place index.new.next) }
{
    index.first.fill(None);
    index.next.fill(None);
    // Stays a loop over numbers: a network is asked for a place by its number.
    for k in 0..network.place_count() {
        index.enter_place(network, k);
    }
}
