// Walks along next links.
ghost use Rattle.std.specs.Prelude.{◌≡◌, ℕ, ◌<◌, ◌≤◌, ◌^◌, List, length, unwrap_or};
ghost use Rattle.definitions.specs.Networks.{failed};
ghost use Rattle.routes.specs.Records.{Leads, next_of, steps_of};
ghost use Rattle.routes.specs.Walks.{links_of, plain_value, Turned, RouteWritten};

use crate::record::NodeRecord;
use definitions::Failure;
use measures::Measure;
use networks::network::Network;

// A network, and the records that a search left of its nodes: from each node a walk follows its next link.
#[derive(Drop)]
pub struct Walk<'a, N: Network> {
    pub network: N,
    pub records: &'a [NodeRecord],
}

// A buffer is too short for the places of a route; it takes so many entries.
#[derive(Clone, Copy, PartialEq, Eq, Debug)]
pub struct NoRoom {
    pub needed: usize,
}

// Where a walk ends, and how many links lead there.
#[derive(Clone, Copy, PartialEq, Eq, Debug)]
pub struct Turn {
    pub node: usize,
    pub passed: usize,
}

impl<'a, N: Network> Walk<'a, N> {
    // The place of a node's next link, if it has one.
    pub fn next_place(&self, node: usize) -> Option<u16>
        ensures { result ≡ next_of self.now.records.now node }
    {
        self.records.get(node)?.next
    }

    // How many links the held route of a node has: its steps, if the search reached it.
    pub fn route_length(&self, node: usize) -> Option<u16>
        ensures { result ≡ steps_of self.now.records.now node }
    {
        self.records.get(node)?.steps
    }

    // Fills the buffer with the places along the next links from a node.
    // Stays beside turning_point, which takes the same steps: one fills a buffer, and the other stops at a failure and counts.
    pub fn write_places(&self, node: usize, places: &mut [u16])
        ensures { (e : ℕ) (ks : List ℕ) → Leads (N.Network.meaning self.now.network) (next_of self.now.records.now) e node ks → length ks ≡ length places.old → places.new ≡ ks }
    {
        let mut at = node;
        for slot in places.iter_mut() {
            let Some(k) = self.next_place(at) else {
                return;
            };
            let Some(link) = self.network.place(usize::from(k)) else {
                return;
            };
            *slot = k;
            at = usize::from(link.head);
        }
    }

    // Writes the held route of a node at the start of the buffer and answers how many places it has, none where the
    // search did not reach the node: a call that cannot fail there has no better answer. They are counted first: where the
    // buffer is too short it stays as it is.
    pub fn write_route(&self, node: usize, places: &mut [u16]) -> Result<usize, NoRoom>
        ensures { RouteWritten (N.Network.meaning self.now.network) self.now.records.now node places.old result places.new }
    {
        let count = usize::from(self.route_length(node).unwrap_or(0));
        if places.len() < count {
            return Err(NoRoom { needed: count });
        }
        self.write_places(node, &mut places[..count]);
        Ok(count)
    }

    // Follows next links up to the destination, or to the node whose next link has failed.
    pub fn turning_point(&self, destination: usize, node: usize, failure: Failure) -> Turn
        ensures turned { Turned (N.Network.meaning self.now.network) self.now.records.now destination failure node result.node result.passed }
        ensures inside { node < (N.Network.meaning self.now.network).nodes → result.node < (N.Network.meaning self.now.network).nodes }
        ensures passed { result.passed ≤ length self.now.records.now }
    {
        let mut at = node;
        let mut passed = 0;
        // Stays a loop: CONTRIBUTING.md wants the node where the walk turns yielded by a break.
        let node = loop {
            if at == destination || passed >= self.records.len() {
                break at;
            }
            let Some(k) = self.next_place(at) else {
                break at;
            };
            if has_failed(&self.network, failure, usize::from(k)) {
                break at;
            }
            let Some(link) = self.network.place(usize::from(k)) else {
                break at;
            };
            at = usize::from(link.head);
            passed += 1;
        };
        Turn { node, passed }
    }
}

// The place of a node's next link, as the records have it; 0 where it has none.
pub fn next_place(records: &[NodeRecord], node: usize) -> usize
    ensures { result ≡ unwrap_or (next_of records.now node) 0 }
{
    let record = records.get(node).copied().unwrap_or_default();
    usize::from(record.next.unwrap_or(0))
}

// How many links the held route of a node has, as the records have it; 0 where the search did not reach the node.
pub fn route_length(records: &[NodeRecord], node: usize) -> usize
    ensures value { result ≡ links_of records.now node }
    ensures small { result < 2 ^ 16 }
{
    let record = records.get(node).copied().unwrap_or_default();
    usize::from(record.steps.unwrap_or(0))
}

// The plain value of a route: the starting value, extended by its figures from the last to the first.
pub fn plain_value<N: Network, M: Measure>(network: &N, places: &[u16]) -> u64
    ensures { result ≡ plain_value M.Measure.scale (N.Network.meaning network.now) places.now }
{
    places.iter().rev().fold(
        M::starting(),
        |value, k| match network.place(usize::from(*k)) {
            Some(link) => M::extend(value, link.figure),
            None => value,
        },
    )
}

// Has the link at place k failed?
pub fn has_failed<N: Network>(network: &N, failure: Failure, k: usize) -> bool
    ensures { result ≡ failed (N.Network.meaning network.now) failure k }
{
    match failure {
        Failure::Nothing => false,
        Failure::OneLink(j) => k == usize::from(j),
        Failure::OneGroup(b) => network.place(k).is_some_and(|link| link.in_group(b)),
    }
}
