// The search for steps and next links.
ghost use Rattle.std.specs.Prelude.{◌≡◌, ◌+◌, ◌<◌, ◌≤◌, length, Some, None, Decides, slice_set};
ghost use Rattle.definitions.specs.Networks.{place};
ghost use Rattle.definitions.specs.Searches.{Labels, Nexts};
ghost use Rattle.heap.specs.Heaps.{Heaped};
ghost use Rattle.heap.specs.Holds.{held, capacity};
ghost use Rattle.frontier.specs.Orders.{StepsBefore};
ghost use Rattle.frontier.specs.Progress.{links_open, HopOffering};
ghost use Rattle.frontier.specs.Hops.{LabelTight, HopOffered, NoNext};
ghost use Rattle.frontier.specs.Records.{value_of, steps_of, next_of, values_in, steps_in, nexts_in, Unreached};

use crate::graph::{Graph, record_at};
use crate::values::link_value;
use definitions::Link;
use frontier::entries::{BySteps, Candidate, Hop, Settled};
use frontier::lists::at;
use frontier::record::NodeRecord;
use heap::Heap;
use measures::Measure;
use networks::network::Network;

impl<'a, N: Network, M: Measure> Graph<'a, N, M> {
    ghost use Rattle.search.specs.Graphs.{net_of, valuation_of};

    // Does the link at place k make of the value at its head the value at its tail?
    fn is_tight(&self, records: &[NodeRecord], k: usize, link: Link) -> bool
        ensures { Decides result (LabelTight (valuation_of self.now) (value_of records.now) k link) }
    {
        let own = record_at(records, link.tail).value;
        let beyond = record_at(records, link.head).value;
        let (Some(own), Some(beyond)) = (own, beyond) else {
            return false;
        };
        link_value::<M>(at(self.recoveries, k), link.figure, beyond) == Some(own)
    }

    // The hop that place k offers, now that `from` has its steps: a tight link into it, from a node without steps.
    fn offer_hop(&self, records: &[NodeRecord], from: Settled, k: usize) -> Option<Hop>
        requires { from.steps ≤ 1024 }
        ensures { HopOffered (valuation_of self.now) (net_of self.now) (value_of records.now) (steps_of records.now) from k result }
    {
        let link = self.network.place(k)?;
        if link.head != from.node || record_at(records, link.tail).steps.is_some() {
            return None;
        }
        if !self.is_tight(records, k, link) {
            return None;
        }
        // Stays a cast: k is a place below 1024, and a conversion that can fail would add a refusal that never comes.
        Some(Hop {
            steps: from.steps + 1,
            link: k as u16,
        })
    }

    // Gives a node its steps and its next link, and offers the tight links into it.
    fn count_node(
        &self,
        from: Settled,
        next: Option<u16>,
        records: &mut [NodeRecord; 256],
        heap: &mut Heap<Hop>,
    )
        requires short { from.steps ≤ 1024 }
        requires inside { from.node < 256 }
        requires fresh { steps_of records.old from.node ≡ None }
        requires order { Heaped StepsBefore (held heap.old) }
        requires room { length (held heap.old) + links_open (net_of self.now) (steps_of records.old) ≤ capacity heap.old }
        ensures steps { steps_in records.new ≡ slice_set (steps_in records.old) from.node (Some from.steps) }
        ensures nexts { nexts_in records.new ≡ slice_set (nexts_in records.old) from.node next }
        ensures values { values_in records.new ≡ values_in records.old }
        ensures offered { HopOffering (valuation_of self.now) (net_of self.now) (value_of records.new) (steps_of records.new) from heap.old heap.new 0 }
    {
        let record = &mut records[usize::from(from.node)];
        record.steps = Some(from.steps);
        record.next = next;
        let offer = |k| self.offer_hop(records, from, k);
        self.offer_links::<_, BySteps, _>(from.node, offer, heap);
    }

    // Finds the steps and the next link of every node that has a value: links are taken in order, the fewest
    // steps first and then the lowest number.
    // Stays beside best_values: a trait for both would have a law for each step of either proof, and more lines than one loop.
    pub(crate) fn next_links(&self, t: u16, records: &mut [NodeRecord; 256], entries: &mut [Hop])
        requires labels { Labels (valuation_of self.now) (net_of self.now) t (value_of records.old) }
        requires unreached { Unreached records.old }
        requires inside { t < (net_of self.now).nodes }
        requires room { length (net_of self.now).places ≤ length entries.old }
        ensures values { values_in records.new ≡ values_in records.old }
        ensures nexts { Nexts (valuation_of self.now) (net_of self.now) t (steps_of records.new) (next_of records.new) }
        ensures idle { NoNext t (steps_of records.new) (next_of records.new) }
    {
        let mut heap = Heap::new(entries);
        let start = Settled { node: t, steps: 0 };
        self.count_node(start, None, records, &mut heap);
        while let Some(hop) = heap.pop::<BySteps>() {
            let Some(link) = self.network.place(usize::from(hop.link)) else {
                continue;
            };
            if record_at(records, link.tail).steps.is_none() {
                let settled = Settled {
                    node: link.tail,
                    steps: hop.steps,
                };
                self.count_node(settled, Some(hop.link), records, &mut heap);
            }
        }
    }

    // Finds the best value, the steps and the next link of every node to the destination t.
    pub(crate) fn best_records(
        &self,
        t: u16,
        records: &mut [NodeRecord; 256],
        candidates: &mut [Candidate],
        hops: &mut [Hop],
    )
        requires inside { t < (net_of self.now).nodes }
        requires candidates { length (net_of self.now).places ≤ length candidates.old }
        requires hops { length (net_of self.now).places ≤ length hops.old }
        ensures labels { Labels (valuation_of self.now) (net_of self.now) t (value_of records.new) }
        ensures nexts { Nexts (valuation_of self.now) (net_of self.now) t (steps_of records.new) (next_of records.new) }
        ensures idle { NoNext t (steps_of records.new) (next_of records.new) }
    {
        self.best_values(t, records, candidates);
        self.next_links(t, records, hops);
    }
}
