// The search for the best values.
ghost use Rattle.std.specs.Prelude.{◌≡◌, ◌+◌, ◌<◌, ◌≤◌, length, Some, None, slice_set};
ghost use Rattle.definitions.specs.Networks.{place};
ghost use Rattle.definitions.specs.Searches.{Labels};
ghost use Rattle.heap.specs.Heaps.{Heaped};
ghost use Rattle.heap.specs.Holds.{held, capacity};
ghost use Rattle.frontier.specs.Orders.{ValueBefore};
ghost use Rattle.frontier.specs.Offers.{made, Offered};
ghost use Rattle.frontier.specs.Progress.{Offering, links_open};
ghost use Rattle.frontier.specs.Records.{value_of, values_in, Unreached};

use crate::graph::{Graph, record_at};
use frontier::entries::{ByValue, Candidate};
use frontier::lists::at;
use frontier::record::NodeRecord;
use heap::Heap;
use measures::Measure;
use networks::network::Network;

// What a link makes of the value at its head: the worse of its recovery value and the extended
// value. Without a recovery value it makes nothing.
pub(crate) fn link_value<M: Measure>(recovery: Option<u64>, figure: u32, value: u64) -> Option<u64>
    ensures { result ≡ made M.Measure.scale recovery figure value }
{
    let recovery = recovery?;
    let extended = M::extend(value, figure);
    if M::no_worse(recovery, extended) {
        Some(extended)
    } else {
        Some(recovery)
    }
}

impl<'a, N: Network, M: Measure> Graph<'a, N, M> {
    ghost use Rattle.search.specs.Graphs.{net_of, valuation_of};

    // The entry that place k offers, now that `from` has its value: a link into it, from a node without one.
    fn offer(&self, records: &[NodeRecord], from: Candidate, k: usize) -> Option<Candidate>
        ensures { Offered (valuation_of self.now) (net_of self.now) (value_of records.now) from k result }
    {
        let link = self.network.place(k)?;
        if link.head != from.node || record_at(records, link.tail).value.is_some() {
            return None;
        }
        let value = link_value::<M>(at(self.recoveries, k), link.figure, from.value)?;
        Some(Candidate {
            value,
            node: link.tail,
        })
    }

    // Gives a node its value, and offers the links into it.
    fn settle(
        &self,
        candidate: Candidate,
        records: &mut [NodeRecord; 256],
        heap: &mut Heap<Candidate>,
    )
        requires inside { candidate.node < 256 }
        requires fresh { value_of records.old candidate.node ≡ None }
        requires order { Heaped (ValueBefore M.Measure.scale) (held heap.old) }
        requires room { length (held heap.old) + links_open (net_of self.now) (value_of records.old) ≤ capacity heap.old }
        ensures settled { values_in records.new ≡ slice_set (values_in records.old) candidate.node (Some candidate.value) }
        ensures offered { Offering M.Measure.scale (place self.now.recoveries.now) (net_of self.now) (value_of records.new) candidate heap.old heap.new 0 }
        ensures unreached { Unreached records.old → Unreached records.new }
    {
        records[usize::from(candidate.node)].value = Some(candidate.value);
        let offer = |k| self.offer(records, candidate, k);
        self.offer_links::<_, ByValue<M>, _>(candidate.node, offer, heap);
    }

    // Finds the best value of every node to the destination t: nodes get their values in order, the best first. No node has
    // steps or a next link then.
    pub(crate) fn best_values(
        &self,
        t: u16,
        records: &mut [NodeRecord; 256],
        entries: &mut [Candidate],
    )
        requires inside { t < (net_of self.now).nodes }
        requires room { length (net_of self.now).places ≤ length entries.old }
        ensures labels { Labels (valuation_of self.now) (net_of self.now) t (value_of records.new) }
        ensures unreached { Unreached records.new }
    {
        records.fill(NodeRecord::default());
        let mut heap = Heap::new(entries);
        let start = Candidate {
            value: M::starting(),
            node: t,
        };
        self.settle(start, records, &mut heap);
        while let Some(next) = heap.pop::<ByValue<M>>() {
            if record_at(records, next.node).value.is_none() {
                self.settle(next, records, &mut heap);
            }
        }
    }
}
