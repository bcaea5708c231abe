// What the searches run on.
ghost use Rattle.std.specs.Prelude.{◌≡◌, get_or};
ghost use Rattle.definitions.specs.Networks.{place};
ghost use Rattle.frontier.specs.Indexes.{Indexed};
ghost use Rattle.frontier.specs.Offers.{Fitting};
ghost use Rattle.frontier.specs.Records.{blank};
ghost use Rattle.search.specs.Offering.{OffersLinks};

use frontier::index::{Index, index_links};
use frontier::record::NodeRecord;
use heap::{Heap, Order};
use measures::Measure;
use networks::network::Network;
use std::marker::PhantomData;

// A network with the index of its links and the recovery value of each link, under the measure M.
#[derive(Drop)]
pub(crate) struct Graph<'a, N: Network, M: Measure> {
    pub(crate) network: &'a N,
    pub(crate) index: &'a Index,
    pub(crate) recoveries: &'a [Option<u64>],
    measure: PhantomData<M>,
    ghost indexed: { ∥ Indexed (N.Network.meaning network.now) (place index.now.first) (place index.now.next) ∥₁ },
    ghost fitting: { Fitting (N.Network.meaning network.now) (place recoveries.now) },
}

impl<'a, N: Network, M: Measure> Graph<'a, N, M> {
    ghost use Rattle.search.specs.Graphs.{net_of, valuation_of};

    // The graph of a network and its recovery values. The links are indexed in the memory that is lent; what it held does not
    // matter.
    pub(crate) fn new(
        network: &'a N,
        index: &'a mut Index,
        recoveries: &'a [Option<u64>],
    ) -> Graph<'a, N, M>
        requires { Fitting (N.Network.meaning network.now) (place recoveries.now) }
        ensures network { result.network.now ≡ network.now }
        ensures recoveries { result.recoveries.now ≡ recoveries.now }
    {
        index_links(network, index);
        Graph {
            network,
            index,
            recoveries,
            measure: PhantomData,
        }
    }

    // Puts on the heap what the links into a node offer, the highest place first.
    pub(crate) fn offer_links<E: Copy, O: Order<E>, F: Fn(usize) -> Option<E>>(
        &self,
        node: u16,
        offer: F,
        heap: &mut Heap<E>,
    )
        requires { F.IsAlwaysCallable offer }
        ensures { OffersLinks O.Order.before (net_of self.now) node (F.post offer) heap.old heap.new }
    {
        for k in self.index.links_into(node) {
            if let Some(entry) = offer(k) {
                let _ = heap.push::<O>(entry);
            }
        }
    }
}

// The record of a node; blank beyond the last.
pub(crate) fn record_at(records: &[NodeRecord], node: u16) -> NodeRecord
    ensures { result ≡ get_or records.now node blank }
{
    records.get(usize::from(node)).copied().unwrap_or_default()
}
