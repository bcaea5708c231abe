// The planner: a network, which of its links are withdrawn, and the plan that stands.
ghost use Rattle.std.specs.Prelude.{◌≡◌, vec_len, vec_items};
ghost use Rattle.definitions.specs.Networks.{withdrawn, without};
ghost use Rattle.histories.specs.State.{marked, PlanRight};

use measures::Measure;
use networks::layers::Withdrawn;
use networks::network::Network;
use routes::record::NodeRecord;
use routes::walk::Walk;
use std::marker::PhantomData;

mod calls;
mod reads;

// A mark for each place there can be, and a record for each node there can be, so that no call but `open` allocates. The
// records of a plan that stands are right in the network without the withdrawn links.
pub struct Planner<N: Network, M: Measure> {
    network: N,
    withdrawn: Vec<bool>,
    destination: Option<usize>,
    records: Vec<NodeRecord>,
    measure: PhantomData<M>,
    ghost marks: { vec_len withdrawn ≡ 1024 },
    ghost nodes: { vec_len records ≡ 256 },
    ghost right: { ∥ PlanRight M.Measure.scale (without (marked (vec_items withdrawn)) (N.Network.meaning network)) destination (vec_items records) ∥₁ },
}

impl<N: Network, M: Measure> Planner<N, M> {
    // The network without its withdrawn links.
    fn in_service(&self) -> Withdrawn<'_, N>
        ensures { withdrawn result.marks.now (N.Network.meaning result.network.now) ≡ without (marked (vec_items self.now.withdrawn)) (N.Network.meaning self.now.network) }
    {
        Withdrawn {
            network: &self.network,
            marks: &self.withdrawn,
        }
    }

    // The network without its withdrawn links, with the records of the plan.
    fn walk(&self) -> Walk<'_, Withdrawn<'_, N>>
        ensures service { withdrawn result.network.marks.now (N.Network.meaning result.network.network.now) ≡ without (marked (vec_items self.now.withdrawn)) (N.Network.meaning self.now.network) }
        ensures records { result.records.now ≡ vec_items self.now.records }
    {
        Walk {
            network: self.in_service(),
            records: &self.records,
        }
    }
}
