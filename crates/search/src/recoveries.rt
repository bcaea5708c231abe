// The recovery values of the links.
ghost use Rattle.std.specs.Prelude.{◌≡◌, ◌<◌, ◌≤◌, None, OnOk, OnErr};
ghost use Rattle.definitions.specs.declared.Link.{Link as TheLink};
ghost use Rattle.definitions.specs.Networks.{place, Holds, at_risk};
ghost use Rattle.definitions.specs.Routes.{BestIs};
ghost use Rattle.definitions.specs.Plans.{plain};
ghost use Rattle.search.specs.Answers.{Recovered};

use crate::fault::NoDestination;
use crate::graph::record_at;
use crate::plains::{check_destination, plain_values};
use crate::workspace::Workspace;
use frontier::record::NodeRecord;
use measures::Measure;
use networks::layers::AtRisk;
use networks::network::Network;

// The recovery value of the link at k: the best plain value from its tail in the layer at risk with it. None for a place
// without a link.
fn recovery<N: Network, M: Measure>(
    network: &N,
    t: u16,
    k: usize,
    workspace: &mut Workspace,
) -> Option<u64>
    requires { t < (N.Network.meaning network.now).nodes }
    ensures link { (l : TheLink) → Holds (N.Network.meaning network.now) k l → BestIs (plain M.Measure.scale) (at_risk k (N.Network.meaning network.now)) t l.tail result }
    ensures empty { place (N.Network.meaning network.now).places k ≡ None → result ≡ None }
{
    let link = network.place(k)?;
    let layer = AtRisk { network, link: k };
    let mut records = [NodeRecord::default(); 256];
    plain_values::<AtRisk<&N>, M>(&layer, t, &mut records, workspace).ok()?;
    record_at(&records, link.tail).value
}

// Finds the recovery value of every link. Where t is no node it refuses and leaves the recovery values as they are.
pub fn recovery_values<N: Network, M: Measure>(
    network: &N,
    t: u16,
    recoveries: &mut [Option<u64>; 1024],
    workspace: &mut Workspace,
) -> Result<(), NoDestination>
    ensures found { OnOk result (Recovered M.Measure.scale (N.Network.meaning network.now) t (place recoveries.new)) }
    ensures refused { OnErr result (((N.Network.meaning network.now).nodes ≤ t) × (recoveries.new ≡ recoveries.old)) }
{
    check_destination(network, t)?;
    recoveries.fill(None);
    let count = network.place_count();
    for (k, slot) in recoveries[..count].iter_mut().enumerate() {
        *slot = recovery::<N, M>(network, t, k, workspace);
    }
    Ok(())
}
