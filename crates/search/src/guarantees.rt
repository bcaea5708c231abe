// The guarantees of the nodes.
ghost use Rattle.std.specs.Prelude.{◌≡◌, ◌≤◌, OnOk, OnErr};
ghost use Rattle.search.specs.Answers.{WorstTables};

use crate::fault::NoDestination;
use crate::graph::Graph;
use crate::recoveries::recovery_values;
use crate::workspace::Workspace;
use frontier::record::NodeRecord;
use measures::Measure;
use networks::network::Network;

// Finds the guarantees to t, with steps and next links by worst values, and the recovery value of every link. Where t
// is no node it refuses and leaves the records and the recovery values as they are.
pub fn worst_tables<N: Network, M: Measure>(
    network: &N,
    t: u16,
    recoveries: &mut [Option<u64>; 1024],
    records: &mut [NodeRecord; 256],
    workspace: &mut Workspace,
) -> Result<(), NoDestination>
    ensures found { OnOk result (WorstTables M.Measure.scale (N.Network.meaning network.now) t recoveries.new records.new) }
    ensures refused { OnErr result (((N.Network.meaning network.now).nodes ≤ t) × (records.new ≡ records.old) × (recoveries.new ≡ recoveries.old)) }
{
    recovery_values::<N, M>(network, t, recoveries, workspace)?;
    let graph = Graph::<N, M>::new(network, &mut workspace.index, recoveries);
    graph.best_records(t, records, &mut workspace.candidates, &mut workspace.hops);
    Ok(())
}
