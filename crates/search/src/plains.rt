// The best plain values, with steps and next links.
ghost use Rattle.std.specs.Prelude.{◌≡◌, ◌<◌, ◌≤◌, length, replicate, Some, OnOk, OnErr};
ghost use Rattle.search.specs.Answers.{PlainValues, PlainTables};

use crate::fault::NoDestination;
use crate::graph::Graph;
use crate::workspace::Workspace;
use frontier::index::Index;
use frontier::record::NodeRecord;
use measures::Measure;
use networks::network::Network;

// The graph of a network by plain values: every link has the start for its recovery value. What the memory that is lent
// held does not matter.
fn plain_graph<'a, N: Network, M: Measure>(
    network: &'a N,
    index: &'a mut Index,
    starts: &'a mut [Option<u64>],
) -> Graph<'a, N, M>
    ensures network { result.network.now ≡ network.now }
    ensures starts { result.recoveries.now ≡ replicate (length starts.old) (Some M.Measure.scale.start) }
{
    starts.fill(Some(M::starting()));
    Graph::new(network, index, starts)
}

// Is t a node? Each public search asks it once, and the private ones, which take t as a number, have it for a premise.
pub(crate) fn check_destination<N: Network>(network: &N, t: u16) -> Result<(), NoDestination>
    ensures node { OnOk result (t < (N.Network.meaning network.now).nodes) }
    ensures refused { OnErr result ((N.Network.meaning network.now).nodes ≤ t) }
{
    if usize::from(t) < network.node_count() {
        Ok(())
    } else {
        Err(NoDestination)
    }
}

// Finds the best plain value of every node to t. Where t is no node it refuses and leaves the records as they are.
pub fn plain_values<N: Network, M: Measure>(
    network: &N,
    t: u16,
    records: &mut [NodeRecord; 256],
    workspace: &mut Workspace,
) -> Result<(), NoDestination>
    ensures found { OnOk result (PlainValues M.Measure.scale (N.Network.meaning network.now) t records.new) }
    ensures refused { OnErr result (((N.Network.meaning network.now).nodes ≤ t) × (records.new ≡ records.old)) }
{
    check_destination(network, t)?;
    let graph = plain_graph::<N, M>(network, &mut workspace.index, &mut workspace.starts);
    graph.best_values(t, records, &mut workspace.candidates);
    Ok(())
}

// Finds the best plain values to t, with steps and next links. Where t is no node it refuses and leaves the records as
// they are.
pub fn plain_tables<N: Network, M: Measure>(
    network: &N,
    t: u16,
    records: &mut [NodeRecord; 256],
    workspace: &mut Workspace,
) -> Result<(), NoDestination>
    ensures found { OnOk result (PlainTables M.Measure.scale (N.Network.meaning network.now) t records.new) }
    ensures refused { OnErr result (((N.Network.meaning network.now).nodes ≤ t) × (records.new ≡ records.old)) }
{
    check_destination(network, t)?;
    let graph = plain_graph::<N, M>(network, &mut workspace.index, &mut workspace.starts);
    graph.best_records(t, records, &mut workspace.candidates, &mut workspace.hops);
    Ok(())
}
