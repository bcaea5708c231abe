// The searches that fill the records of the nodes.
ghost use Rattle.std.specs.Prelude.{◌≡◌};
ghost use Rattle.definitions.specs.Plans.{plain, worst};
ghost use Rattle.routes.specs.Records.{SearchAnswer};

use crate::fault::SearchFault;
use crate::record::NodeRecord;
use measures::Measure;
use networks::network::Network;
use search::tables::{Workspace, plain_tables, worst_tables};

// Finds the guarantee, the steps and the next link of every node. Where it refuses it leaves the records as they are.
pub fn worst_records<N: Network, M: Measure>(
    network: &N,
    destination: usize,
    records: &mut [NodeRecord],
) -> Result<(), SearchFault>
    ensures { SearchAnswer (worst M.Measure.scale (N.Network.meaning network.now) destination) (N.Network.meaning network.now) destination records.old result records.new }
{
    let records = records.as_mut_array().ok_or(SearchFault::RecordCount)?;
    // Asked before the workspace is made, which a refusal does not need.
    if destination >= network.node_count() {
        return Err(SearchFault::NoDestination);
    }
    let t = u16::try_from(destination).map_err(|_| SearchFault::NoDestination)?;
    let mut workspace = Workspace::new();
    worst_tables::<N, M>(network, t, &mut [None; 1024], records, &mut workspace)?;
    Ok(())
}

// Finds the best plain value, the steps and the next link of every node. Where it refuses it leaves the records as they
// are.
// Stays beside worst_records: one function would take the search as a closure with three `&mut`, for three lines saved.
pub fn plain_records<N: Network, M: Measure>(
    network: &N,
    destination: usize,
    records: &mut [NodeRecord],
) -> Result<(), SearchFault>
    ensures { SearchAnswer (plain M.Measure.scale) (N.Network.meaning network.now) destination records.old result records.new }
{
    let records = records.as_mut_array().ok_or(SearchFault::RecordCount)?;
    // Asked before the workspace is made, as in worst_records.
    if destination >= network.node_count() {
        return Err(SearchFault::NoDestination);
    }
    let t = u16::try_from(destination).map_err(|_| SearchFault::NoDestination)?;
    let mut workspace = Workspace::new();
    plain_tables::<N, M>(network, t, records, &mut workspace)?;
    Ok(())
}
