// Refusals of the searches.

// The destination is no node of the network.
#[derive(Clone, Copy, PartialEq, Eq, Debug)]
pub struct NoDestination;
