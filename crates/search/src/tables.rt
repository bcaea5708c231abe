// The calls that find what is known of the nodes for one destination.
// Network, destination and workspace stay three parameters: a type that holds them would ask more of callers than numbers do.
pub use crate::fault::NoDestination;
pub use crate::guarantees::worst_tables;
pub use crate::plains::{plain_tables, plain_values};
pub use crate::recoveries::recovery_values;
pub use crate::workspace::Workspace;
