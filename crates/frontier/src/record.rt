// The records of the nodes.

// What a search finds for one node: its best value, the fewest tight links to the destination, and its next link.
#[derive(Clone, Copy, PartialEq, Eq, Debug, Default)]
pub struct NodeRecord {
    pub value: Option<u64>,
    pub steps: Option<u16>,
    pub next: Option<u16>,
}
