// What the searches stand on: reads of tables, the records of the nodes, the index of the links into each node, and the heap
// entries with their orders.
#![tactic(auto)]

pub mod entries;
pub mod index;
pub mod lists;
pub mod record;
