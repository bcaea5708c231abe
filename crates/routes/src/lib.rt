// Held routes: what a search leaves for each node, and the walks along next links that read it.
#![tactic(auto)]

pub mod fault;
pub mod record;
pub mod searches;
pub mod walk;
