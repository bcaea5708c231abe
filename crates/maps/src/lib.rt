// Maps: a network as bytes. A map is checked, read where it lies, and written from any network.
#![tactic(auto)]

pub mod fault;
pub mod map;
pub mod writing;
