// Networks: what a network answers, networks that are drafted and closed, and layers over a network.
#![tactic(auto)]

pub mod draft;
pub mod layers;
pub mod network;
mod table;
