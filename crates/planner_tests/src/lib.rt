// Tests of the planner's calls on small networks.
#![tactic(auto)]

#[cfg(test)]
mod buffers;
#[cfg(test)]
mod calls;
#[cfg(test)]
mod example;
#[cfg(test)]
mod networks_under;
#[cfg(test)]
mod questions;
