//! Nodes over items: what a node is, its attributes, and the graveyard.
#![tactic(auto)]

mod graveyard;
mod holding;
mod laws;
mod node;
mod reaping;

pub use graveyard::graves;
pub use laws::{directory_laws, freed_laws, portion_laws};
pub use node::{attribute, file_length, object};
pub use reaping::{MAX_PORTION, Portion, reap_plan};

#[cfg(test)]
mod tests;
