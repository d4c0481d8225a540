//! Batches over layers, as one tree: levels that are shared, and the set of them.
#![tactic(auto)]

mod lane;
mod laws;
mod layered;
mod look;
mod set;

pub use laws::install_law;
pub use layered::{Layered, Layers, LevelList};
pub use look::SetMerge;
pub use set::LayerSet;

#[cfg(test)]
mod chance;
#[cfg(test)]
mod tests;
