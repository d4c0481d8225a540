//! Layers of blocks as levels of a layer set: laws for those who install them, and tests over both.
#![tactic(auto)]

mod laws;

pub use laws::{layer_trees_law, standing_sizes_law};

#[cfg(test)]
mod tests;
