//! Batches: sorted items in memory, which are looked up by binary search.
#![tactic(auto)]

mod batch;

pub use batch::{Batch, BuildFault};

#[cfg(test)]
mod tests;
