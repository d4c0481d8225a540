//! Merges: the overlay of several levels, item by item, in order.
#![tactic(auto)]

mod choice;
mod cursor;
mod merge;
mod run;

pub use merge::{LayerRefs, Merge};
pub use run::{drain, next_live};

#[cfg(test)]
mod tests;
