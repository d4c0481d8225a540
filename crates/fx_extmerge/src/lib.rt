//! How items of objects, of extents and of the allocator meet, and parts of items.
#![tactic(auto)]

mod merger;
mod part;

pub use merger::{AllocMerger, ExtentMerger, ObjectMerger};
pub use part::cut;

#[cfg(test)]
mod tests;
