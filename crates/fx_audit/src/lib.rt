//! What is wrong with an image first.
#![tactic(auto)]

mod auditing;
mod blocks;
mod image;
mod nodes;
mod room;
mod search;

pub use auditing::{audit, has_no_tombstone};
pub use image::Audited;

#[cfg(test)]
mod tests;
