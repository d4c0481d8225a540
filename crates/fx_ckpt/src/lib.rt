//! A checkpoint: new layers take the place of old ones, and a new superblock that of the old one.
#![tactic(auto)]

mod checkpoint;
mod laws;

pub use checkpoint::{Ckpt, Phase};
pub use laws::put_lasts_law;

#[cfg(test)]
mod tests;
