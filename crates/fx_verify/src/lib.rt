//! Which transactions of a journal an image keeps: those up to the greatest number after which each block that they
//! wrote and that is still live has the sum that they state for it.
#![tactic(auto)]

mod blocks;
mod keeping;
mod laws;
mod written;
mod wrong;

pub use blocks::blocks_of;
pub use keeping::kept;
pub use laws::{kept_exists, kept_is_one, live_is_written};

#[cfg(test)]
mod tests;
