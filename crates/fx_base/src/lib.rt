//! What every layer stands on: the size of a block, counts that stop at their end, lists, digits,
//! and why an object of the outside failed. Lemmas on orders, lists, bytes and numbers that several
//! crates cite are in `proofs/`.
#![tactic(auto)]

mod block;
mod count;
mod digits;
mod list;

pub use block::{BLOCK_BYTES, is_zero, zero_block};
pub use count::count_up;
pub use digits::are_digits;
pub use list::List;

#[cfg(test)]
mod tests;
