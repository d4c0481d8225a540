//! A buddy allocator over one region of blocks: buffers of `2^order` blocks are taken from it and
//! given back, and a buffer that is given back merges with its buddy for as long as that is free.
#![tactic(auto)]

mod free;
pub mod laws;
mod pool;

pub use pool::{Buf, MAX_ORDER, Pool};
