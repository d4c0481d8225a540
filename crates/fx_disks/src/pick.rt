//! What is left in a loose block.

use fx_base::BLOCK_BYTES;

/// The bytes of half a block.
pub const HALF_BYTES: usize = BLOCK_BYTES / 2;

/// The bytes that a stop leaves in a loose block.
#[derive(Clone, Copy, Debug, PartialEq, Eq)]
pub enum Loose {
    /// The last bytes that it held while it was not loose.
    Settled,
    /// The bytes of the write with this number, from 1 among the writes and flushes.
    Written(u64),
    /// The first 2,048 bytes of the write with this number, and then the settled bytes.
    Half(u64),
    /// Zeros.
    Zeros,
}

/// A loose block, and what is left in it.
#[derive(Clone, Copy, Debug, PartialEq, Eq)]
pub struct Pick {
    pub block: u32,
    pub loose: Loose,
}
