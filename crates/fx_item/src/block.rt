//! Blocks of the device.

use fx_base::List;

/// A block of the device, and the sum of its bytes.
#[derive(Clone, Copy, Debug, PartialEq, Eq)]
pub struct BlockRef {
    pub block: u32,
    pub sum: u64,
}

/// Numbers of blocks, one after another.
pub type BlockList = List<u32>;
