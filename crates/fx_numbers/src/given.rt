//! What a mount found, and what is reserved for a number.

use fx_item::Need;

/// What a mount found, beside the items.
#[derive(Clone, Copy, Debug, PartialEq, Eq)]
pub struct Found {
    /// The number of the last commit that the image keeps.
    pub kept: u64,
    /// The commits that the layers hold.
    pub base: u64,
    /// The blocks of the disk, and those of its ring.
    pub blocks: u32,
    pub ring: u32,
    /// The first id and the first store that nothing uses.
    pub ids: u64,
    pub stores: u32,
    /// The faults that the disk has counted.
    pub faults: u64,
}

/// What is reserved for a number: what its commit may add, the bytes that its records may take in the
/// ring, and the first of the new ids and of the new stores, of which there are `need.nodes` each.
#[derive(Clone, Copy, Debug, PartialEq, Eq)]
pub struct Given {
    pub need: Need,
    pub bytes: u32,
    pub id: u64,
    pub store: u32,
}
