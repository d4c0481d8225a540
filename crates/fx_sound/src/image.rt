//! What is judged of an image, and what is wrong with it first.

/// The numbers of an image that have bounds.
#[derive(Clone, Copy, Debug, PartialEq, Eq)]
pub struct ImageNumbers {
    /// The chosen superblock's generation.
    pub generation: u64,
    /// The sequence at which the stream starts.
    pub sequence: u64,
    /// The number of the last transaction that the layers hold.
    pub base: u64,
    /// The number up to which the image keeps its transactions.
    pub kept: u64,
    /// The first id that nothing has used.
    pub next_id: u64,
    /// The first store that nothing has used.
    pub next_store: u32,
}

/// What is wrong with an image: the first of these that holds.
#[derive(Clone, Copy, Debug, PartialEq, Eq)]
pub enum ImageFault {
    /// The items stand for no tree, or a block of a file does not lie on the disk past the ring;
    /// this is the least node, by store and id, at which something is amiss.
    BadTree { store: u32, id: u64 },
    /// The least block at which the allocator, the files, the layers and the system disagree.
    Unsound(u32),
    /// There is too little room, and so many blocks are free; or a number is too near to its bound
    /// (0).
    Cramped(u32),
}
