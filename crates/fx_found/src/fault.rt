//! Why nothing is found on a disk.
ghost use Rattle.std.specs.Prelude.{◌≡◌};

use fx_disk::DiskFailed;
use std::alloc::AllocError;
use thiserror::Error;

/// Why an image was not found: the first of these that holds of it, in this order; or the disk
/// failed, or there was no memory, before that was known.
#[derive(Clone, Copy, Debug, PartialEq, Eq, Error)]
pub enum FindFault {
    /// Neither block 0 nor block 1 is a superblock, of this version or another; or the disk has
    /// fewer than two blocks.
    #[error("there is no superblock")]
    NoSuper,
    /// There is no superblock but one of this version.
    #[error("the superblock has version {0}")]
    Version(u32),
    /// The chosen superblock is of a disk of another number of blocks; this disk has so many.
    #[error("the superblock is not of a disk of {0} blocks")]
    DiskSize(u32),
    /// This block of a layer is none, or its items are out of order. Objects come before
    /// allocations, newer layers before older ones, index blocks before data blocks; a block that
    /// comes twice is bad at its second place.
    #[error("block {0} is no block of the layer")]
    BadLayer(u32),
    /// The record of the journal at this place, counted from 0, is none, or its number is out of
    /// order.
    #[error("record {0} of the journal is bad")]
    BadRecord(u32),
    /// The items stand for no tree, or a block of a file lies outside of the place of data: this is
    /// the least node, by store and id, at which something is amiss.
    #[error("the tree does not stand at node {id} of store {store}")]
    BadTree { store: u32, id: u64 },
    /// The least block at which the allocator, the files, the layers and the system disagree.
    #[error("block {0} is unsound")]
    Unsound(u32),
    /// There is too little room, and so many blocks are free; or a number is too near to its bound
    /// (0).
    #[error("the image has too little room, {0} free blocks")]
    Cramped(u32),
    /// A read of the disk failed. The disk's count of faults rose.
    #[error("the disk failed")]
    Device,
    /// There is not enough memory.
    #[error("out of memory")]
    OutOfMemory,
}

impl From<DiskFailed> for FindFault {
    ghost use Rattle.fx_found.specs.declared.fault.FindFault.TheVariants.{Device};

    ghost from_gives = { λ _ fault. fault ≡ Device };

    fn from(_: DiskFailed) -> FindFault {
        FindFault::Device
    }
}

impl From<AllocError> for FindFault {
    ghost use Rattle.fx_found.specs.declared.fault.FindFault.TheVariants.{OutOfMemory};

    ghost from_gives = { λ _ fault. fault ≡ OutOfMemory };

    fn from(_: AllocError) -> FindFault {
        FindFault::OutOfMemory
    }
}
