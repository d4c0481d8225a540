//! Why a disk is not formatted, or not mounted.
ghost use Rattle.std.specs.Prelude.{◌≡◌};

use fx_disk::DiskFailed;
use fx_store::BeginFault;
use std::alloc::AllocError;
use thiserror::Error;

/// Why a disk was not formatted.
#[derive(Clone, Copy, Debug, PartialEq, Eq, Error)]
pub enum MkfsFault {
    /// The disk has this number of blocks, which are too few for the ring or too many.
    #[error("a disk of {0} blocks does not fit")]
    Size(u32),
    /// The disk failed. Nothing is promised of what it holds.
    #[error("the disk failed")]
    Device,
}

impl From<DiskFailed> for MkfsFault {
    ghost use Rattle.fx_mount.specs.declared.fault.MkfsFault.TheVariants.{Device};

    ghost from_gives = { λ _ fault. fault ≡ Device };

    fn from(_: DiskFailed) -> MkfsFault {
        MkfsFault::Device
    }
}

/// Why a disk was not mounted: the first of these that holds, in this order.
#[derive(Clone, Copy, Debug, PartialEq, Eq, Error)]
pub enum MountFault {
    /// Neither block 0 nor block 1 is a superblock, of this version or another; or the disk has
    /// fewer than two blocks.
    #[error("there is no superblock")]
    NoSuper,
    /// There is no superblock but one of this version.
    #[error("the superblock has version {0}")]
    Version(u32),
    /// The chosen superblock is of a disk of another number of blocks; this disk has so many.
    #[error("the superblock is not of a disk of {0} blocks")]
    DiskSize(u32),
    /// The chosen superblock names layers, this block first. No layer can be read yet.
    #[error("the superblock names a layer at block {0}")]
    BadLayer(u32),
    /// The record of the journal at this place, counted from 0, is none, or its number is out of
    /// order.
    #[error("record {0} of the journal is bad")]
    BadRecord(u32),
    /// The items of the journal make no tree, and this is the least node, by store and id, at which
    /// something is wrong.
    #[error("the tree does not stand at node {id} of store {store}")]
    BadTree { store: u32, id: u64 },
    /// A number of the image is too close to its bound for a session (0).
    #[error("the image has too little room, {0} free blocks")]
    Cramped(u32),
    /// The disk failed.
    #[error("the disk failed")]
    Device,
    /// No memory was to be had.
    #[error("out of memory")]
    OutOfMemory,
}

impl From<DiskFailed> for MountFault {
    ghost use Rattle.fx_mount.specs.declared.fault.MountFault.TheVariants.{Device};

    ghost from_gives = { λ _ fault. fault ≡ Device };

    fn from(_: DiskFailed) -> MountFault {
        MountFault::Device
    }
}

impl From<AllocError> for MountFault {
    ghost use Rattle.fx_mount.specs.declared.fault.MountFault.TheVariants.{OutOfMemory};

    ghost from_gives = { λ _ fault. fault ≡ OutOfMemory };

    fn from(_: AllocError) -> MountFault {
        MountFault::OutOfMemory
    }
}

impl From<BeginFault> for MountFault {
    ghost use Rattle.fx_mount.specs.Found.{fault_of};

    ghost from_gives = { λ fault mounting. mounting ≡ fault_of fault };

    fn from(fault: BeginFault) -> MountFault {
        match fault {
            BeginFault::Device => MountFault::Device,
            BeginFault::OutOfMemory => MountFault::OutOfMemory,
        }
    }
}
