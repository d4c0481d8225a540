//! What a transaction locks, and how.

use fx_base::List;

/// The key of a node's lock: the node with this id in this store. Ordered by store, then by id.
#[derive(Clone, Copy, Debug, PartialEq, Eq, PartialOrd, Ord)]
pub struct LockKey {
    pub store: u32,
    pub id: u64,
}

/// How a lock key is held.
#[derive(Clone, Copy, Debug, PartialEq, Eq)]
pub enum Mode {
    /// Of a directory that was walked.
    Share,
    /// Of a node that will change; readers may still come.
    Change,
    /// Of a node that changes now: a `Change` that was raised. It is held alone.
    Write,
    /// Of a file that is being read.
    Read,
}

/// Lock keys, one after another.
pub type KeyList = List<LockKey>;
