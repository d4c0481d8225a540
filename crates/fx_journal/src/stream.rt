//! The stream: the journal blocks that stand one after another from a start on.

use fx_base::List;
use fx_item::Bytes;
use fx_jblock::Start;
use thiserror::Error;

/// A block of the stream.
#[derive(Debug, Drop)]
pub struct StreamBlock {
    /// Its sequence number.
    pub sequence: u64,
    /// Its epoch: the generation of the session that wrote it.
    pub epoch: u64,
    /// Its record bytes, 1 to 4,064.
    pub records: Bytes,
}

/// The blocks of a stream, the oldest first.
pub type Blocks = List<StreamBlock>;

/// What a walk reads from the ring.
#[derive(Debug, Drop)]
pub struct Stream {
    /// The blocks of the stream.
    pub blocks: Blocks,
    /// The place after the last of them, where a further block would stand.
    pub next: Start,
}

/// Why the stream was not read.
#[derive(Clone, Copy, Debug, PartialEq, Eq, Error)]
pub enum WalkFault {
    /// A read of the disk failed. The disk's count of faults rose.
    #[error("the disk failed")]
    Device,
    /// There was no memory for the record bytes.
    #[error("out of memory")]
    OutOfMemory,
}
