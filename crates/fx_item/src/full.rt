//! What a full journal tells.

use thiserror::Error;

/// A reservation found no room in the journal's ring. All three are numbers of blocks.
#[derive(Clone, Copy, Debug, PartialEq, Eq, Error)]
#[error("the journal is full: {live} blocks live, {promised} promised, {want} wanted")]
pub struct Full {
    /// The blocks from the start through the unfinished one, plus one where that holds bytes.
    pub live: u32,
    /// The blocks that other reservations hold.
    pub promised: u32,
    /// The blocks that this reservation wants.
    pub want: u32,
}
