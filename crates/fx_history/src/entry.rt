//! Entries of the history.

use fx_base::List;
use fx_plain::Steps;

/// One commit.
#[derive(Debug, Drop)]
pub struct Entry {
    /// Its number. The numbers of a history follow each other.
    pub number: u64,
    /// The client that asked for it, from 1; 0 is the upkeep of the file system itself.
    pub who: u32,
    /// The number of the client's line in its script.
    pub line: u32,
    /// The steps of that line, all done.
    pub steps: Steps,
    /// The device calls made when the entry was settled; 0 before that.
    pub settled: u64,
}

/// What was committed, in the order of its numbers.
pub type History = List<Entry>;
