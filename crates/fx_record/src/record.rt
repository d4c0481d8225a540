//! Records, lists of transactions, and what can be wrong with bytes that are read as a record.
ghost use Rattle.std.specs.Prelude.{◌≡◌, length};

use fx_base::List;
use fx_item::Items;
use std::alloc::{AllocError, AllocFailed};
use thiserror::Error;

/// A record of the journal.
#[derive(Debug, Drop)]
pub enum Record {
    /// The transaction of that number is done: it put these items, which ascend.
    Txn { number: u64, items: Items },
    /// The transactions past that number are dropped.
    Discard { number: u64 },
}

/// Why bytes could not be read as a record. Bytes have at most one of the first three.
#[derive(Debug, Drop, Error)]
pub enum RecordFault {
    /// There are fewer than four bytes, or fewer than four and the length that they state.
    #[error("cut off")]
    Cut,
    /// The length is 0, or the tag is unknown, or the length does not suit the tag.
    #[error("bad tag or length")]
    BadTag,
    /// The item at this place, counted from 0, is none, or does not lie after the one before; at
    /// the place that is the count of items, bytes are left.
    #[error("bad item {0}")]
    BadItem(u32),
    /// There is not enough memory.
    #[error("out of memory")]
    OutOfMemory,
}

impl From<AllocError> for RecordFault {
    ghost use Rattle.std.specs.Prelude.{◌≡◌};
    ghost use Rattle.fx_record.specs.declared.record.RecordFault.TheVariants.{OutOfMemory};

    ghost from_gives = { λ _ e. e ≡ OutOfMemory };

    fn from(_: AllocError) -> RecordFault {
        RecordFault::OutOfMemory
    }
}

impl<T: Drop> From<AllocFailed<T>> for RecordFault {
    ghost use Rattle.std.specs.Prelude.{◌≡◌};
    ghost use Rattle.fx_record.specs.declared.record.RecordFault.TheVariants.{OutOfMemory};

    ghost from_gives = { λ _ e. e ≡ OutOfMemory };

    fn from(_: AllocFailed<T>) -> RecordFault {
        RecordFault::OutOfMemory
    }
}

/// Transactions in their order, each a number and its items.
pub type Txns = List<(u64, Items)>;
