//! Why nothing was reserved.
use fx_item::Full;

/// Why nothing was reserved, the first in this order.
#[derive(Clone, Copy, Debug, PartialEq, Eq)]
pub enum ReserveRefusal {
    /// A mount gives out at most 2^23 ids and as many stores, and there are not so many left.
    Spent,
    /// The ring has no place for the record.
    Full(Full),
    /// No memory was to be had.
    OutOfMemory,
}
