//! The records of the journal, and the transactions that a stream of them leaves.
#![tactic(auto)]

pub mod laws;
mod reading;
mod record;
mod txns;
mod writing;

pub use reading::decode_record;
pub use record::{Record, RecordFault, Txns};
pub use txns::{Piece, TxnsFault, is_short, read_txns};
pub use writing::{encode_record, length, set_number};

#[cfg(test)]
mod tests;
