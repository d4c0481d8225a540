//! The key table: which number holds which lock key, and how.
//!
//! A number that asks is answered at once: it holds the key, or another is in its way. It never waits here; it asks
//! again when the other has dropped its keys. Numbers that ask in the order of the keys, and neither ask nor raise
//! while they read, never wait for one another in a circle.
#![tactic(auto)]

mod conflict;
mod holdings;
mod seats;
mod table;
mod waiting;

pub use conflict::conflicts;
pub use fx_item::{LockKey, Mode};
pub use table::{Asked, KeyTable, MAX_NUMBERS};
pub use waiting::waiting_has_no_cycle;
