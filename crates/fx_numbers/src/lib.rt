//! What up to 32 numbers (transactions) of a mounted disk share, beside the disk itself: their parts
//! and snapshots, the key table, the levels of items, and the notes of what happened. Each call is
//! one event of the shared state.
#![tactic(auto)]

mod flush;
mod given;
mod held;
mod laws;
mod log;
mod numbers;
mod part;
mod slots;
mod snapshot;

pub use fx_keys::{Asked, LockKey, MAX_NUMBERS, Mode};
pub use given::{Found, Given};
pub use laws::step_laws;
pub use numbers::Numbers;
pub use snapshot::Snapshot;

#[cfg(test)]
mod tests;
