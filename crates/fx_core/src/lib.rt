//! The mounted state as events: what many numbers share, kept by the journal of a disk.
#![tactic(auto)]

mod laws;
mod mounted;
mod reserving;
mod tail;

pub use laws::{commit_laws, first_core_law, logged_laws, opening_laws};
pub use mounted::{Core, CoreEnd, Mark, Mounted, Prepared};
pub use reserving::ReserveRefusal;

#[cfg(test)]
mod fake;
#[cfg(test)]
mod tests;
