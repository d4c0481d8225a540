//! What undoes the steps of a line: definitions and their laws.
#![tactic(auto)]

mod laws;

pub use laws::undo_laws;
