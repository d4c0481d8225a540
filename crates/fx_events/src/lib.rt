//! What happens between a mount and its end, as a list of notes, and what the ends of the lines of
//! any number of clients say of it: definitions and their laws.
#![tactic(auto)]

mod laws;

pub use laws::{end_laws, note_laws, text_law};
