//! What was committed, how lines end, and what the two have to do with each other:
//! histories, the trees that they lead to, transcripts and the text of outcomes.
#![tactic(auto)]

mod entry;
mod outcome;
mod text;

pub use entry::{Entry, History};
pub use outcome::{EndKind, Outcome, Outcomes};
pub use text::{line_laws, result_text};

#[cfg(test)]
mod tests;
