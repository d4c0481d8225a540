//! What the numbers of a line say: laws of what it writes, touches and needs, and worked lines.
#![tactic(auto)]

mod laws;
#[cfg(test)]
mod tests;

pub use laws::{answer_laws, cut_laws, gain_laws, worked_needs};
