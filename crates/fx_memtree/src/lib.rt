//! A tree in memory that does every step of a script.
#![tactic(auto)]

mod carry;
mod contents;
mod node;
#[cfg(test)]
mod tests;
mod tree;

pub use tree::MemoryTree;
