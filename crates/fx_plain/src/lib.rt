//! The plain tree: what each step of a script answers, and the tree after it.
#![tactic(auto)]

mod contents;
mod kind;
mod names;
mod node;
mod path;
mod plain;
mod step;
#[cfg(test)]
mod tests;

pub use contents::{MAX_FILE, MAX_READ};
pub use kind::Kind;
pub use names::Names;
pub use path::{MAX_NAMES, Path, copy_path};
pub use plain::{Plain, bare_laws, change_laws, children_laws, size_laws, step_laws};
pub use step::{Answer, Refusal, Step, Steps};
