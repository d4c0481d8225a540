//! Directories over items: walks along paths, and the names of a directory's children.
#![tactic(auto)]

mod children;
mod walk;

pub use children::{name_after, names, next_child};
pub use walk::{ROOT, Walk, WalkEnd, kind_of, walk_path};

#[cfg(test)]
mod sample;
#[cfg(test)]
mod tests;
