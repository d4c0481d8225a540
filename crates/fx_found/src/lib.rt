//! What an image with contents holds: all that a mount reads of it. Nothing is written.
#![tactic(auto)]

mod fault;
mod finding;
mod journal;
mod keeping;
mod laws;
mod layers;
mod levels;
mod numbers;
mod slots;
mod standing;

pub use fault::FindFault;
pub use finding::{Found, find};
pub use laws::{image_laws, kept_laws};

#[cfg(test)]
mod tests;
