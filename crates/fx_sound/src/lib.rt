//! When an image is sound, and what is wrong with it first.
//!
//! Definitions and their laws, for those who prove: the functions do nothing.
#![tactic(auto)]

mod image;
mod laws;

pub use image::{ImageFault, ImageNumbers};
pub use laws::fault_laws;
