//! Which transactions an image keeps, and what its blocks hold. There is nothing to run here: the definitions, and their
//! laws as clauses of functions that do nothing.
#![tactic(auto)]

mod laws;
mod layers;

pub use laws::{
    folded_records, kept_by_items, kept_in_images, kept_number, kept_of_images, kept_past_failures,
    live_blocks, mounts, names_alone, stretches,
};
pub use layers::layers_in_images;
