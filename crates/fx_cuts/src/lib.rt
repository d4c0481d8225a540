//! Which cuts of the transactions of a mounted disk an image shows, and that at every moment each image that a stop leaves
//! stands for the tree after a prefix of the history. There is nothing to run here: the definitions, and their laws as
//! clauses of functions that do nothing.
#![tactic(auto)]

mod cuts;
mod mounting;
mod stops;

pub use cuts::{
    ImageReader, cuts_by_layers, cuts_in_images, live_by_allocations, mounted_state, shown_cuts,
};
pub use mounting::while_dropping;
pub use stops::{joined_begins, joined_over_calls, joined_over_checkpoint, joined_without_call};
