//! What each block of a disk is used for, beside the transactions that write and free blocks, and what each event makes
//! of it. There is nothing to run here: the definitions, and their laws as clauses of functions that do nothing.
#![tactic(auto)]

mod laws;
mod layers;

pub use laws::{
    cells_over_checkpoint, cells_over_events, parts_over_checkpoint, parts_over_events,
    reads_in_use, uses_over_checkpoint, uses_over_events, worked_block,
};
pub use layers::{LayerMeaning, layers_of_checkpoint, layers_of_pins, layers_over_events};
