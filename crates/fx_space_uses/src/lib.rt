//! What the allocator's table calls the uses of blocks, and that each of its calls is an event on these uses. There is
//! nothing to run here: the definition, and its laws as clauses of functions that do nothing.
#![tactic(auto)]

mod laws;

pub use laws::{
    table_at_mount, table_over_checkpoint, table_over_numbers, table_over_settling, table_tells,
};
