//! Which blocks of the device are live: by the extents of files, and by what transactions take and
//! free. What a line does to them.
//!
//! Definitions and their laws, for those who prove: the functions do nothing.
#![tactic(auto)]

mod laws;

pub use laws::{item_laws, line_laws, live_laws, moving_laws};
