//! What a line says.

use fx_steps::{TreeStep, TreeSteps};

/// The most steps of a group.
pub const MAX_STEPS: usize = 64;

/// The most bytes of an attribute's text.
pub const MAX_VALUE: usize = 256;

/// What a line of any words says.
#[derive(Debug, Drop)]
pub enum FullLine {
    /// One step.
    Single(TreeStep),
    /// Steps that are done together or not at all.
    Group(TreeSteps),
    /// All that was done before is made durable.
    Sync,
    /// All layers are merged.
    Compact,
}
