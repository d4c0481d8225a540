//! All steps that a script may ask of the plain tree: what each answers, and the tree after it.
#![tactic(auto)]

mod laws;
mod refusal;
mod step;

pub use laws::{change_laws, leave_laws, line_laws, size_laws, tree_laws};
pub use refusal::StepRefusal;
pub use step::{TreeStep, TreeSteps};
