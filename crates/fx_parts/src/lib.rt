//! The state that many numbers share, as plain data: the events on it, what is so after any of
//! them, and what a commit rests on. Definitions and their laws.
#![tactic(auto)]

mod laws;

pub use laws::{
    commit_laws, event_laws, example_law, key_laws, line_end_laws, plan_laws, run_laws,
};
