//! What one step does to items over any look: its plan, and the keys that the plan rests on.
#![tactic(auto)]

mod answering;
mod items;
mod laws;
mod planning;
mod walking;

pub use answering::{answer_attr, answer_list};
pub use laws::{line_plan_laws, plan_laws, text_plan_laws};
pub use planning::{
    StepPlanned, plan_create, plan_del_attr, plan_mkdir, plan_remove, plan_set_attr,
};

#[cfg(test)]
mod tests;
