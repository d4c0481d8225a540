//! The grammar of lines of all words: steps of every kind, groups, `sync` and `compact`.
#![tactic(auto)]

mod built;
mod check;
mod fault;
mod laws;
mod line;
mod parts;
mod print;
mod script;
mod steps;
#[cfg(test)]
mod tests;
mod worked;

pub use built::Built;
pub use check::{FullWords, GroupWords, check_full_line, read_full_line};
pub use fault::WordFault;
pub use laws::{rule_laws, word_laws};
pub use line::{FullLine, MAX_STEPS, MAX_VALUE};
pub use print::print_full_line;
pub use script::{BadFullLine, FullTask, FullTasks, SentFullLine, SentFullLines, read_full_script};
pub use steps::FullStepWords;
pub use worked::{
    attribute_lines, group_lines, lone_lines, removal_lines, setattr_lines, truncation_lines,
    unbuilt_lines,
};
