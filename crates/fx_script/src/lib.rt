//! The script: its lines, read from bytes and printed.
#![tactic(auto)]

mod escape;
mod fault;
mod line;
mod pieces;
mod print;
mod sayable;
mod script;
mod sent;
mod steps;
mod word;

pub use escape::push_escaped;
pub use fault::{LineFault, ScriptFault};
pub use line::{Line, has_semicolon, is_ascii, read_line};
pub use pieces::Pieces;
pub use print::{print_line, push_path, push_step};
pub use sayable::{is_path, is_text, step_keeps_rules};
pub use script::{SentLines, Task, Tasks, read_script};
pub use sent::{MAX_CLIENT, MAX_LINES, SentLine, read_client};
pub use steps::{StepWords, check_step, copy_step};
pub use word::{check_path, copy_name, copy_path, copy_text, read_number, stands_for_name};

#[cfg(test)]
mod tests;
