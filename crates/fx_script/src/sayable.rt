//! Lines and tasks that a script can say.
ghost use Rattle.std.specs.Prelude.{◌≡◌, ◌↔◌, ◌≤◌, IsTrue};
ghost use Rattle.std.specs.List.{list_all};
ghost use Rattle.fx_item.specs.Name.{is_name};
ghost use Rattle.fx_script.specs.Print.{IsPath, IsText, LineKeepsRules, StepKeepsRules};
ghost use Rattle.fx_script.specs.Word.{max_number};
ghost use Rattle.fx_script.specs.Sent.{TaskKeepsRules};

use crate::line::Line;
use crate::script::Task;
use crate::sent::MAX_CLIENT;
use fx_item::{Name, is_name};
use fx_plain::{MAX_NAMES, Step};

/// Whether each of these may name a node.
fn are_names(names: &[Name]) -> bool
    ensures { result ≡ list_all is_name names.now }
{
    names.iter().all(|name| is_name(name.as_slice()))
}

/// Whether a script can say the path: it has at most 64 names, of which each may name a node. Costs
/// its bytes.
pub fn is_path(path: &[Name]) -> bool
    ensures { IsTrue result ↔ IsPath path.now }
{
    if path.len() > MAX_NAMES {
        return false;
    }
    are_names(path)
}

/// Whether a script can say the text: it has a byte.
pub fn is_text(text: &[u8]) -> bool
    ensures { IsTrue result ↔ IsText text.now }
{
    if text.is_empty() {
        return false;
    }
    true
}

/// Whether a script can say a write of the text at the path; each `u32` is a number of a script.
fn is_write(path: &[Name], at: u32, text: &[u8]) -> bool
    ensures { IsTrue result ↔ (IsPath path.now × (at ≤ max_number) × IsText text.now) }
{
    if !is_path(path) {
        return false;
    }
    is_text(text)
}

/// Whether a script can say a read at the path.
fn is_read(path: &[Name], at: u32, count: u32) -> bool
    ensures { IsTrue result ↔ (IsPath path.now × (at ≤ max_number) × (count ≤ max_number)) }
{
    is_path(path)
}

/// Whether a script can say the step. Costs its bytes.
pub fn step_keeps_rules(step: &Step) -> bool
    ensures { IsTrue result ↔ StepKeepsRules step.now }
{
    match step {
        Step::Mkdir { path } => is_path(path.as_slice()),
        Step::Create { path } => is_path(path.as_slice()),
        Step::Write { path, at, text } => is_write(path.as_slice(), *at, text.as_slice()),
        Step::Read { path, at, count } => is_read(path.as_slice(), *at, *count),
        Step::List { path } => is_path(path.as_slice()),
        Step::Stat { path } => is_path(path.as_slice()),
    }
}

impl Line {
    /// Whether a script can say the line: each path has at most 64 names, of which each may name a
    /// node, and each text has a byte. Costs the bytes of the line.
    pub fn keeps_rules(&self) -> bool
        ensures { IsTrue result ↔ LineKeepsRules self.now }
    {
        match self {
            Line::Single(step) => step_keeps_rules(step),
            Line::Sync => true,
        }
    }
}

impl Task {
    /// Whether a script can say the task: its line keeps the rules, and its client is 1 to 16. A
    /// task
    /// that was made by hand can be run where it does. Costs the bytes of the line.
    pub fn keeps_rules(&self) -> bool
        ensures { IsTrue result ↔ TaskKeepsRules self.now }
    {
        if self.client == 0 || MAX_CLIENT < self.client {
            return false;
        }
        self.line.keeps_rules()
    }
}
