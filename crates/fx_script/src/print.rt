//! Lines, printed.
ghost use Rattle.std.specs.Prelude.{◌≡◌, ◌++◌, Ok, IfOk, OnOk, string_bytes};
ghost use Rattle.fx_script.specs.Line.{line_of};
ghost use Rattle.fx_script.specs.Print.{names_text, path_text, step_words, line_text, spaced, LineKeepsRules};

use crate::escape::push_escaped;
use crate::line::Line;
use fx_item::Bytes;
use fx_plain::{Path, Step};
use std::alloc::{AllocError, Global};

/// Appends a path. Costs its bytes.
pub fn push_path(text: &mut String, path: &Path) -> Result<(), AllocError>
    ensures { OnOk result (string_bytes text.new ≡ string_bytes text.old ++ path_text path.now) }
{
    let names = path.as_slice();
    if names.is_empty() {
        return text.push('/');
    }
    for name in names {
        text.push('/')?;
        push_escaped(text, name.as_slice())?;
    }
    Ok(())
}

/// Appends a step, its words with one space between them. Costs its bytes.
pub fn push_step(out: &mut String, step: &Step) -> Result<(), AllocError>
    ensures { OnOk result
        (string_bytes out.new ≡ string_bytes out.old ++ spaced (step_words step.now)) }
{
    match step {
        Step::Mkdir { path } => {
            out.push_str("mkdir ")?;
            push_path(out, path)
        }
        Step::Create { path } => {
            out.push_str("create ")?;
            push_path(out, path)
        }
        Step::Write { path, at, text } => {
            out.push_str("write ")?;
            push_path(out, path)?;
            write!(out, " {at} ")?;
            push_escaped(out, text.as_slice())
        }
        Step::Read { path, at, count } => {
            out.push_str("read ")?;
            push_path(out, path)?;
            write!(out, " {at} {count}")
        }
        Step::List { path } => {
            out.push_str("list ")?;
            push_path(out, path)
        }
        Step::Stat { path } => {
            out.push_str("stat ")?;
            push_path(out, path)
        }
    }
}

/// The bytes of a line, with no line feed: its words with one space between them. A line that keeps
/// the rules is read again from them. Costs the bytes of the line.
pub fn print_line(alloc: Global, line: &Line) -> Result<Bytes, AllocError>
    ensures text { IfOk result (λ bytes. bytes ≡ line_text line.now) }
    ensures reads { IfOk result (λ bytes. LineKeepsRules line.now → line_of bytes ≡ Ok line.now) }
{
    let mut text = String::new(alloc);
    match line {
        Line::Single(step) => push_step(&mut text, step)?,
        Line::Sync => text.push_str("sync")?,
    }
    Ok(Bytes::new(text.into_bytes()))
}
