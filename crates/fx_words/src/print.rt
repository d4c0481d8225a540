//! Lines of all words, printed.
ghost use Rattle.std.specs.Prelude.{◌≡◌, ◌∷◌, ◌++◌, Ok, IfOk, OnOk, string_bytes};
ghost use Rattle.fx_script.specs.Escape.{escaped};
ghost use Rattle.fx_script.specs.Print.{spaced};
ghost use Rattle.fx_words.specs.Lines.{all_built, full_line_of};
ghost use Rattle.fx_words.specs.FullText.{FullLineKeepsRules, full_line_text, full_step_words, group_words};

use crate::line::FullLine;
use fx_item::{Bytes, Name};
use fx_script::{push_escaped, push_path, push_step};
use fx_steps::TreeStep;
use std::alloc::{AllocError, Global};

/// Appends a space and the name of an attribute.
fn push_name(out: &mut String, name: &Name) -> Result<(), AllocError>
    ensures { OnOk result (string_bytes out.new ≡ string_bytes out.old ++ 32 ∷ escaped name.now) }
{
    out.push(' ')?;
    push_escaped(out, name.as_slice())
}

/// Appends a step.
fn push_full_step(out: &mut String, step: &TreeStep) -> Result<(), AllocError>
    ensures { OnOk result
        (string_bytes out.new ≡ string_bytes out.old ++ spaced (full_step_words step.now)) }
{
    match step {
        TreeStep::Basic(step) => push_step(out, step),
        TreeStep::Truncate { path, size } => {
            out.push_str("trunc ")?;
            push_path(out, path)?;
            write!(out, " {size}")
        }
        TreeStep::Remove { path } => {
            out.push_str("rm ")?;
            push_path(out, path)
        }
        TreeStep::Rename { from, to } => {
            out.push_str("mv ")?;
            push_path(out, from)?;
            out.push(' ')?;
            push_path(out, to)
        }
        TreeStep::SetAttr { path, name, value } => {
            out.push_str("setattr ")?;
            push_path(out, path)?;
            push_name(out, name)?;
            out.push(' ')?;
            push_escaped(out, value.as_slice())
        }
        TreeStep::DelAttr { path, name } => {
            out.push_str("delattr ")?;
            push_path(out, path)?;
            push_name(out, name)
        }
        TreeStep::GetAttr { path, name } => {
            out.push_str("attr ")?;
            push_path(out, path)?;
            push_name(out, name)
        }
    }
}

/// Appends the steps of a group.
fn push_group(out: &mut String, steps: &[TreeStep]) -> Result<(), AllocError>
    ensures { OnOk result
        (string_bytes out.new ≡ string_bytes out.old ++ spaced (group_words steps.now)) }
{
    let Some((first, rest)) = steps.split_first() else {
        return Ok(());
    };
    push_full_step(out, first)?;
    for step in rest {
        out.push_str(" ; ")?;
        push_full_step(out, step)?;
    }
    Ok(())
}

/// The bytes of a line, with no line feed: its words with one space between them, and in names and
/// texts each byte escaped but letters and digits of ASCII and `.`, `-`, `_` and `~`. A line that
/// keeps the rules is read again from them. Costs the bytes of the line.
pub fn print_full_line(alloc: Global, line: &FullLine) -> Result<Bytes, AllocError>
    ensures text { IfOk result (λ bytes. bytes ≡ full_line_text line.now) }
    ensures reads { IfOk result
        (λ bytes. FullLineKeepsRules line.now → full_line_of all_built bytes ≡ Ok line.now) }
{
    let mut text = String::new(alloc);
    match line {
        FullLine::Single(step) => push_full_step(&mut text, step)?,
        FullLine::Group(steps) => push_group(&mut text, steps.as_slice())?,
        FullLine::Sync => text.push_str("sync")?,
        FullLine::Compact => text.push_str("compact")?,
    }
    Ok(Bytes::new(text.into_bytes()))
}
