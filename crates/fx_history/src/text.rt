//! The result lines, as they are printed.
ghost use Rattle.std.specs.Prelude.{◌≡◌, ◌++◌, ℕ, List, length, IfOk, OnOk};
ghost use Rattle.std.specs.String.{string_bytes};
ghost use Rattle.fx_history.specs.Outcome.{LineEnd};
ghost use Rattle.fx_history.specs.Told.{LineIsWhole, TellSame, told};
ghost use Rattle.fx_history.specs.Transcript.{IsAnswered};
ghost use Rattle.fx_history.specs.declared.entry.Entry.{Entry};
ghost use Rattle.fx_history.specs.declared.outcome.EndKind.TheVariants.{Seen};
ghost use Rattle.fx_plain.specs.Tree.{Tree};
ghost use Rattle.fx_plain.specs.declared.step.Answer.{Answer};
ghost use Rattle.fx_script.specs.declared.script.Task.{Task};
ghost use Rattle.fx_history.specs.Text.{read_text, spaced_names, list_text, stat_text, seen_text, end_text, result_line, result_text};

use crate::outcome::{EndKind, Outcome};
use fx_item::Name;
use fx_plain::{Answer, Kind};
use fx_script::{SentLine, Tasks, push_escaped};
use std::alloc::{AllocError, Global};

/// Bytes that were read, behind the text.
fn push_read(text: &mut String, at: u64, bytes: &[u8]) -> Result<(), AllocError>
    ensures { OnOk result
        (string_bytes text.new ≡ string_bytes text.old ++ read_text at bytes.now) }
{
    let count = bytes.len();
    write!(text, "read {at} {count}")?;
    if bytes.is_empty() {
        return Ok(());
    }
    text.push_str(" ")?;
    push_escaped(text, bytes)
}

/// A space and each name, behind the text.
fn push_names(text: &mut String, names: &[Name]) -> Result<(), AllocError>
    ensures { OnOk result
        (string_bytes text.new ≡ string_bytes text.old ++ spaced_names names.now) }
{
    for name in names {
        text.push_str(" ")?;
        push_escaped(text, name.as_slice())?;
    }
    Ok(())
}

/// The names in a directory, behind the text.
fn push_list(text: &mut String, at: u64, names: &[Name]) -> Result<(), AllocError>
    ensures { OnOk result
        (string_bytes text.new ≡ string_bytes text.old ++ list_text at names.now) }
{
    let count = names.len();
    write!(text, "list {at} {count}")?;
    push_names(text, names)
}

/// What lies at a path, behind the text.
fn push_stat(
    text: &mut String,
    at: u64,
    kind: Kind,
    size: u32,
    blocks: u32,
) -> Result<(), AllocError>
    ensures { OnOk result
        (string_bytes text.new ≡ string_bytes text.old ++ stat_text at kind size blocks) }
{
    match kind {
        Kind::Dir => write!(text, "stat {at} dir {size} 0"),
        Kind::File => write!(text, "stat {at} file {size} {blocks}"),
    }
}

/// What was seen of the tree, behind the text.
fn push_seen(text: &mut String, at: u64, answer: &Answer) -> Result<(), AllocError>
    ensures { OnOk result
        (string_bytes text.new ≡ string_bytes text.old ++ seen_text at answer.now) }
{
    match answer {
        Answer::Done => write!(text, "ok {at}"),
        Answer::Text(bytes) => push_read(text, at, bytes.as_slice()),
        Answer::Names(names) => push_list(text, at, names.as_slice()),
        Answer::Stat { kind, size, blocks } => push_stat(text, at, *kind, *size, *blocks),
    }
}

/// How a line ended, behind the text.
fn push_end(text: &mut String, outcome: &Outcome) -> Result<(), AllocError>
    ensures { OnOk result
        (string_bytes text.new ≡
        string_bytes text.old ++ end_text outcome.now.at outcome.now.kind) }
{
    let at = outcome.at();
    match outcome.kind() {
        EndKind::Committed => write!(text, "ok {at}"),
        EndKind::Seen(answer) => push_seen(text, at, answer),
        EndKind::Refused(index, refusal) => {
            let word = refusal.word();
            write!(text, "err {at} {index} {word}")
        }
        EndKind::Full(_) => write!(text, "err {at} 0 full"),
        EndKind::Synced(calls) => write!(text, "synced {at} {calls}"),
        EndKind::DeviceFault(_) => write!(text, "err {at} 0 device"),
        EndKind::OutOfMemory => write!(text, "err {at} 0 memory"),
    }
}

/// A result line, behind the text.
fn push_line(text: &mut String, line: &SentLine<'_>, outcome: &Outcome) -> Result<(), AllocError>
    ensures { OnOk result
        (string_bytes text.new ≡ string_bytes text.old ++ result_line line.now outcome.now) }
{
    let client = line.client();
    let number = line.number();
    write!(text, "{client} {number} ")?;
    push_end(text, outcome)?;
    text.push_str("\n")
}

/// The result lines, one for each line of a script, each with its line feed. Costs their length,
/// and the bytes of the script.
pub fn result_text(alloc: Global, tasks: &Tasks, outcomes: &[Outcome]) -> Result<String, AllocError>
    requires { length outcomes.now ≡ length tasks.now }
    ensures { IfOk result (λ text. string_bytes text ≡ result_text tasks.now outcomes.now) }
{
    let mut text = String::new(alloc);
    let mut i = 0;
    for line in tasks.lines() {
        push_line(&mut text, &line, &outcomes[i])?;
        i += 1;
    }
    Ok(text)
}

/// What a result line tells: two lines with one text are of one client, with one number, and ended
/// at one commit, as far as a line tells it, in the same way; and such lines have one text. Of an
/// answer that is right a line leaves nothing out.
pub fn line_laws()
    ensures read { (task other : Task) (first second : LineEnd)
        → LineIsWhole task first → LineIsWhole other second
        → result_line task first ≡ result_line other second
        → TellSame task other first second }
    ensures printed { (task other : Task) (first second : LineEnd)
        → TellSame task other first second
        → result_line task first ≡ result_line other second }
    ensures answered { (tree : Tree) (history : List Entry) (task : Task) (at : ℕ)
        (answer : Answer) → IsAnswered tree history task at (Seen answer)
        → told (Seen answer) ≡ Seen answer }
{}
