//! What a line says.
ghost use Rattle.std.specs.Prelude.{◌≡◌, IfOk, IsOk};
ghost use Rattle.std.specs.List.{list_all};
ghost use Rattle.std.specs.Char.{is_ascii};
ghost use Rattle.fx_script.specs.Print.{LineKeepsRules};
ghost use Rattle.fx_script.specs.Line.{IsLine, has_semicolon, sync_of, single_of, line_of, line_of_words};
ghost use Rattle.fx_script.specs.Checked.{line_in, line_said};

use crate::fault::LineFault;
use crate::pieces::Pieces;
use crate::steps::{StepWords, check_step, copy_step};
use fx_plain::Step;
use std::alloc::{AllocError, Global};

/// What a line says.
#[derive(Debug, Drop)]
pub enum Line {
    /// One step.
    Single(Step),
    /// All that was done before is made durable.
    Sync,
}

/// The words of a line, each checked.
#[derive(Drop)]
pub(crate) enum LineWords<'a> {
    Single(StepWords<'a>),
    Sync,
}

/// Whether each byte is ASCII. Costs the bytes of the line.
pub fn is_ascii(line: &[u8]) -> bool
    ensures { result ≡ list_all is_ascii line.now }
{
    line.is_ascii()
}

/// Whether a word is the `;` that parts the steps of a group. Costs the bytes of the words.
pub fn has_semicolon(mut words: Pieces<'_>) -> bool
    ensures { result ≡ has_semicolon words.entry }
{
    words.may_have(b';') && words.any(|word| word == b";".as_slice())
}

/// The words after `sync`, of which there is none.
fn check_sync<'a>(mut words: Pieces<'a>) -> Result<LineWords<'a>, LineFault>
    ensures { line_said result ≡ sync_of words.entry }
{
    match words.next() {
        None => Ok(LineWords::Sync),
        Some(_) => Err(LineFault::WordCount),
    }
}

/// The words of a line that is no group.
fn check_single<'a>(words: Pieces<'a>) -> Result<LineWords<'a>, LineFault>
    ensures { line_said result ≡ single_of words.entry }
{
    let mut rest = words.again();
    let Some(word) = rest.next() else {
        return Err(LineFault::Empty);
    };
    if word == b"sync".as_slice() {
        return check_sync(rest);
    }
    let step = check_step(words)?;
    Ok(LineWords::Single(step))
}

/// The words of a line.
pub(crate) fn check_words<'a>(words: Pieces<'a>) -> Result<LineWords<'a>, LineFault>
    ensures { line_said result ≡ line_of_words words.entry }
{
    if words.is_blank() {
        return Err(LineFault::Empty);
    }
    if has_semicolon(words.again()) {
        return Err(LineFault::UnknownWord);
    }
    check_single(words)
}

/// What the words of a line say, with names and a text of its own. For `sync` no memory is taken.
pub(crate) fn copy_line(alloc: Global, words: &LineWords<'_>) -> Result<Line, AllocError>
    ensures line { IfOk result (λ line. line ≡ line_in words.now) }
    ensures sync { line_in words.now ≡ Line.Sync → IsOk result }
{
    match words {
        LineWords::Single(step) => {
            let step = copy_step(alloc, step)?;
            Ok(Line::Single(step))
        }
        LineWords::Sync => Ok(Line::Sync),
    }
}

/// What a line says, its line feed not among the bytes. Fails with the first fault, or where memory
/// runs out.
/// Costs the bytes of the line.
pub fn read_line(alloc: Global, bytes: &[u8]) -> Result<Line, LineFault>
    ensures line { IsLine result (line_of bytes.now) }
    ensures rules { IfOk result LineKeepsRules }
{
    if !is_ascii(bytes) {
        return Err(LineFault::NotAscii);
    }
    let words = check_words(Pieces::new(bytes, b' '))?;
    let line = copy_line(alloc, &words)?;
    Ok(line)
}
