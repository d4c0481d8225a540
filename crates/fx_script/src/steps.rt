//! The steps that a line may say.
ghost use Rattle.std.specs.Prelude.{◌≡◌, IfOk};
ghost use Rattle.fx_script.specs.Line.{step_of, write_step, read_step, only_word, only_path, three_words, seen_word, seen_words};
ghost use Rattle.fx_script.specs.Checked.{path_said, step_in, step_said};

use crate::fault::LineFault;
use crate::pieces::Pieces;
use crate::word::{check_path, check_text, copy_path, copy_text, read_number};
use fx_plain::Step;
use std::alloc::{AllocError, Global};

/// The words of a step, each checked. It borrows the bytes of the line.
#[derive(Drop)]
pub enum StepWords<'a> {
    Mkdir {
        path: &'a [u8],
    },
    Create {
        path: &'a [u8],
    },
    Write {
        path: &'a [u8],
        at: u32,
        text: &'a [u8],
    },
    Read {
        path: &'a [u8],
        at: u32,
        count: u32,
    },
    List {
        path: &'a [u8],
    },
    Stat {
        path: &'a [u8],
    },
}

/// The one word that is left.
fn only_word<'a>(mut words: Pieces<'a>) -> Result<&'a [u8], LineFault>
    ensures { seen_word result ≡ only_word words.entry }
{
    match (words.next(), words.next()) {
        (Some(word), None) => Ok(word),
        _ => Err(LineFault::WordCount),
    }
}

/// The three words that are left.
fn three_words<'a>(mut words: Pieces<'a>) -> Result<(&'a [u8], &'a [u8], &'a [u8]), LineFault>
    ensures { seen_words result ≡ three_words words.entry }
{
    match (words.next(), words.next(), words.next(), words.next()) {
        (Some(first), Some(second), Some(third), None) => Ok((first, second, third)),
        _ => Err(LineFault::WordCount),
    }
}

/// The one word that is left, which is a path.
fn only_path<'a>(words: Pieces<'a>) -> Result<&'a [u8], LineFault>
    ensures { path_said result ≡ only_path words.entry }
{
    let path = only_word(words)?;
    check_path(path)?;
    Ok(path)
}

/// The words after `write`.
fn check_write<'a>(words: Pieces<'a>) -> Result<StepWords<'a>, LineFault>
    ensures { step_said result ≡ write_step words.entry }
{
    let (path, at, text) = three_words(words)?;
    check_path(path)?;
    let at = read_number(at)?;
    check_text(text)?;
    Ok(StepWords::Write { path, at, text })
}

/// The words after `read`.
fn check_read<'a>(words: Pieces<'a>) -> Result<StepWords<'a>, LineFault>
    ensures { step_said result ≡ read_step words.entry }
{
    let (path, at, count) = three_words(words)?;
    check_path(path)?;
    let at = read_number(at)?;
    let count = read_number(count)?;
    Ok(StepWords::Read { path, at, count })
}

/// The words of a step, the first of which names it. Fails with their first fault, and takes no
/// memory. Costs the bytes of the words.
pub fn check_step<'a>(mut words: Pieces<'a>) -> Result<StepWords<'a>, LineFault>
    ensures { step_said result ≡ step_of words.entry }
{
    let Some(word) = words.next() else {
        return Err(LineFault::UnknownWord);
    };
    if word == b"mkdir".as_slice() {
        let path = only_path(words)?;
        return Ok(StepWords::Mkdir { path });
    }
    if word == b"create".as_slice() {
        let path = only_path(words)?;
        return Ok(StepWords::Create { path });
    }
    if word == b"write".as_slice() {
        return check_write(words);
    }
    if word == b"read".as_slice() {
        return check_read(words);
    }
    if word == b"list".as_slice() {
        let path = only_path(words)?;
        return Ok(StepWords::List { path });
    }
    if word == b"stat".as_slice() {
        let path = only_path(words)?;
        return Ok(StepWords::Stat { path });
    }
    Err(LineFault::UnknownWord)
}

/// The step that the words say, with names and a text of its own. Costs the bytes of the words.
pub fn copy_step(alloc: Global, words: &StepWords<'_>) -> Result<Step, AllocError>
    ensures { IfOk result (λ step. step ≡ step_in words.now) }
{
    match words {
        StepWords::Mkdir { path } => {
            let path = copy_path(alloc, path)?;
            Ok(Step::Mkdir { path })
        }
        StepWords::Create { path } => {
            let path = copy_path(alloc, path)?;
            Ok(Step::Create { path })
        }
        StepWords::Write { path, at, text } => {
            let path = copy_path(alloc, path)?;
            let text = copy_text(alloc, text)?;
            Ok(Step::Write {
                path,
                at: *at,
                text,
            })
        }
        StepWords::Read { path, at, count } => {
            let path = copy_path(alloc, path)?;
            Ok(Step::Read {
                path,
                at: *at,
                count: *count,
            })
        }
        StepWords::List { path } => {
            let path = copy_path(alloc, path)?;
            Ok(Step::List { path })
        }
        StepWords::Stat { path } => {
            let path = copy_path(alloc, path)?;
            Ok(Step::Stat { path })
        }
    }
}
