//! The steps that a line may say, of all kinds.
ghost use Rattle.std.specs.Prelude.{◌≡◌, IfOk, length};
ghost use Rattle.percent_encoding.specs.Percent as percent;
ghost use Rattle.fx_script.specs.Line.{step_of};
ghost use Rattle.fx_script.specs.Checked.{path_in};
ghost use Rattle.fx_words.specs.Lines.{as_basic, attr_of, delattr_of, full_step_of, group_step_of, if_built, is_alone, mv_of, name_word, number_word, one_word, path_word, rm_of, setattr_of, trunc_of, two_words, value_word, words_of_three};
ghost use Rattle.fx_words.specs.Said.{full_step_in, full_step_said, seen_one, seen_three, seen_two, word_checked};

use crate::built::Built;
use crate::fault::WordFault;
use crate::line::MAX_VALUE;
use fx_script::{
    LineFault, Pieces, StepWords, check_path, check_step, copy_name, copy_path, copy_step,
    copy_text, read_number, stands_for_name,
};
use fx_steps::TreeStep;
use percent_encoding::percent_decode;
use std::alloc::{AllocError, Global};

/// The words of a step, each checked. It borrows the bytes of the line.
#[derive(Drop)]
pub enum FullStepWords<'a> {
    Basic(StepWords<'a>),
    Truncate {
        path: &'a [u8],
        size: u32,
    },
    Remove {
        path: &'a [u8],
    },
    Rename {
        from: &'a [u8],
        to: &'a [u8],
    },
    SetAttr {
        path: &'a [u8],
        name: &'a [u8],
        value: &'a [u8],
    },
    DelAttr {
        path: &'a [u8],
        name: &'a [u8],
    },
    GetAttr {
        path: &'a [u8],
        name: &'a [u8],
    },
}

/// Whether the word is a path.
fn check_path_word(word: &[u8]) -> Result<(), WordFault>
    ensures { word_checked result (path_in word.now) ≡ path_word word.now }
{
    match check_path(word) {
        Ok(()) => Ok(()),
        Err(fault) => Err(WordFault::Basic(fault)),
    }
}

/// The number that the word is.
fn read_number_word(word: &[u8]) -> Result<u32, WordFault>
    ensures { result ≡ number_word word.now }
{
    match read_number(word) {
        Ok(number) => Ok(number),
        Err(fault) => Err(WordFault::Basic(fault)),
    }
}

/// Whether the word stands for the name of an attribute.
fn check_name_word(word: &[u8]) -> Result<(), WordFault>
    ensures { word_checked result (percent.percent_decode word.now) ≡ name_word word.now }
{
    if !stands_for_name(word) {
        return Err(WordFault::BadName);
    }
    Ok(())
}

/// Whether the word stands for the text of an attribute.
fn check_value_word(word: &[u8]) -> Result<(), WordFault>
    ensures { word_checked result (percent.percent_decode word.now) ≡ value_word word.now }
{
    let mut count = 0;
    for _ in percent_decode(word) {
        if count == MAX_VALUE {
            return Err(WordFault::Basic(LineFault::BadText));
        }
        count += 1;
    }
    if count == 0 {
        return Err(WordFault::Basic(LineFault::BadText));
    }
    Ok(())
}

/// The one word that is left.
fn one_word<'a>(mut words: Pieces<'a>) -> Result<&'a [u8], WordFault>
    ensures { seen_one result ≡ one_word words.entry }
{
    match (words.next(), words.next()) {
        (Some(word), None) => Ok(word),
        _ => Err(WordFault::Basic(LineFault::WordCount)),
    }
}

/// The two words that are left.
fn two_words<'a>(mut words: Pieces<'a>) -> Result<(&'a [u8], &'a [u8]), WordFault>
    ensures { seen_two result ≡ two_words words.entry }
{
    match (words.next(), words.next(), words.next()) {
        (Some(first), Some(second), None) => Ok((first, second)),
        _ => Err(WordFault::Basic(LineFault::WordCount)),
    }
}

/// The three words that are left.
fn three_words<'a>(mut words: Pieces<'a>) -> Result<(&'a [u8], &'a [u8], &'a [u8]), WordFault>
    ensures { seen_three result ≡ words_of_three words.entry }
{
    match (words.next(), words.next(), words.next(), words.next()) {
        (Some(first), Some(second), Some(third), None) => Ok((first, second, third)),
        _ => Err(WordFault::Basic(LineFault::WordCount)),
    }
}

/// The words after `trunc`, where it is built.
fn check_trunc<'a>(built: bool, words: Pieces<'a>) -> Result<FullStepWords<'a>, WordFault>
    ensures { full_step_said result ≡ if_built built (trunc_of words.entry) }
{
    if !built {
        return Err(WordFault::Basic(LineFault::UnknownWord));
    }
    let (path, size) = two_words(words)?;
    check_path_word(path)?;
    let size = read_number_word(size)?;
    Ok(FullStepWords::Truncate { path, size })
}

/// The words after `rm`, where it is built.
fn check_rm<'a>(built: bool, words: Pieces<'a>) -> Result<FullStepWords<'a>, WordFault>
    ensures { full_step_said result ≡ if_built built (rm_of words.entry) }
{
    if !built {
        return Err(WordFault::Basic(LineFault::UnknownWord));
    }
    let path = one_word(words)?;
    check_path_word(path)?;
    Ok(FullStepWords::Remove { path })
}

/// The words after `mv`, where it is built.
fn check_mv<'a>(built: bool, words: Pieces<'a>) -> Result<FullStepWords<'a>, WordFault>
    ensures { full_step_said result ≡ if_built built (mv_of words.entry) }
{
    if !built {
        return Err(WordFault::Basic(LineFault::UnknownWord));
    }
    let (from, to) = two_words(words)?;
    check_path_word(from)?;
    check_path_word(to)?;
    Ok(FullStepWords::Rename { from, to })
}

/// The words after `setattr`, where it is built.
fn check_setattr<'a>(built: bool, words: Pieces<'a>) -> Result<FullStepWords<'a>, WordFault>
    ensures { full_step_said result ≡ if_built built (setattr_of words.entry) }
{
    if !built {
        return Err(WordFault::Basic(LineFault::UnknownWord));
    }
    let (path, name, value) = three_words(words)?;
    check_path_word(path)?;
    check_name_word(name)?;
    check_value_word(value)?;
    Ok(FullStepWords::SetAttr { path, name, value })
}

/// The words after `delattr`, where it is built.
fn check_delattr<'a>(built: bool, words: Pieces<'a>) -> Result<FullStepWords<'a>, WordFault>
    ensures { full_step_said result ≡ if_built built (delattr_of words.entry) }
{
    if !built {
        return Err(WordFault::Basic(LineFault::UnknownWord));
    }
    let (path, name) = two_words(words)?;
    check_path_word(path)?;
    check_name_word(name)?;
    Ok(FullStepWords::DelAttr { path, name })
}

/// The words after `attr`, where it is built.
fn check_attr<'a>(built: bool, words: Pieces<'a>) -> Result<FullStepWords<'a>, WordFault>
    ensures { full_step_said result ≡ if_built built (attr_of words.entry) }
{
    if !built {
        return Err(WordFault::Basic(LineFault::UnknownWord));
    }
    let (path, name) = two_words(words)?;
    check_path_word(path)?;
    check_name_word(name)?;
    Ok(FullStepWords::GetAttr { path, name })
}

/// The words of one of the first steps.
fn check_basic<'a>(words: Pieces<'a>) -> Result<FullStepWords<'a>, WordFault>
    ensures { full_step_said result ≡ as_basic (step_of words.entry) }
{
    match check_step(words) {
        Ok(step) => Ok(FullStepWords::Basic(step)),
        Err(fault) => Err(WordFault::Basic(fault)),
    }
}

/// The words of a step, the first of which names it.
pub(crate) fn check_full_step<'a>(
    built: Built,
    words: Pieces<'a>,
) -> Result<FullStepWords<'a>, WordFault>
    ensures { full_step_said result ≡ full_step_of built words.entry }
{
    let mut rest = words.again();
    let Some(word) = rest.next() else {
        return Err(WordFault::Basic(LineFault::UnknownWord));
    };
    if word == b"trunc".as_slice() {
        return check_trunc(built.truncation, rest);
    }
    if word == b"rm".as_slice() {
        return check_rm(built.removal, rest);
    }
    if word == b"mv".as_slice() {
        return check_mv(built.removal, rest);
    }
    if word == b"setattr".as_slice() {
        return check_setattr(built.removal, rest);
    }
    if word == b"delattr".as_slice() {
        return check_delattr(built.removal, rest);
    }
    if word == b"attr".as_slice() {
        return check_attr(built.removal, rest);
    }
    check_basic(words)
}

/// Whether the word begins a line that cannot be part of a group.
fn is_alone(built: Built, word: &[u8]) -> bool
    ensures { result ≡ is_alone built word.now }
{
    word == b"sync".as_slice()
        || word == b"read".as_slice()
        || word == b"list".as_slice()
        || word == b"stat".as_slice()
        || built.compaction && word == b"compact".as_slice()
        || built.removal && word == b"attr".as_slice()
}

/// The words of one part of a group.
pub(crate) fn check_group_step<'a>(
    built: Built,
    words: Pieces<'a>,
) -> Result<FullStepWords<'a>, WordFault>
    ensures { full_step_said result ≡ group_step_of built words.entry }
{
    let mut rest = words.again();
    let Some(word) = rest.next() else {
        return Err(WordFault::Basic(LineFault::UnknownWord));
    };
    if is_alone(built, word) {
        return Err(WordFault::GroupedLine);
    }
    check_full_step(built, words)
}

/// The step that the words say, with names and texts of its own.
pub(crate) fn copy_full_step(
    alloc: Global,
    words: &FullStepWords<'_>,
) -> Result<TreeStep, AllocError>
    ensures { IfOk result (λ step. step ≡ full_step_in words.now) }
{
    match words {
        FullStepWords::Basic(step) => {
            let step = copy_step(alloc, step)?;
            Ok(TreeStep::Basic(step))
        }
        FullStepWords::Truncate { path, size } => {
            let path = copy_path(alloc, path)?;
            Ok(TreeStep::Truncate { path, size: *size })
        }
        FullStepWords::Remove { path } => {
            let path = copy_path(alloc, path)?;
            Ok(TreeStep::Remove { path })
        }
        FullStepWords::Rename { from, to } => {
            let from = copy_path(alloc, from)?;
            let to = copy_path(alloc, to)?;
            Ok(TreeStep::Rename { from, to })
        }
        FullStepWords::SetAttr { path, name, value } => {
            let path = copy_path(alloc, path)?;
            let name = copy_name(alloc, name)?;
            let value = copy_text(alloc, value)?;
            Ok(TreeStep::SetAttr { path, name, value })
        }
        FullStepWords::DelAttr { path, name } => {
            let path = copy_path(alloc, path)?;
            let name = copy_name(alloc, name)?;
            Ok(TreeStep::DelAttr { path, name })
        }
        FullStepWords::GetAttr { path, name } => {
            let path = copy_path(alloc, path)?;
            let name = copy_name(alloc, name)?;
            Ok(TreeStep::GetAttr { path, name })
        }
    }
}
