//! What a line of all words says, read without a copy.
ghost use Rattle.std.specs.Prelude.{◌≡◌, IfOk, IsOk, length};
ghost use Rattle.fx_script.specs.Cut.{words_of};
ghost use Rattle.fx_words.specs.Lines.{cut_parts, full_line_of, full_line_of_words, group_of, group_steps_of, lone_line, lone_word};
ghost use Rattle.fx_words.specs.Said.{steps_counted, steps_read};
ghost use Rattle.fx_words.specs.LineWords.{full_line_in, full_line_said};

use crate::built::Built;
use crate::fault::WordFault;
use crate::line::{FullLine, MAX_STEPS};
use crate::parts::Parts;
use crate::steps::{FullStepWords, check_full_step, check_group_step, copy_full_step};
use fx_script::{LineFault, Pieces, has_semicolon, is_ascii};
use fx_steps::TreeSteps;
use std::alloc::{AllocError, Global};
use std::marker::Model;

/// The words of a group, each checked, which contracts see as its steps. It borrows the bytes of the
/// line.
#[derive(Drop)]
pub struct GroupWords<'a> {
    built: Built,
    text: &'a [u8],
    count: usize,
}

impl<'a> Model for GroupWords<'a> {
    ghost use Rattle.std.specs.Prelude.{List};
    ghost use Rattle.fx_steps.specs.declared.step.TreeStep.{TreeStep};

    ghost Value = { List TreeStep };

    ghost use Rattle.std.specs.Prelude.{◌≡◌, Ok};
    ghost use Rattle.fx_script.specs.Cut.{words_of};
    ghost use Rattle.fx_words.specs.Lines.{cut_parts, group_steps_of};
    ghost use Rattle.fx_words.specs.Said.{steps_counted, steps_read};

    ghost view = { λ g. steps_read (group_steps_of g.built (cut_parts (words_of g.text.now))) };

    ghost invariant = { λ g.
        Ok g.count ≡ steps_counted 0 (group_steps_of g.built (cut_parts (words_of g.text.now))) };
}

/// The words of a line, each checked. It borrows the bytes of the line.
#[derive(Drop)]
pub enum FullWords<'a> {
    /// Those of one step.
    Single(FullStepWords<'a>),
    /// Those of steps that are done together or not at all.
    Group(GroupWords<'a>),
    /// `sync`.
    Sync,
    /// `compact`.
    Compact,
}

/// How many parts there are, each of which is a step, or the first fault of the first wrong one.
fn count_steps(built: Built, text: &[u8]) -> Result<usize, WordFault>
    ensures { result ≡ steps_counted 0 (group_steps_of built (cut_parts (words_of text.now))) }
{
    let mut count = 0;
    for part in Parts::new(text) {
        if let Err(fault) = check_group_step(built, part) {
            return Err(fault);
        }
        count += 1;
    }
    Ok(count)
}

/// The words of a group.
fn check_group<'a>(built: Built, text: &'a [u8]) -> Result<FullWords<'a>, WordFault>
    ensures { full_line_said result ≡ group_of built (words_of text.now) }
{
    let count = count_steps(built, text)?;
    if count > MAX_STEPS {
        return Err(WordFault::TooManySteps);
    }
    Ok(FullWords::Group(GroupWords { built, text, count }))
}

/// The words after one that stands alone.
fn check_lone<'a>(mut words: Pieces<'a>, line: FullWords<'a>) -> Result<FullWords<'a>, WordFault>
    ensures { full_line_said result ≡ lone_word (full_line_in line.entry) words.entry }
{
    match words.next() {
        None => Ok(line),
        Some(_) => Err(WordFault::Basic(LineFault::WordCount)),
    }
}

/// The words of a line that is no group.
fn check_lone_line<'a>(built: Built, words: Pieces<'a>) -> Result<FullWords<'a>, WordFault>
    ensures { full_line_said result ≡ lone_line built words.entry }
{
    let mut rest = words.again();
    let Some(word) = rest.next() else {
        return Err(WordFault::Basic(LineFault::Empty));
    };
    if word == b"sync".as_slice() {
        return check_lone(rest, FullWords::Sync);
    }
    if built.compaction && word == b"compact".as_slice() {
        return check_lone(rest, FullWords::Compact);
    }
    let step = check_full_step(built, words)?;
    Ok(FullWords::Single(step))
}

/// The words of a text of ASCII.
pub(crate) fn check_full_words<'a>(built: Built, text: &'a [u8]) -> Result<FullWords<'a>, WordFault>
    ensures { full_line_said result ≡ full_line_of_words built (words_of text.now) }
{
    let words = Pieces::new(text, b' ');
    if words.is_blank() {
        return Err(WordFault::Basic(LineFault::Empty));
    }
    if has_semicolon(words.again()) {
        if !built.groups {
            return Err(WordFault::Basic(LineFault::UnknownWord));
        }
        return check_group(built, text);
    }
    check_lone_line(built, words)
}

/// What a line says, its line feed not among the bytes, where these words are built. Fails with the
/// first fault. Takes no memory; costs the bytes of the line.
pub fn check_full_line<'a>(built: Built, line: &'a [u8]) -> Result<FullWords<'a>, WordFault>
    ensures { full_line_said result ≡ full_line_of built line.now }
{
    if !is_ascii(line) {
        return Err(WordFault::Basic(LineFault::NotAscii));
    }
    check_full_words(built, line)
}

/// The steps of a group whose words have no fault, with room for so many at once.
fn copy_group(
    alloc: Global,
    built: Built,
    text: &[u8],
    count: usize,
) -> Result<TreeSteps, AllocError>
    requires { IsOk (group_steps_of built (cut_parts (words_of text.now))) }
    ensures { IfOk result
        (λ steps. steps ≡ steps_read (group_steps_of built (cut_parts (words_of text.now)))) }
{
    let mut steps = Vec::with_capacity(alloc, count)?;
    for part in Parts::new(text) {
        let Ok(words) = check_group_step(built, part) else {
            unreachable!()
        };
        steps.push(copy_full_step(alloc, &words)?)?;
    }
    Ok(TreeSteps::new(steps))
}

impl<'a> GroupWords<'a> {
    /// How many steps there are.
    pub fn count(&self) -> usize
        ensures { result ≡ length self.now }
    {
        self.count
    }

    /// The steps, with names and texts of their own. Costs the bytes of the line.
    pub fn copy(&self, alloc: Global) -> Result<TreeSteps, AllocError>
        ensures { IfOk result (λ steps. steps ≡ self.now) }
    {
        copy_group(alloc, self.built, self.text, self.count)
    }
}

impl<'a> FullWords<'a> {
    /// What the words say, with names and texts of its own. For `sync` and `compact` no memory is
    /// taken. Costs the bytes of the line.
    pub fn copy(&self, alloc: Global) -> Result<FullLine, AllocError>
        ensures line { IfOk result (λ line. line ≡ full_line_in self.now) }
        ensures sync { full_line_in self.now ≡ FullLine.Sync → IsOk result }
        ensures compact { full_line_in self.now ≡ FullLine.Compact → IsOk result }
    {
        match self {
            FullWords::Single(step) => {
                let step = copy_full_step(alloc, step)?;
                Ok(FullLine::Single(step))
            }
            FullWords::Group(group) => {
                let steps = group.copy(alloc)?;
                Ok(FullLine::Group(steps))
            }
            FullWords::Sync => Ok(FullLine::Sync),
            FullWords::Compact => Ok(FullLine::Compact),
        }
    }
}

/// What a line says, its line feed not among the bytes, where these words are built, or its first
/// fault; want of memory is the outer `Err`. Costs the bytes of the line.
pub fn read_full_line(
    alloc: Global,
    built: Built,
    line: &[u8],
) -> Result<Result<FullLine, WordFault>, AllocError>
    ensures { IfOk result (λ said. said ≡ full_line_of built line.now) }
{
    match check_full_line(built, line) {
        Ok(words) => {
            let line = words.copy(alloc)?;
            Ok(Ok(line))
        }
        Err(fault) => Ok(Err(fault)),
    }
}
