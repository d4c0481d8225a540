//! What a script of all words says, line by line.
ghost use Rattle.std.specs.Prelude.{◌≡◌, All, IfOk, IsOk, Ok, length};
ghost use Rattle.std.specs.Iterator.{YieldsFirst, item_count};
ghost use Rattle.fx_script.specs.Cut.{cut_rest, words_of};
ghost use Rattle.fx_script.specs.Script.{first_sender, sender_of};
ghost use Rattle.fx_words.specs.Lines.{full_line_of_words, with_basic_fault};
ghost use Rattle.fx_words.specs.LineWords.{full_line_said};
ghost use Rattle.fx_words.specs.FullScript.{FullTaskKeepsRules, full_counted, full_script_of, full_task_of, sender_said};

use crate::built::Built;
use crate::check::{FullWords, check_full_words};
use crate::fault::WordFault;
use crate::line::FullLine;
use crate::parts::text_from;
use fx_item::Bytes;
use fx_script::{LineFault, MAX_LINES, Pieces, is_ascii, read_client};
use std::alloc::{AllocError, Global};
use std::marker::Model;
use thiserror::Error;

/// A line, the client that sends it, and its number in the script, from 1.
#[derive(Debug, Drop)]
pub struct FullTask {
    /// The client that sends the line, from 1 to 16.
    pub client: u32,
    /// The number of the line, from 1.
    pub number: u32,
    /// What the line says.
    pub line: FullLine,
}

/// The first wrong line of a script, numbered from 1, and its first fault, which is never want of
/// memory.
#[derive(Clone, Copy, Debug, PartialEq, Eq, Error)]
#[error("line {number}: {fault}")]
pub struct BadFullLine {
    pub number: u32,
    pub fault: WordFault,
}

/// A script each of whose lines was checked, which contracts see as the list of its tasks. It holds
/// the bytes of the script alone: the task of a line is built where it is asked for.
#[derive(Debug, Drop)]
pub struct FullTasks {
    built: Built,
    text: Bytes,
    many: bool,
    count: u32,
}

impl Model for FullTasks {
    ghost use Rattle.std.specs.Prelude.{List};
    ghost use Rattle.fx_words.specs.declared.script.FullTask.{FullTask};

    ghost Value = { List FullTask };

    ghost use Rattle.std.specs.Prelude.{◌≡◌, Ok};
    ghost use Rattle.fx_words.specs.FullScript.{FullTaskKeepsRules, full_counted, full_script_of, full_tasks_read};

    ghost view = { λ t. full_tasks_read (full_script_of t.built t.many t.text) };

    ghost invariant = { λ t. Ok t.count ≡ full_counted 0 (full_script_of t.built t.many t.text) };
}

impl FullTasks {
    /// How many there are.
    pub fn len(&self) -> u32
        ensures { result ≡ length self.now }
    {
        self.count
    }

    /// The lines, one after another. Going over them takes no memory, and costs the bytes of the
    /// script.
    pub fn lines(&self) -> SentFullLines<'_>
        ensures { result ≡ self.now }
    {
        SentFullLines {
            built: self.built,
            rest: Pieces::lines(self.text.as_slice()),
            number: 1,
            many: self.many,
        }
    }
}

/// A line that was checked, which contracts see as its task. It borrows the bytes of the script.
#[derive(Drop)]
pub struct SentFullLine<'a> {
    built: Built,
    client: u32,
    number: u32,
    words: Option<&'a [u8]>,
}

impl<'a> Model for SentFullLine<'a> {
    ghost use Rattle.fx_words.specs.declared.script.FullTask.{FullTask};

    ghost Value = { FullTask };

    ghost use Rattle.std.specs.Prelude.{IsOk};
    ghost use Rattle.fx_script.specs.Cut.{cut_rest};
    ghost use Rattle.fx_words.specs.Lines.{full_line_of_words};
    ghost use Rattle.fx_words.specs.FullScript.{full_line_read, full_task};

    ghost view = { λ l.
        full_task l.number l.client
        (full_line_read (full_line_of_words l.built (cut_rest 32 l.words))) };

    ghost invariant = { λ l. IsOk (full_line_of_words l.built (cut_rest 32 l.words)) };
}

impl<'a> SentFullLine<'a> {
    /// The client that sends the line.
    pub fn client(&self) -> u32
        ensures { result ≡ self.now.client }
    {
        self.client
    }

    /// The number of the line.
    pub fn number(&self) -> u32
        ensures { result ≡ self.now.number }
    {
        self.number
    }

    /// The task, with names and texts of its own. For the lines `sync` and `compact` no memory is
    /// taken. Costs the bytes of the line.
    pub fn task(&self, alloc: Global) -> Result<FullTask, AllocError>
        ensures task { IfOk result (λ task. task ≡ self.now) }
        ensures sync { self.now.line ≡ FullLine.Sync → IsOk result }
        ensures compact { self.now.line ≡ FullLine.Compact → IsOk result }
    {
        let Ok(words) = check_sent_words(self.built, self.words) else {
            unreachable!()
        };
        let line = words.copy(alloc)?;
        Ok(FullTask {
            client: self.client,
            number: self.number,
            line,
        })
    }
}

/// The words behind the client, if there are any.
fn check_sent_words<'a>(built: Built, words: Option<&'a [u8]>) -> Result<FullWords<'a>, WordFault>
    ensures { full_line_said result ≡ full_line_of_words built (cut_rest 32 words.entry) }
{
    match words {
        None => Err(WordFault::Basic(LineFault::Empty)),
        Some(text) => check_full_words(built, text),
    }
}

/// The client that the first word is, and the words behind it.
fn first_client<'a>(text: &'a [u8]) -> Result<(u32, Option<&'a [u8]>), WordFault>
    ensures { sender_said result ≡ with_basic_fault (first_sender (words_of text.now)) }
{
    let mut words = Pieces::new(text, b' ');
    let Some(word) = words.next() else {
        return Err(WordFault::Basic(LineFault::Empty));
    };
    match read_client(word) {
        Ok(client) => Ok((client, text_from(word.len() + 1, text))),
        Err(fault) => Err(WordFault::Basic(fault)),
    }
}

/// The client that sends the line, and the words that it says.
fn full_sender<'a>(many: bool, text: &'a [u8]) -> Result<(u32, Option<&'a [u8]>), WordFault>
    ensures { sender_said result ≡ with_basic_fault (sender_of many (words_of text.now)) }
{
    if !many {
        return Ok((1, Some(text)));
    }
    let words = Pieces::new(text, b' ');
    if words.is_blank() {
        return Err(WordFault::Basic(LineFault::Empty));
    }
    first_client(text)
}

/// The line with this number, checked.
fn check_task<'a>(
    built: Built,
    many: bool,
    number: u32,
    line: &'a [u8],
) -> Result<SentFullLine<'a>, WordFault>
    ensures { result ≡ full_task_of built many number line.now }
{
    if number > MAX_LINES {
        return Err(WordFault::Basic(LineFault::TooManyLines));
    }
    if !is_ascii(line) {
        return Err(WordFault::Basic(LineFault::NotAscii));
    }
    let (client, words) = full_sender(many, line)?;
    if let Err(fault) = check_sent_words(built, words) {
        return Err(fault);
    }
    Ok(SentFullLine {
        built,
        client,
        number,
        words,
    })
}

/// The line with this number, which was checked before.
fn checked_task<'a>(built: Built, many: bool, number: u32, line: &'a [u8]) -> SentFullLine<'a>
    requires { IsOk (full_task_of built many number line.now) }
    ensures { Ok result ≡ full_task_of built many number line.now }
{
    let Ok((client, words)) = full_sender(many, line) else {
        unreachable!()
    };
    SentFullLine {
        built,
        client,
        number,
        words,
    }
}

/// The lines of a script that are left, which contracts see as the list of their tasks.
#[derive(Drop)]
pub struct SentFullLines<'a> {
    built: Built,
    rest: Pieces<'a>,
    number: u32,
    many: bool,
}

impl<'a> Model for SentFullLines<'a> {
    ghost use Rattle.std.specs.Prelude.{List};
    ghost use Rattle.fx_words.specs.declared.script.FullTask.{FullTask};

    ghost Value = { List FullTask };

    ghost use Rattle.std.specs.Prelude.{IsOk};
    ghost use Rattle.fx_words.specs.FullScript.{full_tasks_from, full_tasks_read};

    ghost view = { λ l. full_tasks_read (full_tasks_from l.built l.many l.number l.rest) };

    ghost invariant = { λ l. IsOk (full_tasks_from l.built l.many l.number l.rest) };
}

impl<'a> Iterator for SentFullLines<'a> {
    type Item = SentFullLine<'a>;

    ghost next_gives = { YieldsFirst (λ lines. lines) };

    ghost remaining = { item_count (λ lines. lines) };

    fn next(&mut self) -> Option<SentFullLine<'a>> {
        let line = self.rest.next()?;
        let number = self.number;
        let line = checked_task(self.built, self.many, number, line);
        self.number = number + 1;
        Some(line)
    }
}

/// How many lines there are, each of which is right, or the first wrong one.
fn count_lines(built: Built, text: &[u8], many: bool) -> Result<u32, BadFullLine>
    ensures { result ≡ full_counted 0 (full_script_of built many text.now) }
{
    let mut count = 0;
    for line in Pieces::lines(text) {
        let number = count + 1;
        if let Err(fault) = check_task(built, many, number, line) {
            return Err(BadFullLine { number, fault });
        }
        count = number;
    }
    Ok(count)
}

/// The lines of a script of all words that are built: one for each line feed, and one for what comes
/// after the last of them, if anything does. The client of a line is 1, or where there are `many`
/// its first word, from 1 to 16. Fails with the first wrong line and its first fault; a script has at
/// most 65,536 lines. Takes no memory; costs the bytes of the script.
pub fn read_full_script(built: Built, text: Bytes, many: bool) -> Result<FullTasks, BadFullLine>
    ensures tasks { result ≡ full_script_of built many text }

    // Each line is one that the grammar has, and each client is one.
    ensures rules { IfOk result (All FullTaskKeepsRules) }
{
    let count = count_lines(built, text.as_slice(), many)?;
    Ok(FullTasks {
        built,
        text,
        many,
        count,
    })
}
