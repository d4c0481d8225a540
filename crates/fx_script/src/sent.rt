//! The lines of a script, with the clients that send them.
ghost use Rattle.std.specs.Prelude.{◌≡◌, ◌<◌, ◌≤◌, IfOk, IsOk, Ok};
ghost use Rattle.fx_script.specs.Print.{LineKeepsRules};
ghost use Rattle.fx_script.specs.Script.{client_of, first_sender, sender_of, task_of};

use crate::fault::LineFault;
use crate::line::{Line, check_words, copy_line, is_ascii};
use crate::pieces::Pieces;
use crate::script::Task;
use crate::word::read_number;
use std::alloc::{AllocError, Global};
use std::marker::Model;

/// The most lines of a script.
pub const MAX_LINES: u32 = 65_536;

/// The greatest number of a client.
pub const MAX_CLIENT: u32 = 16;

/// A line that was checked, which contracts see as its task. It borrows the bytes of the script.
#[derive(Drop)]
pub struct SentLine<'a> {
    client: u32,
    number: u32,
    words: Pieces<'a>,
}

impl<'a> Model for SentLine<'a> {
    ghost use Rattle.fx_script.specs.declared.script.Task.{Task};

    ghost Value = { Task };

    ghost use Rattle.fx_script.specs.Line.{line_of_words};
    ghost use Rattle.fx_script.specs.Checked.{line_read};
    ghost use Rattle.fx_script.specs.Sent.{IsSent};

    ghost view = { λ l.
        record { client = l.client; number = l.number; line = line_read (line_of_words l.words) } };

    ghost invariant = { λ l. IsSent l.client l.words };
}

impl<'a> SentLine<'a> {
    /// The client that sends the line.
    pub fn client(&self) -> u32
        ensures { result ≡ self.now.client }
    {
        self.client
    }

    /// The number of the line.
    pub fn number(&self) -> u32
        ensures { result ≡ self.now.number }
    {
        self.number
    }

    /// The task, with names and a text of its own. For the line `sync` no memory is taken.
    pub fn task(&self, alloc: Global) -> Result<Task, AllocError>
        ensures task { IfOk result (λ task. task ≡ self.now) }
        ensures sync { self.now.line ≡ Line.Sync → IsOk result }

        // The line is one that the grammar has, and the client is one.
        ensures rules { LineKeepsRules self.now.line }
        ensures from { (0 < self.now.client) × (self.now.client ≤ MAX_CLIENT) }
    {
        let Ok(words) = check_words(self.words.again()) else {
            unreachable!()
        };
        let line = copy_line(alloc, &words)?;
        Ok(Task {
            client: self.client,
            number: self.number,
            line,
        })
    }
}

/// The client that the word is. Fails with `BadClient`.
pub fn read_client(word: &[u8]) -> Result<u32, LineFault>
    ensures { result ≡ client_of word.now }
{
    match read_number(word) {
        Ok(number) if 0 < number && number <= MAX_CLIENT => Ok(number),
        _ => Err(LineFault::BadClient),
    }
}

/// The client that the first word is, and the words behind it.
fn first_sender<'a>(mut words: Pieces<'a>) -> Result<(u32, Pieces<'a>), LineFault>
    ensures { result ≡ first_sender words.entry }
{
    let Some(client) = words.next() else {
        return Err(LineFault::Empty);
    };
    let client = read_client(client)?;
    Ok((client, words))
}

/// The client that sends the words, and what it says.
fn sender<'a>(many: bool, words: Pieces<'a>) -> Result<(u32, Pieces<'a>), LineFault>
    ensures { result ≡ sender_of many words.entry }
{
    if !many {
        return Ok((1, words));
    }
    if words.is_blank() {
        return Err(LineFault::Empty);
    }
    first_sender(words)
}

/// The line with this number, checked.
pub(crate) fn check_line<'a>(
    many: bool,
    number: u32,
    line: &'a [u8],
) -> Result<SentLine<'a>, LineFault>
    ensures { result ≡ task_of many number line.now }
{
    if number > MAX_LINES {
        return Err(LineFault::TooManyLines);
    }
    if !is_ascii(line) {
        return Err(LineFault::NotAscii);
    }
    let (client, words) = sender(many, Pieces::new(line, b' '))?;
    let _ = check_words(words.again())?;
    Ok(SentLine {
        client,
        number,
        words,
    })
}

/// The line with this number, which was checked before.
pub(crate) fn checked_line<'a>(many: bool, number: u32, line: &'a [u8]) -> SentLine<'a>
    requires { IsOk (task_of many number line.now) }
    ensures { Ok result ≡ task_of many number line.now }
{
    let Ok((client, words)) = sender(many, Pieces::new(line, b' ')) else {
        unreachable!()
    };
    SentLine {
        client,
        number,
        words,
    }
}
