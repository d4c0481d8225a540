//! What a script says, line by line.
ghost use Rattle.std.specs.Prelude.{◌≡◌, ◌≢◌, ℕ, All, Err, IfOk, length};
ghost use Rattle.std.specs.Iterator.{YieldsFirst, item_count};
ghost use Rattle.fx_script.specs.declared.fault.LineFault.TheVariants.{OutOfMemory};
ghost use Rattle.fx_script.specs.Print.{LineKeepsRules};
ghost use Rattle.fx_script.specs.Script.{counted, script_of};

use crate::fault::ScriptFault;
use crate::line::Line;
use crate::pieces::Pieces;
use crate::sent::{SentLine, check_line, checked_line};
use fx_item::Bytes;
use std::marker::Model;

/// A line, the client that sends it, and its number in the script, from 1.
#[derive(Debug, Drop)]
pub struct Task {
    /// The client that sends the line, from 1 to 16.
    pub client: u32,
    /// The number of the line, from 1.
    pub number: u32,
    /// What the line says.
    pub line: Line,
}

/// A script each of whose lines was checked, which contracts see as the list of its tasks. It holds
/// the bytes of the script alone: the task of a line is built where it is asked for.
#[derive(Debug, Drop)]
pub struct Tasks {
    text: Bytes,
    many: bool,
    count: u32,
}

impl Model for Tasks {
    ghost use Rattle.std.specs.Prelude.{List};
    ghost use Rattle.fx_script.specs.declared.script.Task.{Task};

    ghost Value = { List Task };

    ghost use Rattle.std.specs.Prelude.{◌≡◌, Ok};
    ghost use Rattle.fx_script.specs.Script.{counted, script_of, tasks_read};

    ghost view = { λ t. tasks_read (script_of t.many t.text) };

    ghost invariant = { λ t. Ok t.count ≡ counted 0 (script_of t.many t.text) };
}

impl Tasks {
    /// How many there are.
    pub fn len(&self) -> u32
        ensures { result ≡ length self.now }
    {
        self.count
    }

    /// The lines, one after another. Going over them takes no memory, and costs the bytes of the
    /// script.
    pub fn lines(&self) -> SentLines<'_>
        ensures { result ≡ self.now }
    {
        SentLines {
            rest: Pieces::lines(self.text.as_slice()),
            number: 1,
            many: self.many,
        }
    }
}

/// The lines of a script that are left, which contracts see as the list of their tasks.
#[derive(Drop)]
pub struct SentLines<'a> {
    rest: Pieces<'a>,
    number: u32,
    many: bool,
}

impl<'a> Model for SentLines<'a> {
    ghost use Rattle.std.specs.Prelude.{List};
    ghost use Rattle.fx_script.specs.declared.script.Task.{Task};

    ghost Value = { List Task };

    ghost use Rattle.std.specs.Prelude.{IsOk};
    ghost use Rattle.fx_script.specs.Script.{tasks_from, tasks_read};

    ghost view = { λ l. tasks_read (tasks_from l.many l.number l.rest) };

    ghost invariant = { λ l. IsOk (tasks_from l.many l.number l.rest) };
}

impl<'a> Iterator for SentLines<'a> {
    type Item = SentLine<'a>;

    ghost next_gives = { YieldsFirst (λ lines. lines) };

    ghost remaining = { item_count (λ lines. lines) };

    fn next(&mut self) -> Option<SentLine<'a>> {
        let line = self.rest.next()?;
        let number = self.number;
        let line = checked_line(self.many, number, line);
        self.number = number + 1;
        Some(line)
    }
}

/// How many lines there are, each of which is right, or the first wrong one.
fn check_lines(text: &[u8], many: bool) -> Result<u32, ScriptFault>
    ensures { result ≡ counted 0 (script_of many text.now) }
{
    let mut count = 0;
    for line in Pieces::lines(text) {
        let number = count + 1;
        if let Err(fault) = check_line(many, number, line) {
            return Err(ScriptFault::BadLine { number, fault });
        }
        count = number;
    }
    Ok(count)
}

/// The lines of a script: one for each line feed, and one for what comes after the last of them, if
/// anything does.
/// The client of a line is 1, or where there are `many` its first word. Fails with the first wrong
/// line and its first fault. Takes no memory; costs the bytes of the script.
pub fn read_script(text: Bytes, many: bool) -> Result<Tasks, ScriptFault>
    ensures tasks { result ≡ script_of many text }
    ensures memory { (number : ℕ) → result ≢ Err (ScriptFault.BadLine number OutOfMemory) }

    // Each line is one that the grammar has.
    ensures rules { IfOk result (All (λ task. LineKeepsRules task.line)) }
{
    let count = check_lines(text.as_slice(), many)?;
    Ok(Tasks { text, many, count })
}
