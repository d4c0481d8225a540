//! The notes of what happened.
ghost use Rattle.std.specs.Prelude.{◌≡◌, ◌+◌, ◌*◌, ◌<◌, ◌≤◌, ◌++◌, ◌∷◌, [], length, map, IfOk, OnOk};
ghost use Rattle.fx_events.specs.Notes.{entries_in, history_in, settled_at};
ghost use Rattle.fx_numbers.specs.Noted.{flushes_in, note_of, settled_with};

use crate::flush::{Flush, calls_of, first_from};
use fx_history::{Entry, History};
use std::alloc::{AllocError, Global};
use std::marker::Model;

/// A commit; a flush that settled commits up to a number, after so many device calls; a checkpoint
/// that raised the base count.
#[derive(Debug, Drop)]
pub(crate) enum Happened {
    Commits(Entry),
    Settles { number: u64, calls: u64 },
    Raises(u64),
}

/// What happened since the mount, the oldest first.
#[derive(Drop)]
pub(crate) struct Log {
    notes: Vec<Happened>,
}

impl Model for Log {
    ghost use Rattle.std.specs.Prelude.{map, vec_capacity};
    ghost use Rattle.fx_numbers.specs.Noted.{NoteList, note_of};

    ghost Value = { NoteList };

    ghost view = { λ l. record { notes = map note_of l.notes.items; room = vec_capacity l.notes } };
}

impl Log {
    /// Nothing happened yet. Takes no memory.
    pub(crate) fn new(alloc: Global) -> Log
        ensures { result.notes ≡ [] }
    {
        Log {
            notes: Vec::new(alloc),
        }
    }

    /// One more note. It takes no memory.
    pub(crate) fn push(&mut self, note: Happened)
        requires { length self.old.notes < self.old.room }
        ensures { self.new ≡ record self.old { notes = self.old.notes ++ note_of note ∷ [] } }
    {
        self.notes.push_reserved(note);
    }

    /// Room for a note of each of so many commits, a mark of each of them, and a mark of each commit
    /// that is not settled. Where memory is refused all is as before, but for more room.
    pub(crate) fn promise(&mut self, unsettled: u64, commits: usize) -> Result<(), AllocError>
        requires { commits ≤ 64 }
        ensures notes { self.new.notes ≡ self.old.notes }
        ensures room { OnOk result
            ((length self.new.notes + unsettled) + 2 * commits ≤ self.new.room) }
        ensures keeps { self.old.room ≤ self.new.room }
    {
        if unsettled > MOST {
            return Err(AllocError);
        }
        self.notes.reserve(unsettled as usize + 2 * commits)
    }

    /// The history: each entry with the device calls of the flush that settled it. One pass, since
    /// the entries' numbers rise; it takes memory for the entries and for the flushes.
    pub(crate) fn into_history(self, alloc: Global) -> Result<History, AllocError>
        ensures { IfOk result (λ history. history ≡ history_in self.notes) }
    {
        let flushes = flushes_of(alloc, self.notes.as_slice())?;
        let entries = settle_all(alloc, self.notes, flushes.as_slice())?;
        Ok(History::new(entries))
    }
}

/// More notes than any memory holds.
const MOST: u64 = 1 << 48;

/// The flushes, in their order.
fn flushes_of(alloc: Global, notes: &[Happened]) -> Result<Vec<Flush>, AllocError>
    ensures { IfOk result (λ flushes. flushes.items ≡ flushes_in (map note_of notes.now)) }
{
    let mut flushes = Vec::new(alloc);
    for note in notes {
        let Happened::Settles { number, calls } = note else {
            continue;
        };
        flushes.push(Flush {
            number: *number,
            calls: *calls,
        })?;
    }
    Ok(flushes)
}

/// The entry, settled after so many calls.
fn settled(entry: Entry, calls: u64) -> Entry
    ensures { result ≡ settled_at calls entry }
{
    let mut entry = entry;
    entry.settled = calls;
    entry
}

/// The entries, each with the calls of the first of these flushes that reaches it.
fn settle_all(
    alloc: Global,
    notes: Vec<Happened>,
    flushes: &[Flush],
) -> Result<Vec<Entry>, AllocError>
    ensures { IfOk result (λ entries. entries.items
        ≡ settled_with flushes.now (entries_in (map note_of notes.items))) }
{
    let mut entries = Vec::new(alloc);
    let mut rest = flushes;
    let mut last = 0;
    for note in notes {
        let Happened::Commits(entry) = note else {
            continue;
        };
        rest = first_from(flushes, rest, last, entry.number);
        last = entry.number;
        entries.push(settled(entry, calls_of(rest)))?;
    }
    Ok(entries)
}
