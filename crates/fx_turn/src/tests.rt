ghost use Rattle.std.specs.Prelude.{◌≡◌, ◌<◌, ◌≤◌, ℕ, ◌-◌, not, eqb, IfOk};
ghost use Rattle.std.specs.FinMap.{from_entries};
ghost use mathlib.Core.List.{IsPrefix};
ghost use denote.Param.Send.{IsSync};
ghost use Rattle.fx_turn.specs.Parts.{Has};

use crate::{Growing, Pass, Taken, Turn};
use std::alloc::{AllocError, Global};
use std::sync::Wait;
use std::test::Fail;
use std::thread;
use std::thread::Threads;

// Who wrote, and how many notes of the same writer come before.
#[derive(Clone, Copy)]
struct Note {
    by: u32,
    count: u32,
}

// Each writer has a number, and its part is there from the start. The notes of writer 0 are not counted.
#[derive(Drop)]
struct Book {
    notes: Vec<Note>,
    writers: Vec<(u32, u32)>,
}

impl Growing for Book {
    type Note = Note;

    type Part = u32;

    ghost log = { λ b. b.notes.items };

    ghost counts = { λ n. not (eqb n.by 0) };

    ghost parts = { λ b. from_entries b.writers.items };
}

impl Book {
    // For the writers 0, 1 and so on.
    fn new(alloc: Global, count: u32) -> Result<Book, AllocError>
        ensures { IfOk result (λ b. (q : ℕ) → q < count → Has (from_entries b.writers.items) q) }
    {
        let mut writers = Vec::new(alloc);
        for writer in 0..count {
            writers.push((writer, 0))?;
        }
        Ok(Book {
            notes: Vec::new(alloc),
            writers,
        })
    }
}

// A turn in which a note is added. With no memory left it is not.
fn add<R: Wait>(rt: &R, turn: &Turn<Book>, pass: Pass<Note, u32>, note: Note) -> Pass<Note, u32>
    requires { pass.turn ≡ turn.now.id }
    ensures same { (result.turn ≡ pass.turn) × (result.shares ≡ pass.shares) }
    ensures seen { IsPrefix pass.seen result.seen }
{
    let mut taken = turn.take(rt, pass);
    let _ = taken.value.notes.push(note);
    turn.give(rt, taken)
}

// As many turns of one writer.
fn add_all<R: Wait>(
    rt: &R,
    turn: &Turn<Book>,
    mut pass: Pass<Note, u32>,
    by: u32,
    turns: u32,
) -> Pass<Note, u32>
    requires { pass.turn ≡ turn.now.id }
    ensures same { (result.turn ≡ pass.turn) × (result.shares ≡ pass.shares) }
    ensures seen { IsPrefix pass.seen result.seen }
{
    for count in 0..turns {
        pass = add(rt, turn, pass, Note { by, count });
    }
    pass
}

// A pass of the writer `who`, of the writers up to that one.
fn split_last(turn: &Turn<Book>, pass: &mut Pass<Note, u32>, who: u32) -> Pass<Note, u32>
    requires turn { pass.old.turn ≡ turn.now.id }
    requires shares { 2 ≤ pass.old.shares }
    requires writers { (q : ℕ) → q ≤ who → Has pass.old.mine q }
    ensures new { (result.turn ≡ pass.old.turn) × (result.shares ≡ 1) }
    ensures rest { (pass.new.turn ≡ pass.old.turn) × (pass.new.shares ≡ pass.old.shares - 1) }
    ensures writers { (q : ℕ) → q < who → Has pass.new.mine q }
{
    turn.split(pass, who)
}

// A thread for each writer, each with as many turns.
fn add_in_threads<R: Threads + Wait + Sync>(
    rt: &R,
    turn: &Turn<Book>,
    mut pass: Pass<Note, u32>,
    threads: u32,
    turns: u32,
) -> Pass<Note, u32>
    requires some { 0 < threads }
    requires turn { pass.turn ≡ turn.now.id }
    requires shares { threads ≤ pass.shares }
    requires writers { (q : ℕ) → q < threads → Has pass.mine q }
    ensures { (result.turn ≡ pass.turn) × (result.shares ≡ pass.shares) }
{
    let rest = threads - 1;
    if rest == 0 {
        return add_all(rt, turn, pass, rest, turns);
    }
    let other = split_last(turn, &mut pass, rest);
    let (other, pass) = thread::join(
        rt,
        || -> Pass<Note, u32>
            requires { other.turn ≡ turn.now.id }
            ensures { (result.turn ≡ other.turn) × (result.shares ≡ other.shares) }
        { add_all(rt, turn, other, rest, turns) },
        || -> Pass<Note, u32>
            requires { IsSync R.row × (0 < rest) × (pass.turn ≡ turn.now.id) × (rest ≤ pass.shares)
                × ((q : ℕ) → q < rest → Has pass.mine q) }
            ensures { (result.turn ≡ pass.turn) × (result.shares ≡ pass.shares) }
        { add_in_threads(rt, turn, pass, rest, turns) },
    );
    turn.join(pass, other)
}

fn write_in_threads<R: Threads + Wait + Sync>(
    rt: &R,
    alloc: Global,
    threads: u32,
    turns: u32,
) -> Result<Book, AllocError>
    requires { 0 < threads }
{
    let book = Book::new(alloc, threads)?;
    let Ok((turn, pass)) = Turn::new(alloc, book, threads) else {
        return Err(AllocError);
    };
    let pass = add_in_threads(rt, &turn, pass, threads, turns);
    Ok(turn.close(pass))
}

// Two passes in one thread, by turns.
fn write_alone<R: Wait>(rt: &R, alloc: Global, turns: u32) -> Result<Book, AllocError> {
    let book = Book::new(alloc, 2)?;
    let Ok((turn, mut pass)) = Turn::new(alloc, book, 2) else {
        return Err(AllocError);
    };
    let mut other = turn.split(&mut pass, 1);
    for count in 0..turns {
        pass = add(rt, &turn, pass, Note { by: 0, count });
        other = add(rt, &turn, other, Note { by: 1, count });
    }
    let pass = turn.join(pass, other);
    Ok(turn.close(pass))
}

// Whether each of the writers wrote as many notes, in its order, and there is no other note.
fn is_whole(alloc: Global, book: &Book, writers: u32, turns: u32) -> Result<bool, AllocError> {
    let mut next = Vec::new(alloc);
    for _ in 0..writers {
        next.push(0u32)?;
    }
    for note in &book.notes {
        let Some(count) = next.get_mut(note.by as usize) else {
            return Ok(false);
        };
        if note.count != *count || *count >= turns {
            return Ok(false);
        }
        *count += 1;
    }
    Ok(next.iter().all(|&count| count == turns))
}

#[test]
fn each_note_stands_in_order(rt: HostRuntime) -> Result<(), Fail> {
    let alloc = rt.alloc();
    for threads in [1, 2, 16] {
        let book = write_in_threads(&rt, alloc, threads, 10_000)?;
        assert!(rt;
            is_whole(alloc, &book, threads, 10_000)?,
            "by {threads} threads"
        );
    }
    let book = write_alone(&rt, alloc, 10_000)?;
    assert!(rt;
        is_whole(alloc, &book, 2, 10_000)?,
        "by one thread with two passes"
    );
    Ok(())
}

fn is_send<T: Send>(_value: &T) {}

fn is_sync<T: Sync>(_value: &T) {}

// Threads may share a turn, and may hand passes and taken values to one another.
fn crosses_threads<T: Growing + Send>(
    turn: &Turn<T>,
    pass: &Pass<T::Note, T::Part>,
    taken: &Taken<T>,
) {
    is_send(turn);
    is_sync(turn);
    is_send(pass);
    is_send(taken);
}
