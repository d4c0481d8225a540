// Counting under a turn.
ghost use Rattle.std.specs.Prelude.{◌≡◌, ◌<◌, ◌≤◌, ℕ, ◌-◌, false, [], IfOk};
ghost use Rattle.std.specs.FinMap.{from_entries};
ghost use denote.Param.Send.{IsSync};
ghost use Rattle.fx_turn.specs.Parts.{Has};

use fx_turn::{Growing, Pass, Turn};
use std::alloc::{AllocError, Global};
use std::sync::Wait;
use std::thread;
use std::thread::Threads;

// Its log stays empty. Each thread has a number, and a part that does not change.
#[derive(Drop)]
struct Counter {
    count: u64,
    threads: Vec<(u32, u32)>,
}

impl Growing for Counter {
    type Note = u64;

    type Part = u32;

    ghost log = { λ c. [] };

    ghost counts = { λ n. false };

    ghost parts = { λ c. from_entries c.threads.items };
}

impl Counter {
    fn new(alloc: Global, count: u32) -> Result<Counter, AllocError>
        ensures { IfOk result (λ c. (q : ℕ) → q < count → Has (from_entries c.threads.items) q) }
    {
        let mut threads = Vec::new(alloc);
        for thread in 0..count {
            threads.push((thread, 0))?;
        }
        Ok(Counter { count: 0, threads })
    }
}

fn count_alone<R: Wait>(
    rt: &R,
    turn: &Turn<Counter>,
    mut pass: Pass<u64, u32>,
    turns: u32,
) -> Pass<u64, u32>
    requires { pass.turn ≡ turn.now.id }
    ensures { (result.turn ≡ pass.turn) × (result.shares ≡ pass.shares) }
{
    for _ in 0..turns {
        let mut taken = turn.take(rt, pass);
        taken.value.count = taken.value.count.wrapping_add(1);
        pass = turn.give(rt, taken);
    }
    pass
}

// A pass of the last thread, of the threads up to that one.
fn split_last(turn: &Turn<Counter>, pass: &mut Pass<u64, u32>, who: u32) -> Pass<u64, u32>
    requires turn { pass.old.turn ≡ turn.now.id }
    requires shares { 2 ≤ pass.old.shares }
    requires threads { (q : ℕ) → q ≤ who → Has pass.old.mine q }
    ensures new { (result.turn ≡ pass.old.turn) × (result.shares ≡ 1) }
    ensures rest { (pass.new.turn ≡ pass.old.turn) × (pass.new.shares ≡ pass.old.shares - 1) }
    ensures threads { (q : ℕ) → q < who → Has pass.new.mine q }
{
    turn.split(pass, who)
}

fn count_in_threads<R: Threads + Wait + Sync>(
    rt: &R,
    turn: &Turn<Counter>,
    mut pass: Pass<u64, u32>,
    threads: u32,
    turns: u32,
) -> Pass<u64, u32>
    requires some { 0 < threads }
    requires turn { pass.turn ≡ turn.now.id }
    requires shares { threads ≤ pass.shares }
    requires threads { (q : ℕ) → q < threads → Has pass.mine q }
    ensures { (result.turn ≡ pass.turn) × (result.shares ≡ pass.shares) }
{
    let rest = threads - 1;
    if rest == 0 {
        return count_alone(rt, turn, pass, turns);
    }
    let other = split_last(turn, &mut pass, rest);
    let (other, pass) = thread::join(
        rt,
        || -> Pass<u64, u32>
            requires { other.turn ≡ turn.now.id }
            ensures { (result.turn ≡ other.turn) × (result.shares ≡ other.shares) }
        { count_alone(rt, turn, other, turns) },
        || -> Pass<u64, u32>
            requires { IsSync R.row × (0 < rest) × (pass.turn ≡ turn.now.id) × (rest ≤ pass.shares)
                × ((q : ℕ) → q < rest → Has pass.mine q) }
            ensures { (result.turn ≡ pass.turn) × (result.shares ≡ pass.shares) }
        { count_in_threads(rt, turn, pass, rest, turns) },
    );
    turn.join(pass, other)
}

/// What the threads came to.
pub fn count<R: Threads + Wait + Sync>(
    rt: &R,
    alloc: Global,
    threads: u32,
    turns: u32,
) -> Result<u64, AllocError>
    requires { 0 < threads }
{
    let counter = Counter::new(alloc, threads)?;
    let Ok((turn, pass)) = Turn::new(alloc, counter, threads) else {
        return Err(AllocError);
    };
    let pass = count_in_threads(rt, &turn, pass, threads, turns);
    Ok(turn.close(pass).count)
}
