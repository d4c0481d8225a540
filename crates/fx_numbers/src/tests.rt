//! Two numbers in all orders of their events, keys that exclude one another, and a snapshot beside a
//! commit.
ghost use Rattle.std.specs.Prelude.{◌≡◌, None, IsSome, IsTrue, IfOk};
ghost use Rattle.fx_numbers.specs.State.{HasUsedPart, IsUsed};

use super::*;
use crate::log::{Happened, Log};
use fx_batch::Batch;
use fx_history::{Entry, History};
use fx_item::{Items, Need};
use fx_layerset::{LayerSet, Layers, LevelList};
use fx_plain::Steps;
use std::alloc::{AllocError, Global};
use std::sync::Arc;
use std::test::Fail;

/// Events of number 1 and number 2, and what each gives: `a` and `b` reserve one node and give its
/// id, `A` and `B` commit and give the number, `x` and `y` roll back.
const ORDERS: &str = "abAB => 10 11 8 9
abBA => 10 11 8 9
baAB => 10 11 8 9
baBA => 10 11 8 9
aAbB => 10 8 11 9
bBaA => 10 8 11 9
axbB => 10 0 11 8
abxB => 10 11 0 8
abyA => 10 11 0 8
axaA => 10 0 11 8
abxaBA => 10 11 0 12 8 9";

fn may_be_shared<T: Send + Sync>(_value: &T) {}

/// After a mount of an image that keeps 7 commits: the first unused id is 10.
fn mounted(alloc: Global) -> Numbers {
    let set = LayerSet::new(
        alloc,
        Layers {
            objects: LevelList::new(Vec::new(alloc)),
            allocs: LevelList::new(Vec::new(alloc)),
        },
    );
    let found = Found {
        kept: 7,
        base: 5,
        blocks: 4096,
        ring: 64,
        ids: 10,
        stores: 3,
        faults: 2,
    };
    Numbers::open(alloc, found, set)
}

fn is_ready(numbers: &Numbers, who: u32) -> bool
    ensures { IsTrue result → HasUsedPart numbers.now who (λ part. IsSome part.reserved) }
{
    matches!(numbers.reserved(who), Some(true))
}

fn has_nothing(numbers: &Numbers, who: u32) -> bool
    ensures { IsTrue result → HasUsedPart numbers.now who (λ part. part.reserved ≡ None) }
{
    matches!(numbers.reserved(who), Some(false))
}

fn is_used(numbers: &Numbers, who: u32) -> bool
    ensures { IsTrue result → IsUsed numbers.now who }
{
    numbers.reserved(who).is_some()
}

fn come(numbers: &mut Numbers) -> Result<u32, AllocError> {
    if !numbers.has_free() {
        return Err(AllocError);
    }
    numbers.enter()
}

fn give(numbers: &mut Numbers, who: u32) -> Result<u64, AllocError> {
    let need = Need {
        nodes: 1,
        attributes: 0,
        blocks: 0,
    };
    if !has_nothing(numbers, who) {
        return Err(AllocError);
    }
    if !numbers.can_give(1) {
        return Err(AllocError);
    }
    let given = numbers.reserve(who, need, 100)?;
    Ok(given.id)
}

fn take_back(numbers: &mut Numbers, who: u32) -> Result<u64, AllocError> {
    if !is_used(numbers, who) {
        return Err(AllocError);
    }
    numbers.rollback(who);
    Ok(0)
}

/// A batch with no item.
fn empty_batch(alloc: Global) -> Result<Arc<Batch>, AllocError> {
    let Ok(batch) = Batch::build(Items::empty(alloc)) else {
        return Err(AllocError);
    };
    let batch = Arc::new(alloc, batch)?;
    Ok(batch)
}

fn commit(alloc: Global, numbers: &mut Numbers, who: u32) -> Result<u64, AllocError> {
    let batch = empty_batch(alloc)?;
    let last = numbers.number();
    if last == u64::MAX || !is_ready(numbers, who) {
        return Err(AllocError);
    }
    let entry = Entry {
        number: last + 1,
        who,
        line: 1,
        steps: Steps::empty(alloc),
        settled: 0,
    };
    numbers.commit(who, entry, batch);
    Ok(last + 1)
}

fn act(alloc: Global, numbers: &mut Numbers, event: u8) -> Result<u64, AllocError> {
    match event {
        b'a' => give(numbers, 1),
        b'b' => give(numbers, 2),
        b'A' => commit(alloc, numbers, 1),
        b'B' => commit(alloc, numbers, 2),
        b'x' => take_back(numbers, 1),
        _ => take_back(numbers, 2),
    }
}

/// Whether the events give these numbers, one after another.
fn gives(alloc: Global, events: &str, want: &str) -> Result<bool, AllocError> {
    let mut numbers = mounted(alloc);
    come(&mut numbers)?;
    come(&mut numbers)?;
    for (event, word) in events.bytes().zip(want.split(' ')) {
        let got = act(alloc, &mut numbers, event)?;
        if word.parse::<u64>() != Ok(got) {
            return Ok(false);
        }
    }
    Ok(true)
}

#[test]
fn ids_and_numbers_in_all_orders(rt: HostRuntime) -> Result<(), Fail> {
    for row in ORDERS.lines() {
        let Some((events, want)) = row.split_once(" => ") else {
            continue;
        };
        assert!(rt; gives(rt.alloc(), events, want)?, "{row}");
    }
    Ok(())
}

/// A number comes, and asks for the key to change it.
fn comes_for(numbers: &mut Numbers, key: LockKey) -> Result<Asked, AllocError> {
    if !numbers.has_free() {
        return Err(AllocError);
    }
    let who = numbers.enter()?;
    numbers.room(who, 1)?;
    Ok(numbers.ask(who, key, Mode::Change))
}

fn lets_go(numbers: &mut Numbers, who: u32) {
    if is_used(numbers, who) {
        numbers.unlock(who);
    }
    if is_used(numbers, who) {
        numbers.met(who);
    }
}

#[test]
fn keys_exclude_one_another(rt: HostRuntime) -> Result<(), AllocError> {
    let mut numbers = mounted(rt.alloc());
    let key = LockKey { store: 0, id: 5 };
    let first = comes_for(&mut numbers, key)?;
    assert!(rt; first == Asked::Held);
    let second = comes_for(&mut numbers, key)?;
    assert!(rt; second == Asked::Busy(1));
    lets_go(&mut numbers, 1);
    let third = comes_for(&mut numbers, key)?;
    assert!(rt; third == Asked::Held);
    Ok(())
}

fn shot_of(alloc: Global, numbers: &mut Numbers, who: u32) -> Result<Snapshot, AllocError> {
    if !is_used(numbers, who) {
        return Err(AllocError);
    }
    numbers.snapshot(alloc, who)
}

#[test]
fn snapshot_sees_no_later_commit(rt: HostRuntime) -> Result<(), AllocError> {
    let alloc = rt.alloc();
    let mut numbers = mounted(alloc);
    may_be_shared(&numbers);
    let who = come(&mut numbers)?;
    let shot = shot_of(alloc, &mut numbers, who)?;
    give(&mut numbers, who)?;
    commit(alloc, &mut numbers, who)?;
    assert!(rt; shot.point() == 7 && shot.batch_count() == 0);
    assert!(rt; numbers.number() == 8 && numbers.batch_count() == 1);
    Ok(())
}

fn noted(log: &mut Log, note: Happened) -> Result<(), AllocError> {
    log.promise(0, 1)?;
    log.push(note);
    Ok(())
}

fn entry_of(alloc: Global, number: u64) -> Happened {
    Happened::Commits(Entry {
        number,
        who: 1,
        line: 1,
        steps: Steps::empty(alloc),
        settled: 0,
    })
}

/// Notes: a commit by its number, or a flush by the number that it reached and its calls.
fn log_of(alloc: Global, notes: &[(u64, u64)]) -> Result<Log, AllocError> {
    let mut log = Log::new(alloc);
    for (number, calls) in notes {
        let (number, calls) = (*number, *calls);
        if calls == 0 {
            noted(&mut log, entry_of(alloc, number))?;
        } else {
            noted(&mut log, Happened::Settles { number, calls })?;
        }
    }
    Ok(log)
}

fn are_settled(history: &History, want: &[u64]) -> bool {
    history
        .iter()
        .map(|entry| entry.settled)
        .eq(want.iter().copied())
}

#[test]
fn history_tells_which_flush_settled(rt: HostRuntime) -> Result<(), AllocError> {
    let notes = [(8, 0), (9, 0), (8, 5), (10, 0), (10, 9), (11, 0)];
    let log = log_of(rt.alloc(), &notes)?;
    let history = log.into_history(rt.alloc())?;
    assert!(rt; are_settled(&history, &[5, 9, 9, 0]));
    Ok(())
}

#[test]
fn history_of_numbers(rt: HostRuntime) -> Result<(), AllocError> {
    let mut numbers = mounted(rt.alloc());
    let who = come(&mut numbers)?;
    give(&mut numbers, who)?;
    commit(rt.alloc(), &mut numbers, who)?;
    let history = numbers.into_history(rt.alloc())?;
    assert!(rt; are_settled(&history, &[0]));
    Ok(())
}
