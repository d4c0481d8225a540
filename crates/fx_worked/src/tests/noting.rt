//! Marks, and the base.
use crate::{Event, base_noted, calls_noted, last_noted, settled_noted};
use fx_base::List;
use fx_history::Entry;
use std::alloc::{AllocError, Global};

fn commit(alloc: Global, number: u64) -> Event {
    Event::Commit {
        entry: Entry {
            number,
            who: 1,
            line: 1,
            steps: List::new(Vec::new(alloc)),
            settled: 0,
        },
    }
}

/// Three commits, a flush at the fifth device call, and two commits more.
fn five_commits(alloc: Global) -> Result<Vec<Event>, AllocError> {
    let mut events = Vec::new(alloc);
    for number in 1..4 {
        events.push(commit(alloc, number))?;
    }
    events.push(Event::Mark {
        number: 3,
        calls: 5,
    })?;
    events.push(commit(alloc, 4))?;
    events.push(commit(alloc, 5))?;
    Ok(events)
}

/// The base, the settled number and the last one, where a mount found these two.
fn numbers(base: u64, kept: u64, events: &[Event]) -> (u64, u64, u64) {
    if kept > 100 || events.len() > 100 {
        return (0, 0, 0);
    }
    (
        base_noted(base, events),
        settled_noted(kept, events),
        last_noted(kept, events),
    )
}

#[test]
fn a_mark_settles_what_was_committed_by_then(rt: HostRuntime) -> Result<(), AllocError> {
    let events = five_commits(rt.alloc())?;
    assert_eq!(rt; numbers(0, 0, &events), (0, 3, 5));
    assert_eq!(rt; calls_noted(&events, 1), 5);
    assert_eq!(rt; calls_noted(&events, 3), 5);
    assert_eq!(rt; calls_noted(&events, 4), 0);
    Ok(())
}

#[test]
fn a_checkpoint_raises_the_base_and_settles_nothing(rt: HostRuntime) -> Result<(), AllocError> {
    let mut events = five_commits(rt.alloc())?;
    events.push(Event::Base { base: 3 })?;
    assert_eq!(rt; numbers(0, 0, &events), (3, 3, 5));
    events.push(Event::Mark {
        number: 5,
        calls: 9,
    })?;
    assert_eq!(rt; numbers(0, 0, &events), (3, 5, 5));
    assert_eq!(rt; calls_noted(&events, 3), 5);
    assert_eq!(rt; calls_noted(&events, 4), 9);
    Ok(())
}

#[test]
fn what_a_mount_found_is_settled(rt: HostRuntime) -> Result<(), AllocError> {
    let events = Vec::new(rt.alloc());
    assert_eq!(rt; numbers(2, 7, &events), (2, 7, 7));
    Ok(())
}
