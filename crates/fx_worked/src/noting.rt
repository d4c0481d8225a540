//! What is read off notes of what happened since a mount.
ghost use Rattle.std.specs.Prelude.{◌≡◌, ◌+◌, ◌<◌, ◌^◌, ℕ, List, ◌∷◌, length, map, IfSome, IfNone};
ghost use Rattle.fx_events.specs.Notes.{Note, base_number, calls_in, entries_in, last_commit, settled_upto};
ghost use Rattle.fx_worked.specs.Noted.{noted_of};

use fx_history::Entry;

/// What happened since a mount.
#[derive(Debug, Drop)]
pub enum Event {
    /// A commit.
    Commit { entry: Entry },
    /// A flush that settled the commits up to a number, after so many device calls.
    Mark { number: u64, calls: u64 },
    /// A checkpoint that was finished, and raised the base count.
    Base { base: u64 },
}

/// The number of the last commit, where the mount kept those up to `kept`.
pub fn last_noted(kept: u64, events: &[Event]) -> u64
    requires { kept + length events.now < 2 ^ 64 }
    ensures { result ≡ last_commit kept (map noted_of events.now) }
{
    let mut last = kept;
    for event in events {
        last += commits(event);
    }
    last
}

fn commits(event: &Event) -> u64
    ensures each { (rest : List Note) → length (entries_in (noted_of event.now ∷ rest))
        ≡ result + length (entries_in rest) }
    ensures most { result < 2 }
{
    match event {
        Event::Commit { .. } => 1,
        _ => 0,
    }
}

/// The number up to which commits are settled.
pub fn settled_noted(kept: u64, events: &[Event]) -> u64
    ensures { result ≡ settled_upto kept (map noted_of events.now) }
{
    let mut settled = kept;
    for event in events {
        settled = settled_after(settled, event);
    }
    settled
}

fn settled_after(before: u64, event: &Event) -> u64
    ensures { (rest : List Note) → settled_upto before (noted_of event.now ∷ rest)
        ≡ settled_upto result rest }
{
    match event {
        Event::Commit { .. } => before,
        Event::Mark { number, .. } => *number,
        Event::Base { .. } => before,
    }
}

/// The base count.
pub fn base_noted(base: u64, events: &[Event]) -> u64
    ensures { result ≡ base_number base (map noted_of events.now) }
{
    let mut raised = base;
    for event in events {
        raised = base_after(raised, event);
    }
    raised
}

fn base_after(before: u64, event: &Event) -> u64
    ensures { (rest : List Note) → base_number before (noted_of event.now ∷ rest)
        ≡ base_number result rest }
{
    match event {
        Event::Commit { .. } => before,
        Event::Mark { .. } => before,
        Event::Base { base } => *base,
    }
}

/// The device calls after which the commit of this number was settled, 0 where it is not.
pub fn calls_noted(events: &[Event], number: u64) -> u64
    ensures { result ≡ calls_in (map noted_of events.now) number }
{
    for event in events {
        if let Some(calls) = calls_of(event, number) {
            return calls;
        }
    }
    0
}

fn calls_of(event: &Event, number: u64) -> Option<u64>
    ensures some { IfSome result (λ calls. (rest : List Note) →
        calls_in (noted_of event.now ∷ rest) number ≡ calls) }
    ensures none { IfNone result ((rest : List Note) →
        calls_in (noted_of event.now ∷ rest) number ≡ calls_in rest number) }
{
    match event {
        Event::Commit { .. } => None,
        Event::Base { .. } => None,
        Event::Mark {
            number: reached,
            calls,
        } => {
            if number <= *reached {
                Some(*calls)
            } else {
                None
            }
        }
    }
}
