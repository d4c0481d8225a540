//! Doing a commit that is ready.
ghost use Rattle.std.specs.Prelude.{◌≡◌, ◌<◌, ◌≤◌, [], length, vec_capacity, vec_len, None};
ghost use Rattle.fx_plain.specs.Table.{do_step, refused};
ghost use Rattle.fx_plain.specs.Tree.{IsCountable};
ghost use Rattle.fx_jblock.specs.declared.TheConstants.{RECORD_BYTES};
ghost use Rattle.fx_store.specs.Inside.{HasBuffers, Puts};
ghost use Rattle.fx_store.specs.Session.{HasEntryRoom};

use crate::commit::{Change, Commit};
use crate::session::Session;
use fx_journal::{Full, Ring};
use fx_pool::Pool;
use std::alloc::Global;

/// How a commit that was ready ended.
pub(crate) enum PutEnd {
    /// It is done.
    Done,
    /// The ring had no room for its record, and nothing changed.
    Full(Full),
    /// No memory was to be had, and nothing changed.
    OutOfMemory,
}

/// Does a commit that is ready: takes its room in the ring, does its step, puts its entry into the
/// history, and appends its record. What may be refused comes before the step.
pub(crate) fn put(
    alloc: Global,
    session: &mut Session,
    ring: &mut Ring,
    pool: &mut Pool,
    change: Change,
    commit: Commit,
) -> PutEnd
    requires nodes { IsCountable session.old.tree }
    requires done { refused (do_step session.old.tree change.step).0 ≡ None }
    requires room { HasEntryRoom session.old commit.room }
    requires buffers { HasBuffers ring.old pool.old }
    requires some { 1 ≤ length commit.record.items }
    requires short { length commit.record.items ≤ RECORD_BYTES }
    ensures { Puts change commit
        session.old session.new ring.old ring.new pool.old pool.new result }
{
    let bytes = commit.record.len() as u32;
    if let Err(full) = ring.reserve(pool, bytes) {
        return PutEnd::Full(full);
    }
    let Commit {
        number,
        room,
        record,
        next,
    } = commit;
    if session.commit(alloc, change, number, room, next).is_err() {
        ring.cancel(pool, bytes);
        return PutEnd::OutOfMemory;
    }
    ring.append(pool, &record);
    PutEnd::Done
}
