//! Where each block stands after some calls, kept as the numbers of its writes.
ghost use Rattle.std.specs.Prelude.{◌≡◌, ◌↔◌, ℕ, ◌+◌, ◌-◌, ◌<◌, ◌≤◌, Bool, true, false, IsTrue, IfOk, List, [], map, length, replicate, slice_index_or, slice_set, take, drop, ◌++◌};
ghost use Rattle.fx_disk.specs.Record.{cell_at};
ghost use Rattle.fx_disk.specs.Record as model;
ghost use Rattle.fx_disk.specs.Steps.{IsCallOf};
ghost use Rattle.fx_disks.specs.Calls.{call_of, record_from, bytes_by};
ghost use Rattle.fx_disks.specs.Tracks.{is_fixed, settled_number, track_after, tracks_after, flushed_after, fresh, AllCallsOf, TrackedAfter, TrackedAt};

use crate::call::Made;
use std::alloc::{AllocError, Global};

/// A block by the numbers of its writes, from 1 among all calls; 0 stands for the entry image.
#[derive(Clone, Copy)]
pub struct Track {
    /// The last write.
    pub written: u64,
    /// Whether the last write was good.
    pub good: bool,
    /// The write whose bytes were settled when the last write came.
    pub settled: u64,
}

impl Track {
    pub fn fresh() -> Track
        ensures { result ≡ fresh }
    {
        Track {
            written: 0,
            good: true,
            settled: 0,
        }
    }

    /// Whether the block is settled, `flushed` being the number of the last successful flush.
    pub fn is_fixed(&self, flushed: u64) -> bool
        ensures { result ≡ is_fixed self.now flushed }
    {
        self.good && self.written <= flushed
    }

    /// The write whose bytes are the settled ones.
    pub fn settled_number(&self, flushed: u64) -> u64
        ensures { result ≡ settled_number self.now flushed }
    {
        if self.is_fixed(flushed) {
            self.written
        } else {
            self.settled
        }
    }

    fn after_write(&self, number: u64, ok: bool, flushed: u64) -> Track
        ensures { result ≡ track_after number ok flushed self.now }
    {
        Track {
            written: number,
            good: ok,
            settled: self.settled_number(flushed),
        }
    }
}

// The call with this number, in the tracks and in the number of the last successful flush.
fn step(tracks: &mut Vec<Track>, flushed: u64, number: u64, call: &Made) -> u64
    requires { IsCallOf (length tracks.old.items) (call_of call.now) }
    ensures tracks { tracks.new.items
        ≡ tracks_after (call_of call.now) number flushed tracks.old.items }
    ensures flushed { result ≡ flushed_after (call_of call.now) number flushed }
{
    match call {
        Made::Write { at, ok, .. } => {
            let track = tracks[*at as usize];
            tracks[*at as usize] = track.after_write(number, *ok, flushed);
            flushed
        }
        Made::Flush { ok } => { if *ok { number } else { flushed } }
    }
}

// The tracks after the first `moment` calls, and the number of the last successful flush among
// them.
fn follow_calls(tracks: &mut Vec<Track>, calls: &[Made], moment: usize) -> u64
    requires fresh { tracks.old.items ≡ replicate (length tracks.old.items) fresh }
    requires calls { AllCallsOf (length tracks.old.items) (map call_of calls.now) }
    requires moment { moment ≤ length calls.now }
    ensures len { length tracks.new.items ≡ length tracks.old.items }
    ensures flushed { result ≤ moment }
    ensures tracked { TrackedAfter (map call_of calls.now) moment result tracks.new.items }
{
    let mut flushed = 0;
    for index in 0..moment {
        flushed = step(tracks, flushed, index as u64 + 1, &calls[index]);
    }
    flushed
}

// The next call counts if it is a write.
fn follow_next(tracks: &mut Vec<Track>, calls: &[Made], moment: usize, flushed: u64)
    requires calls { AllCallsOf (length tracks.old.items) (map call_of calls.now) }
    requires flushed { flushed ≤ moment }
    requires moment { moment ≤ length calls.now }
    requires tracked { TrackedAfter (map call_of calls.now) moment flushed tracks.old.items }
    ensures len { length tracks.new.items ≡ length tracks.old.items }
    ensures tracked { TrackedAt (map call_of calls.now) moment flushed tracks.new.items }
{
    if moment == calls.len() {
        return;
    }
    let call = &calls[moment];
    if call.is_write() {
        step(tracks, flushed, moment as u64 + 1, call);
    }
}

/// The tracks at the moment, and the number of the last successful flush before it. It costs the
/// number of the calls.
pub fn follow(tracks: &mut Vec<Track>, calls: &[Made], moment: usize) -> u64
    requires fresh { tracks.old.items ≡ replicate (length tracks.old.items) fresh }
    requires calls { AllCallsOf (length tracks.old.items) (map call_of calls.now) }
    requires moment { moment ≤ length calls.now }
    ensures len { length tracks.new.items ≡ length tracks.old.items }
    ensures tracked { TrackedAt (map call_of calls.now) moment result tracks.new.items }
{
    let flushed = follow_calls(tracks, calls, moment);
    follow_next(tracks, calls, moment, flushed);
    flushed
}
