//! The superblocks and the ring of a mounted disk over its checkpoints.
//!
//! Definitions and their laws alone: the functions do nothing.
#![tactic(auto)]

ghost use Rattle.std.specs.Prelude.{◌≡◌, ◌+◌, ◌≤◌, ◌++◌, ℕ, Bool, List, [], None, Some, IfSome, drop, length, slice_get, true};
ghost use Rattle.fx_disk.specs.Began.{BeganAs};
ghost use Rattle.fx_disk.specs.Record.{LeftNow, cell_after, cell_now};
ghost use Rattle.fx_disk.specs.Seen.{DiskSeen, HasFlushed, HasWritten};
ghost use Rattle.fx_disk.specs.Steps.{IsRecordOf};
ghost use Rattle.fx_super.specs.Chosen.{block_number, other};
ghost use Rattle.fx_super.specs.Super.{KeepsRules, super_block};
ghost use Rattle.fx_super.specs.declared.choice.Which.{Which};
ghost use Rattle.fx_journal.specs.Ring.{Appended, HoldsQueue, IsRing, Queued, RingState, freed_queued, next_block, next_start, padded, padding, without_before, without_first};
ghost use Rattle.fx_pool.specs.Region.{Region};
ghost use Rattle.fx_log.specs.Chance.{NotByChance};
ghost use Rattle.fx_log.specs.Chosen.{ChoosesSuper, next_generation};
ghost use Rattle.fx_log.specs.Log.{IsHead, LogHead};
ghost use Rattle.fx_log.specs.Ring.{bytes_in, place_in};
ghost use Rattle.fx_supers.specs.InMemory.{AppendsTo, IsContinued, IsNextBlock, IsRingFor};
ghost use Rattle.fx_supers.specs.SessionLog.{HoldsLog, IsMade, IsReadFrom, IsSessionLog, IsStartOf, MayClose, MayPut, SessionLog, closed_session, epoch_of, finished_session, new_session, put_session, synced_session, tried_session, written_session};
ghost use Rattle.fx_supers.specs.Shown.{ShowsLog};
ghost use Rattle.fx_supers.specs.Supers.{SuperCut};

/// A disk has the log that was read from it, before any call is made, and the superblock of the next
/// generation may be written then.
pub fn log_of_mount()
    ensures new { (seen : DiskSeen) (head : LogHead) (slot : Which) →
        IfSome seen.told (IsRecordOf seen.size seen.calls) →
        IsHead seen.size head.super head.read head.place → length head.read ≤ head.super.ring →
        IfSome seen.told (IsReadFrom head slot) →
        HoldsLog (new_session seen.size seen.calls head slot) seen }
    ensures raise { (size from : ℕ) (head : LogHead) (slot : Which) →
        IsHead size head.super head.read head.place → KeepsRules (next_generation head.super) →
        MayPut (new_session size from head slot)
        (record { super = next_generation head.super; origin = None }) }
{}

/// A disk has its log over the blocks that are closed, which wants no call; over the write of the
/// next block and a flush, by their answers; over a flush that is taken to settle nothing; and over a
/// write past the ring. A call that was not made is one that failed.
pub fn log_over_ring()
    ensures closed { (log : SessionLog) (seen : DiskSeen) (more : List Queued) (chain : ℕ)
        (text : List ℕ) → HoldsLog log seen → MayClose log more chain →
        HoldsLog (closed_session log more chain text) seen }
    ensures tried { (log : SessionLog) (before after : DiskSeen) (q : Queued) (ok : Bool) →
        HoldsLog log before → slice_get log.tail.blocks log.tail.written ≡ Some q →
        HasWritten before after (place_in log.head.super.ring q) (bytes_in (epoch_of log.head) q)
        ok → HoldsLog (tried_session ok log) after }
    ensures synced { (log : SessionLog) (before after : DiskSeen) (ok : Bool) →
        HoldsLog log before → HasFlushed before after ok → HoldsLog (synced_session ok log) after }
    ensures stays { (log : SessionLog) (before after : DiskSeen) (ok : Bool) →
        HoldsLog log before → HasFlushed before after ok → HoldsLog log after }
    ensures elsewhere { (log : SessionLog) (before after : DiskSeen) (at : ℕ) (bytes : List ℕ)
        (ok : Bool) → HoldsLog log before → log.head.super.ring + 2 ≤ at →
        HasWritten before after at bytes ok → HoldsLog log after }
{}

/// A disk has its log over the write of a superblock to the block that is not the current one's, good
/// or failed, and over the good flush after a good write of it. Where that flush fails the log stays
/// (`stays` of [`log_over_ring`]).
pub fn log_over_supers()
    ensures put { (log : SessionLog) (before after : DiskSeen) (cut : SuperCut) (ok : Bool) →
        HoldsLog log before → MayPut log cut →
        HasWritten before after (block_number (other log.supers.slot)) (super_block cut.super) ok →
        HoldsLog (put_session log cut ok) after }
    ensures finished { (log : SessionLog) (before after : DiskSeen) (cut : SuperCut) →
        HoldsLog log before → IsMade log cut → HasFlushed before after true →
        HoldsLog (finished_session log cut) after }
{}

/// Each image that a stop leaves now, and that is not there by chance, has one of the superblocks
/// chosen, and its stream from there is a cut of the blocks, with all that were settled. Where no
/// superblock is coming each image has the current one chosen, by chance or not.
pub fn log_in_images()
    ensures shows { (log : SessionLog) (seen : DiskSeen) → HoldsLog log seen →
        IfSome seen.told (λ r. (first left : List (List ℕ)) → BeganAs r log.from first →
        LeftNow r left →
        NotByChance (cell_after r log.from) (cell_now r) log.head.super.generation left →
        ShowsLog log left) }
    ensures current { (log : SessionLog) (seen : DiskSeen) → HoldsLog log seen →
        log.supers.coming ≡ None →
        IfSome seen.told (λ r. (first left : List (List ℕ)) → BeganAs r log.from first →
        LeftNow r left → ChoosesSuper log.supers.current.super left) }
{}

/// The ring in memory goes with its log: over bytes that are appended and a block that is padded, with
/// the blocks that these close; over the first block that leaves its queue; and over a superblock that
/// came, before whose start blocks are given up. Its next place, once nothing is unfinished, is a start
/// that a superblock may name.
pub fn log_in_memory()
    ensures appended { (log : SessionLog) (ring new : RingState) (region pool : Region)
        (bytes : List ℕ) → IsSessionLog log → IsRingFor log ring region →
        epoch_of log.head ≤ log.supers.current.super.generation →
        IsRing new → IsContinued ring new →
        (a : Appended ring new pool (drop log.tail.written log.tail.blocks) bytes) →
        AppendsTo log bytes a.blocks new.chain new.text ×
        IsRingFor (closed_session log a.blocks new.chain new.text) new pool }
    ensures padded { (log : SessionLog) (ring new : RingState) (region pool : Region) →
        IsSessionLog log → IsRingFor log ring region →
        epoch_of log.head ≤ log.supers.current.super.generation →
        IsRing new → new ≡ padded ring →
        HoldsQueue new pool (drop log.tail.written log.tail.blocks ++ padding ring) →
        AppendsTo log [] (padding ring) new.chain new.text ×
        IsRingFor (closed_session log (padding ring) new.chain new.text) new pool }
    ensures written { (log : SessionLog) (ring new : RingState) (region pool : Region) →
        IsSessionLog log → IsRingFor log ring region → new ≡ without_first ring →
        HoldsQueue new pool (drop 1 (drop log.tail.written log.tail.blocks)) →
        IsRingFor (written_session log) new pool }
    ensures freed { (log : SessionLog) (ring : RingState) (region pool : Region) (cut : SuperCut) →
        IsSessionLog log → IsRingFor log ring region → IsMade log cut →
        ((queue : List Queued) → HoldsQueue ring region queue →
        HoldsQueue (without_before ring cut.super.sequence) pool
        (drop (freed_queued ring cut.super.sequence) queue)) →
        IsRingFor (finished_session log cut) (without_before ring cut.super.sequence) pool }
    ensures start { (log : SessionLog) (ring : RingState) (region : Region) →
        IsSessionLog log → IsRingFor log ring region →
        IsStartOf log.head log.tail.blocks log.tail.chain (Some (length log.tail.blocks))
        (next_start ring) }
    ensures next { (log : SessionLog) (ring : RingState) (region : Region) (before sequence : ℕ) →
        IsSessionLog log → IsRingFor log ring region → next_block ring before ≡ Some sequence →
        IsNextBlock log ring sequence }
{}
