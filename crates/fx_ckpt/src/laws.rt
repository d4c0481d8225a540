//! What stays of a superblock to come while the log goes on: a function that does nothing, whose
//! contract callers cite.
ghost use Rattle.std.specs.Prelude.{◌≡◌, ℕ, List, ◌++◌};
ghost use Rattle.fx_journal.specs.Ring.{Queued, first_chain};
ghost use Rattle.fx_jblock.specs.declared.Start.{Start};
ghost use Rattle.fx_log.specs.Log.{LogHead};
ghost use Rattle.fx_supers.specs.Supers.{Origin, SuperCut};
ghost use Rattle.fx_supers.specs.SessionLog.{IsStartOf, MayClose, MayPut, SessionLog, closed_session, flushed_session, written_session};

/// Blocks may be closed, written and flushed between `begin` and `put_super`: the start that `begin`
/// was given stays one of the log, and a superblock that might be put before may be put still.
pub fn put_lasts_law()
    ensures start { (head : LogHead) (blocks more : List Queued) (chain later : ℕ) (from : Origin)
        (start : Start) → first_chain more later ≡ chain → IsStartOf head blocks chain from start
        → IsStartOf head (blocks ++ more) later from start }
    ensures closed { (log : SessionLog) (closed : List Queued) (chain : ℕ) (text : List ℕ)
        (cut : SuperCut) → MayClose log closed chain → MayPut log cut
        → MayPut (closed_session log closed chain text) cut }
    ensures written { (log : SessionLog) (cut : SuperCut) → MayPut log cut
        → MayPut (written_session log) cut }
    ensures flushed { (log : SessionLog) (cut : SuperCut) → MayPut log cut
        → MayPut (flushed_session log) cut }
{}
