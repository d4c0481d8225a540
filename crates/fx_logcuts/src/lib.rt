//! Where a superblock cuts the blocks and the commits of a log at once, and which commits a stream
//! from there leaves.
//!
//! Definitions and their laws alone: the functions do nothing.
#![tactic(auto)]

ghost use Rattle.std.specs.Prelude.{◌≡◌, ◌++◌, ◌+◌, ◌<◌, ◌≤◌, ◌^◌, [], ℕ, List, drop, length, take};
ghost use Rattle.fx_item.specs.Item.{PlainItem};
ghost use Rattle.fx_record.specs.Commits.{commits_bytes};
ghost use Rattle.fx_journal.specs.Ring.{Queued, texts};
ghost use Rattle.fx_log.specs.Ring.{as_stream};
ghost use Rattle.fx_supers.specs.SessionLog.{IsNoEarlier};
ghost use Rattle.fx_supers.specs.Supers.{SuperCut};
ghost use Rattle.fx_logcuts.specs.Cuts.{AreAppended, CutsAt, IsCutSuper, ShowsCommits};

/// After all that was appended, with nothing unfinished, there is a cut. A cut stays one while blocks
/// are closed and commits are made, and past it lie just the commits after it. A later cut is behind no
/// fewer commits; so a superblock whose stream begins no earlier has no lower base.
pub fn cut_laws()
    ensures now { (opened : List ℕ) (last : ℕ) (blocks : List Queued)
        (commits : List (List PlainItem)) → AreAppended opened last blocks [] commits →
        CutsAt opened last blocks commits (length blocks) (length commits) }
    ensures stays { (opened : List ℕ) (last : ℕ) (blocks more : List Queued)
        (commits others : List (List PlainItem)) (n count : ℕ) →
        CutsAt opened last blocks commits n count →
        CutsAt opened last (blocks ++ more) (commits ++ others) n count }
    ensures past { (opened : List ℕ) (last : ℕ) (blocks : List Queued) (text : List ℕ)
        (commits : List (List PlainItem)) (n count : ℕ) →
        AreAppended opened last blocks text commits → CutsAt opened last blocks commits n count →
        texts (drop n blocks) ++ text ≡ commits_bytes (last + count) (drop count commits) }
    ensures rises { (opened : List ℕ) (last : ℕ) (blocks : List Queued)
        (commits : List (List PlainItem)) (n m count other : ℕ) →
        CutsAt opened last blocks commits n count → CutsAt opened last blocks commits m other →
        n ≤ m → count ≤ other }
    ensures bases { (opened : List ℕ) (last : ℕ) (blocks : List Queued)
        (commits : List (List PlainItem)) (former latter : SuperCut) →
        IsCutSuper opened last blocks commits former →
        IsCutSuper opened last blocks commits latter →
        IsNoEarlier former.origin latter.origin → former.super.base ≤ latter.super.base }
{}

/// The stream from a cut leaves the commits after it, as far as its blocks stand. Where the records of
/// the first `marks` commits lie in the first `settled` blocks, and these stand, they are kept: before
/// the cut or in the stream.
pub fn kept_from_cut()
    ensures kept { (opened : List ℕ) (last : ℕ) (blocks : List Queued) (text : List ℕ)
        (commits : List (List PlainItem)) (n count epoch k settled marks : ℕ) →
        AreAppended opened last blocks text commits → CutsAt opened last blocks commits n count →
        last + length commits < 2 ^ 64 → settled ≤ n + k → marks ≤ length commits →
        length opened + length (commits_bytes last (take marks commits))
        ≤ length (texts (take settled blocks)) →
        ShowsCommits (last + count) (as_stream epoch (take k (drop n blocks))) commits count marks }
{}
