//! What the log of a mounted disk gives for what a stop leaves: images by their superblocks, rings and
//! layers.
//!
//! Definitions and their laws alone: the functions do nothing.
#![tactic(auto)]

ghost use Rattle.std.specs.Prelude.{◌≡◌, ◌⊎◌, ◌≤◌, ◌<◌, ◌+◌, ◌^◌, ◌∷◌, ◌++◌, ℕ, Bool, IfSome, List, Some, [], length, map};
ghost use Rattle.fx_disk.specs.Began.{BeganAs};
ghost use Rattle.fx_disk.specs.Record.{Cell, cell_after};
ghost use Rattle.fx_disk.specs.Seen.{DiskSeen};
ghost use Rattle.fx_contents.specs.Points.{Points};
ghost use Rattle.fx_log.specs.Chance.{NotByChance};
ghost use Rattle.fx_log.specs.Log.{IsWrittenOut, LogHead};
ghost use Rattle.fx_super.specs.declared.choice.Which.{Which};
ghost use Rattle.fx_journal.specs.Ring.{Queued};
ghost use Rattle.fx_item.specs.Item.{PlainItem};
ghost use Rattle.fx_record.specs.Commits.{IsCommit, commits_bytes, numbered};
ghost use Rattle.fx_record.specs.Record.{DiscardRecord, record_bytes};
ghost use Rattle.fx_record.specs.Txns.{IsTxns};
ghost use Rattle.fx_supers.specs.InMemory.{AppendsTo};
ghost use Rattle.fx_supers.specs.SessionLog.{HoldsLog, IsSessionLog, MayCome, SessionLog, closed_session, finished_session, flushed_session, new_session, put_session, written_session};
ghost use Rattle.fx_supers.specs.Supers.{SuperCut};
ghost use Rattle.fx_logcuts.specs.Cuts.{pieces_in};
ghost use Rattle.fx_kept.specs.Chance.{HasMeantForms};
ghost use Rattle.fx_uses.specs.Live.{txn_of};
ghost use Rattle.fx_uses.specs.Uses.{AreUses};
ghost use Rattle.fx_cuts.specs.Joined.{JoinedState, NumberedItems, with_based, with_entry};
ghost use Rattle.fx_cuts.specs.Images.{ShowsCuts};
ghost use Rattle.fx_cuts.specs.KeepsJoined.{ShowsFound};
ghost use Rattle.fx_shown.specs.Forms.{log_forms};
ghost use Rattle.fx_shown.specs.Meanings.{LayerReading, LayersSayOne, ShowsTxns, log_meanings};
ghost use Rattle.fx_shown.specs.LogTxns.{AreSoundFound, AreSoundNow, GoesOnFrom, HasLaterBase, HasLogTxns, HasMountBase, HaveBases, HaveMountBase, HaveNoLowerBase, IsBesideLog, IsDropping, LayersSayNow, LogTxns, committed_txns, dropped_txns, found_txns, newest_commit, last_kept};

/// That no superblock and no block of the ring makes sense by chance is the same said of the forms of
/// blocks and of the runs from the chosen superblock, with the generation that was chosen before.
pub fn chance_by_forms()
    ensures runs { (before now : ℕ → Cell) (generation : ℕ) (image : List (List ℕ)) →
        HasMeantForms log_forms before now generation image →
        NotByChance before now generation image }
    ensures forms { (before now : ℕ → Cell) (generation : ℕ) (image : List (List ℕ)) →
        NotByChance before now generation image →
        HasMeantForms log_forms before now generation image }
{}

/// What sums, layers and allocations say, which other layers define.
pub trait LayerReader {
    ghost says: { LayerReading };
}

/// An image shows one base count, one value at each point and one list of transactions, where layers say
/// one value.
pub fn one_shown<L: LayerReader>()
    ensures one { LayersSayOne L.says → (image : List (List ℕ)) (b c : ℕ) (p q : Points)
        (txns others : NumberedItems) → ShowsTxns L.says image b p txns →
        ShowsTxns L.says image c q others → (b ≡ c) × (p ≡ q) × (txns ≡ others) }
{}

/// A disk that has its log, and of which superblocks layers and allocations are as they should be: each
/// image left now shows a cut of the state's transactions, those that the mount kept and the commits
/// since, with all that are settled. That holds over checkpoints too.
pub fn cuts_by_log<L: LayerReader>()
    ensures cuts { (before : ℕ → Cell) (s : JoinedState) (log : SessionLog)
        (t : LogTxns) (marks : ℕ) (seen : DiskSeen) → HoldsLog log seen →
        IsBesideLog s log t marks → AreUses s.blocks →
        IfSome seen.told (λ r. (first : List (List ℕ)) → BeganAs r log.from first →
        ((b : ℕ) → cell_after r log.from b ≡ before b) → LayersSayNow L.says s log r →
        AreSoundNow (log_meanings L.says before log.head.super.generation) s r →
        ShowsCuts (log_meanings L.says before log.head.super.generation) s r) }
{}

/// While a mount drops transactions, before its first commit and before any checkpoint, each image left
/// now shows those that it keeps, or all that it found.
pub fn found_by_log<L: LayerReader>()
    ensures found { (before : ℕ → Cell) (s : JoinedState) (log : SessionLog)
        (t : LogTxns) (beyond : NumberedItems) (seen : DiskSeen) → HoldsLog log seen →
        HasLogTxns log t → IsDropping s log t beyond → HaveMountBase log → AreUses s.blocks →
        s.blocks.txns ≡ map txn_of s.txns →
        IfSome seen.told (λ r. (first : List (List ℕ)) → BeganAs r log.from first →
        ((b : ℕ) → cell_after r log.from b ≡ before b) → LayersSayNow L.says s log r →
        AreSoundFound (log_meanings L.says before log.head.super.generation) s beyond r →
        ShowsFound (log_meanings L.says before log.head.super.generation) s beyond r) }
{}

/// The state beside the log of a mount: with all that it found, before anything is appended; and with what
/// it keeps, once the record that drops the rest is appended, and settled.
pub fn state_of_mount()
    ensures found { (s : JoinedState) (size from : ℕ) (head : LogHead) (slot : Which) →
        IsTxns head.super.base (pieces_in head.read) s.txns →
        head.super.base + length s.txns < 2 ^ 64 → s.blocks.base ≡ head.super.base →
        s.blocks.settled ≤ head.super.base + length s.txns → s.based ≤ head.super.base →
        IsBesideLog s (new_session size from head slot) (found_txns s.txns) 0 }
    ensures dropped { (log : SessionLog) (kept beyond : NumberedItems) (closed : List Queued)
        (chain : ℕ) (text : List ℕ) → HasLogTxns log (found_txns (kept ++ beyond)) →
        AppendsTo log (record_bytes (DiscardRecord (log.head.super.base + length kept))) closed
        chain text → HasLogTxns (closed_session log closed chain text)
        (dropped_txns log.head.super.base kept beyond) }
    ensures settled { (s : JoinedState) (log : SessionLog) (t : LogTxns) → HasLogTxns log t →
        HaveBases s log t → HaveNoLowerBase s log → IsWrittenOut log.tail →
        s.blocks.base ≡ log.head.super.base →
        s.txns ≡ t.kept ++ numbered (last_kept log.head.super.base t) t.commits →
        s.blocks.settled ≤ last_kept log.head.super.base t + length t.commits →
        IsBesideLog s (flushed_session log) t (length t.commits) }
{}

/// It goes on with the log: over a commit, a block that is padded, the write of a block, and a flush. Where
/// all is written a flush may settle all commits.
pub fn state_over_ring()
    ensures committed { (s : JoinedState) (log : SessionLog) (t : LogTxns) (marks who : ℕ)
        (items : List PlainItem) (closed : List Queued) (chain : ℕ) (text : List ℕ) →
        IsBesideLog s log t marks → IsSessionLog log → IsCommit items →
        newest_commit log.head.super.base t + 1 < 2 ^ 64 →
        AppendsTo log (commits_bytes (newest_commit log.head.super.base t) (items ∷ [])) closed
        chain text → IsBesideLog (with_entry s who (newest_commit log.head.super.base t + 1) items)
        (closed_session log closed chain text) (committed_txns t items) marks }
    ensures closed { (s : JoinedState) (log : SessionLog) (t : LogTxns) (marks : ℕ)
        (closed : List Queued) (chain : ℕ) (text : List ℕ) → IsBesideLog s log t marks →
        IsSessionLog log → AppendsTo log [] closed chain text →
        IsBesideLog s (closed_session log closed chain text) t marks }
    ensures written { (s : JoinedState) (log : SessionLog) (t : LogTxns) (marks : ℕ) →
        IsBesideLog s log t marks → IsBesideLog s (written_session log) t marks }
    ensures flushed { (s : JoinedState) (log : SessionLog) (t : LogTxns) (marks : ℕ) →
        IsBesideLog s log t marks → IsSessionLog log →
        IsBesideLog s (flushed_session log) t marks }
    ensures settled { (s later : JoinedState) (log : SessionLog) (t : LogTxns) (marks : ℕ) →
        IsBesideLog s log t marks → IsWrittenOut log.tail → GoesOnFrom s later →
        later.blocks.settled ≤ newest_commit log.head.super.base t →
        IsBesideLog later (flushed_session log) t (length t.commits) }
{}

/// It goes on over a superblock that is written, or settled, which raises the base that no image left goes
/// below; and over what changes neither base count nor transactions. A superblock whose stream begins after
/// all that was appended has a later base. The base of the coming superblock is no lower than the last that
/// was settled, and flushed.
pub fn state_over_supers()
    ensures put { (s : JoinedState) (log : SessionLog) (t : LogTxns) (marks : ℕ) (cut : SuperCut)
        (ok : Bool) → IsBesideLog s log t marks →
        HasMountBase log cut ⊎ HasLaterBase s log t cut → MayCome log.supers.current cut →
        IsBesideLog s (put_session log cut ok) t marks }
    ensures finished { (s : JoinedState) (log : SessionLog) (t : LogTxns) (marks : ℕ)
        (cut : SuperCut) → IsBesideLog s log t marks → IsSessionLog log →
        log.supers.coming ≡ Some cut →
        IsBesideLog (with_based s cut.super.base) (finished_session log cut) t marks }
    ensures moved { (s later : JoinedState) (log : SessionLog) (t : LogTxns) (marks : ℕ) →
        IsBesideLog s log t marks → GoesOnFrom s later →
        later.blocks.settled ≤ last_kept log.head.super.base t + marks →
        IsBesideLog later log t marks }
    ensures later { (s : JoinedState) (log : SessionLog) (t : LogTxns) (cut : SuperCut) →
        HasLogTxns log t → log.tail.text ≡ [] → cut.origin ≡ Some (length log.tail.blocks) →
        cut.super.base ≡ newest_commit log.head.super.base t → cut.super.base ≤ s.blocks.firm →
        HasLaterBase s log t cut }
    ensures bounds { (s : JoinedState) (log : SessionLog) (t : LogTxns) (marks : ℕ)
        (cut : SuperCut) → IsBesideLog s log t marks → AreUses s.blocks →
        log.supers.coming ≡ Some cut →
        (s.based ≤ cut.super.base) × (cut.super.base ≤ s.blocks.firm) }
{}
