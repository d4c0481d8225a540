//! Laws of the shared state and its journal, for those who prove. The functions do nothing.
ghost use Rattle.std.specs.Prelude.{◌≡◌, ℕ, ◌+◌, ◌<◌, ◌≤◌, ◌^◌, IfSome, List, [], length, reverse};
ghost use Rattle.fx_item.specs.Item.{PlainItem};
ghost use Rattle.fx_item.specs.Look.{next_id, next_id_after, next_store, next_store_after};
ghost use Rattle.fx_plain.specs.Bare.{bare};
ghost use Rattle.fx_disk.specs.Seen.{DiskSeen};
ghost use Rattle.fx_pool.specs.Region.{Region};
ghost use Rattle.fx_super.specs.Super.{Fields, KeepsRules};
ghost use Rattle.fx_layerset.specs.Levels.{SetLevels};
ghost use Rattle.fx_log.specs.Chosen.{layers_of, next_generation};
ghost use Rattle.fx_numbers.specs.State.{lists_in};
ghost use Rattle.fx_numbers.specs.declared.given.Found.{Found};
ghost use Rattle.fx_core.specs.Core.{BeginsCore, IsFirstDisk, IsFirstRing, IsFoundFirst};
ghost use Rattle.fx_core.specs.Tail.{HasRingBuffers};
ghost use Rattle.fx_jblock.specs.declared.Start.{Start};
ghost use Rattle.fx_journal.specs.Ring.{Queued, RingState};
ghost use Rattle.fx_journal.specs.declared.stream.StreamBlock.{StreamBlock};
ghost use Rattle.fx_supers.specs.Supers.{Supers};
ghost use Rattle.fx_history.specs.declared.entry.Entry.{Entry};
ghost use Rattle.fx_record.specs.Commits.{IsCommit};
ghost use Rattle.fx_events.specs.Notes.{Mounted, history_in};
ghost use Rattle.fx_image.specs.Journal.{IsJournal, IsNextCommit, Journal, journal_id, journal_store, max_given, new_journal, opening_id, opening_store, with_commit, with_settled};
ghost use Rattle.fx_image.specs.Mounted.{IsMounted};
ghost use Rattle.fx_image.specs.Prefix.{KeepsPrefix};
ghost use Rattle.fx_image.specs.Standing.{HasSessionRoom, StandsFor, Transactions, items_after, lists_of};
ghost use Rattle.fx_parts.specs.Live.{MakesNames, live_in_lists};
ghost use Rattle.fx_parts.specs.Parts.{IsPartOf, Part, SharedState};
ghost use Rattle.fx_parts.specs.Sound.{IsSharedSound};
ghost use Rattle.fx_parts.specs.Happening.{Commit, Mark, MayHappen, SharedEvent, after_event, opened_state};
ghost use Rattle.fx_core.specs.Logged.{IsLogged, IsWritable};
ghost use Rattle.fx_core.specs.Events.{LeavesJournal};

/// What was read of an image, as the state right after a mount and as the journal that goes on from
/// there: the journal has the commits of the state, none; and the items make the tree.
pub fn opening_laws()
    ensures logged { (calls size from : ℕ) (mounted : Mounted) (super : Fields)
        (read : List StreamBlock) (place : Start) (txns : Transactions) (supers : Supers)
        (ids stores faults : ℕ) → next_id_after super.next_id (lists_of txns) ≤ ids
        → next_store_after super.next_store (lists_of txns) ≤ stores → IsLogged calls
        (opened_state mounted (reverse (lists_of txns)) ids stores faults)
        (new_journal size from mounted.tree mounted.kept super read place txns supers) }
    ensures makes { (mounted : Mounted) (txns : Transactions)
        → StandsFor (items_after txns) mounted.tree → mounted.tree ≡ bare mounted.tree
        → MakesNames (live_in_lists (reverse (lists_of txns))) mounted.tree }
{
    fx_item::after_all_law();
}

/// A commit that may happen is the next one of the journal, whose items are those of a record and use
/// no number that was not given out; and the journal has it afterwards.
pub fn commit_laws()
    ensures items { (s : SharedState) (who : ℕ) (part : Part) (entry : Entry)
        (items : List PlainItem) → IsSharedSound MakesNames s → IsPartOf s who part
        → IsWritable part entry items → s.ids ≤ 2 ^ 63 → s.stores ≤ 2 ^ 31 → IsCommit items }
    ensures within { (s : SharedState) (who : ℕ) (part : Part) (entry : Entry)
        (items : List PlainItem) (id store : ℕ) → IsSharedSound MakesNames s
        → IsPartOf s who part → IsWritable part entry items → id ≤ s.ids → store ≤ s.stores
        → s.ids ≤ 2 ^ 63 → s.stores ≤ 2 ^ 31
        → (next_id id items ≤ s.ids) × (next_store store items ≤ s.stores) }
    ensures next { (calls : ℕ) (s : SharedState) (j : Journal) (who : ℕ) (entry : Entry)
        (items : List PlainItem) → IsSharedSound MakesNames s → IsLogged calls s j
        → IsJournal j calls → MayHappen MakesNames s (Commit who entry items) → IsCommit items
        → length j.commits.history < 2 ^ 20
        → next_id (journal_id j) items ≤ opening_id j + max_given
        → next_store (journal_store j) items ≤ opening_store j + max_given
        → IsNextCommit j entry items }
    ensures logged { (calls : ℕ) (s : SharedState) (j : Journal) (who : ℕ) (entry : Entry)
        (items : List PlainItem) (closed : List Queued) (chain : ℕ) (text : List ℕ)
        → IsSharedSound MakesNames s → IsLogged calls s j → IsJournal j calls
        → MayHappen MakesNames s (Commit who entry items)
        → next_id (journal_id j) items ≤ s.ids → next_store (journal_store j) items ≤ s.stores
        → IsLogged calls (after_event s (Commit who entry items))
        (with_commit j entry items closed chain text) }
{}

/// Every other event leaves the commits to the journal, and so do further calls of the disk; a flush
/// settles the same commits in both. What a stop leaves of the journal's disk is told by
/// the state: at every moment since the mount, the tree after a prefix of the history that its notes
/// make.
pub fn logged_laws()
    ensures leaves { (calls : ℕ) (s : SharedState) (j : Journal) (event : SharedEvent)
        → IsLogged calls s j → LeavesJournal event → MayHappen MakesNames s event
        → IsLogged calls (after_event s event) j }
    ensures later { (calls more : ℕ) (s : SharedState) (j : Journal) → calls ≤ more
        → IsLogged calls s j → IsLogged more s j }
    ensures settled { (calls done count : ℕ) (s : SharedState) (j : Journal)
        → IsSharedSound MakesNames s → IsLogged calls s j → IsLogged done
        (after_event s (Mark (s.mounted.kept + count) done)) (with_settled done count j) }
    ensures images { (calls : ℕ) (s : SharedState) (j : Journal) (seen : DiskSeen)
        (ring : RingState) (region : Region) → IsLogged calls s j
        → IsMounted j seen ring region → IfSome seen.told (KeepsPrefix j.log.size j.log.from
        s.mounted.tree s.mounted.kept (history_in s.notes)) }
{}

/// A core can begin on an image without transactions: under any superblock without layers, with the
/// ring that goes on from its place and no item, on a disk that has the journal that begins there, or
/// tells nothing of its bytes.
pub fn first_core_law()
    ensures { (seen : DiskSeen) (f : Fields) (found : Found) (levels : SetLevels)
        (ring : RingState) (pool : Region) → IsFirstDisk seen f → KeepsRules f
        → KeepsRules (next_generation f) → f.blocks ≡ seen.size → layers_of f ≡ []
        → HasSessionRoom f [] → IsFoundFirst seen f found → lists_in levels ≡ []
        → IsFirstRing f ring → HasRingBuffers ring pool
        → BeginsCore seen seen.calls [] found levels ring pool }
{}
