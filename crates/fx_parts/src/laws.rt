//! Laws of the shared state, for those who prove. The functions do nothing.
ghost use Rattle.std.specs.Prelude.{◌≡◌, ◌≢◌, ◌⊎◌, ℕ, ◌+◌, ◌<◌, ◌≤◌, List, [], ◌∷◌, ◌++◌, None, Some, slice_get, false, true};
ghost use Rattle.std.specs.FinMap as finite;
ghost use Rattle.fx_item.specs.Item.{ChildKey, PlainItem};
ghost use Rattle.fx_item.specs.declared.lock.LockKey.{LockKey};
ghost use Rattle.fx_item.specs.declared.lock.Mode.{Mode};
ghost use Rattle.fx_item.specs.declared.lock.Mode.TheVariants.{Change};
ghost use Rattle.fx_keys.specs.Conflict.{are_conflicting};
ghost use Rattle.fx_keys.specs.Table.{HasSeatFor, IsAboveKeysOf, IsNextToRaise, mode_of, room_of};
ghost use Rattle.fx_plain.specs.Bare.{bare};
ghost use Rattle.fx_plain.specs.Node.{empty_dir};
ghost use Rattle.fx_plain.specs.Table.{do_step};
ghost use Rattle.fx_plain.specs.Tree.{Tree};
ghost use Rattle.fx_plain.specs.declared.step.Step.{Step};
ghost use Rattle.fx_history.specs.declared.entry.Entry.{Entry};
ghost use Rattle.fx_history.specs.History.{tree_at};
ghost use Rattle.fx_namespace.specs.Nodes.{NodeId, kind_of, object_kind};
ghost use Rattle.fx_plain.specs.declared.kind.Kind.{Kind};
ghost use Rattle.fx_events.specs.Ends.{Committed, EndedAt, Ending, IsEndOf, IsEntryOf, SentRequest};
ghost use Rattle.fx_events.specs.Lines.{AreEnds, ends_in_commit};
ghost use Rattle.fx_events.specs.Notes.{Commits, Mounted, entries_in, tree_in};
ghost use Rattle.fx_parts.specs.Example.{making_events};
ghost use Rattle.fx_parts.specs.Live.{AgreeAll, AgreeAt, IsNodeThere, IsUnusedNode, LiveMap, MakesNames, live_in_lists, name_map};
ghost use Rattle.fx_parts.specs.Parts.{Grant, IsGivenNode, IsNotGiven, IsPartOf, Part, Reservation, SharedState, live_now, number_now};
ghost use Rattle.fx_parts.specs.Plans.{DoesStep, IsChangeable, IsCommitBacked, IsOnPath, IsPathOf, IsPlanKey, IsPlanOf, IsPlannedCommit, IsUpkeepCommit, LooksAt};
ghost use Rattle.fx_parts.specs.Sound.{IsSharedSound};
ghost use Rattle.fx_parts.specs.Happening.{Commit, HasPartWhere, IsBetween, IsClientCommit, MayAsk, MayHappen, MayRaise, RunsTo, SharedEvent, StateGoesOn, actor_of, after_event, is_commit_event, opened_state, point_shown};

/// The state right after a mount is sound. One event: where it may happen on a sound state, the state
/// after it is sound. Every other number's part is as it was; the notes that were there still begin
/// the notes, and neither the last number nor what was given out falls. An event that is no commit
/// leaves what stands.
pub fn event_laws()
    ensures first { (mounted : Mounted) (lists : List (List PlainItem)) (ids stores faults : ℕ)
        → MakesNames (live_in_lists lists) mounted.tree → 1 ≤ ids → 1 ≤ stores
        → ((node : NodeId) → IsNotGiven ids stores node
        → IsUnusedNode (live_in_lists lists) node)
        → IsSharedSound MakesNames (opened_state mounted lists ids stores faults) }
    ensures sound { (s : SharedState) (event : SharedEvent) → IsSharedSound MakesNames s
        → MayHappen MakesNames s event → IsSharedSound MakesNames (after_event s event) }
    ensures others { (s : SharedState) (event : SharedEvent) (who : ℕ) → actor_of event ≢ Some who
        → finite.get (after_event s event).parts who ≡ finite.get s.parts who }
    ensures goes_on { (s : SharedState) (event : SharedEvent)
        → StateGoesOn s (after_event s event) }
    ensures items { (s : SharedState) (event : SharedEvent) → MayHappen MakesNames s event
        → is_commit_event event ≡ false → AgreeAll (live_now s) (live_now (after_event s event)) }
{}

/// Events that follow one another: the state stays sound and goes on. A number that has none of them
/// keeps its part, and the nodes that are there under the keys that it holds stay as they are. The
/// tree at each number that there was stays what it was, and an end of a line that was right at one
/// stays right. Each event shows its client a number between those before and after the run, above
/// the former where it is a commit. No event changes the kind of an Object that was there, and where
/// one was taken away none comes anew under its key.
pub fn run_laws()
    ensures sound { (s : SharedState) (events : List SharedEvent) (t : SharedState)
        → IsSharedSound MakesNames s → RunsTo MakesNames s events t → IsSharedSound MakesNames t }
    ensures goes_on { (s : SharedState) (events : List SharedEvent) (t : SharedState)
        → RunsTo MakesNames s events t → StateGoesOn s t }
    ensures others { (s : SharedState) (events : List SharedEvent) (t : SharedState) (who : ℕ)
        → RunsTo MakesNames s events t
        → ((i : ℕ) (event : SharedEvent) → slice_get events i ≡ Some event
        → actor_of event ≢ Some who)
        → finite.get t.parts who ≡ finite.get s.parts who }
    ensures held { (s : SharedState) (events : List SharedEvent) (t : SharedState) (who : ℕ)
        (part : Part) (key : LockKey) (grant : Grant) → IsSharedSound MakesNames s
        → IsPartOf s who part → finite.get part.grants key ≡ Some grant
        → IsNodeThere (live_now s) key → RunsTo MakesNames s events t
        → ((i : ℕ) (event : SharedEvent) → slice_get events i ≡ Some event
        → actor_of event ≢ Some who)
        → AgreeAt key (live_now s) (live_now t) }
    ensures trees { (s : SharedState) (events : List SharedEvent) (t : SharedState) (number : ℕ)
        → RunsTo MakesNames s events t → number ≤ number_now s
        → tree_at t.mounted.tree (entries_in t.notes) number
        ≡ tree_at s.mounted.tree (entries_in s.notes) number }
    ensures ends { (s : SharedState) (events : List SharedEvent) (t : SharedState)
        (sent : SentRequest) (point : ℕ) (ending : Ending) → RunsTo MakesNames s events t
        → point ≤ number_now s → IsEndOf s.mounted s.notes sent point ending
        → IsEndOf t.mounted t.notes sent point ending }
    ensures points { (s : SharedState) (before : List SharedEvent) (t : SharedState)
        (event : SharedEvent) (later : List SharedEvent) (u : SharedState) (point : ℕ)
        → RunsTo MakesNames s before t → MayHappen MakesNames t event
        → RunsTo MakesNames (after_event t event) later u → point_shown t event ≡ Some point
        → IsBetween (number_now s) (number_now u) (is_commit_event event) point }
    ensures kinds { (s : SharedState) (events : List SharedEvent) (t : SharedState)
        (node : NodeId) (kind other : Kind) → IsSharedSound MakesNames s
        → RunsTo MakesNames s events t → object_kind (name_map (live_now s)) node ≡ Some kind
        → object_kind (name_map (live_now t)) node ≡ Some other → other ≡ kind }
    ensures gone { (s : SharedState) (before : List SharedEvent) (t : SharedState)
        (later : List SharedEvent) (u : SharedState) (node : NodeId) (kind : Kind)
        → IsSharedSound MakesNames s → RunsTo MakesNames s before t → RunsTo MakesNames t later u
        → object_kind (name_map (live_now s)) node ≡ Some kind
        → object_kind (name_map (live_now t)) node ≡ None
        → object_kind (name_map (live_now u)) node ≡ None }
{}

/// A step that was planned over one map and whose keys agree is planned, with the same items, over
/// the other. Where all nodes agree that its path meets, a step is answered alike, or refused for the
/// same reason, on both trees of names; what files hold is not of them. A planned step is done on the
/// tree that the items make, and its items make the tree after it, where the nodes that were given
/// have no item yet.
pub fn plan_laws()
    ensures kept { (then_live now : LiveMap) (step : Step) (r : Reservation)
        (items : List PlainItem)
        → ((node : NodeId) (mode : Mode)
        → IsPlanKey (name_map then_live) step node mode → AgreeAt node then_live now)
        → IsPlanOf (name_map then_live) r step items → IsPlanOf (name_map now) r step items }
    ensures looks { (then_live now : LiveMap) (before after : Tree) (step : Step)
        (path : List (List ℕ)) → MakesNames then_live before → MakesNames now after
        → IsPathOf step path ⊎ LooksAt step path
        → ((node : NodeId) → IsOnPath (name_map then_live) path node
        → AgreeAt node then_live now)
        → (do_step (bare after) step).0 ≡ (do_step (bare before) step).0 }
    ensures does { (live : LiveMap) (tree : Tree) (r : Reservation) (step : Step)
        (items : List PlainItem) → MakesNames live tree → 1 ≤ r.id → 1 ≤ r.store
        → ((node : NodeId) → IsGivenNode r node → IsUnusedNode live node)
        → IsPlanOf (name_map live) r step items → DoesStep live tree step items }
{}

/// What a commit asks of the part of its number alone suffices: a step that was planned over one of
/// its snapshots, whose keys are held since then, may be committed as the next entry, and the tree
/// after it is the one that the step makes of the tree now. So does what a commit of upkeep asks,
/// whose items leave the names of a snapshot and are of nodes alone whose raised keys are held since
/// then: it may happen, and leaves the tree. A commit leaves each node that its number may not
/// change, and one of a planned step the kind of each that is there.
pub fn commit_laws()
    ensures may { (s : SharedState) (who : ℕ) (part : Part) (entry : Entry) (items : List PlainItem)
        → IsSharedSound MakesNames s → IsPartOf s who part → IsPlannedCommit part entry items
        → entry.number ≡ number_now s + 1 → entry.settled ≡ 0 → entry.who ≡ who
        → MayHappen MakesNames s (Commit who entry items) }
    ensures tree { (s : SharedState) (who : ℕ) (part : Part) (entry : Entry)
        (items : List PlainItem) → IsSharedSound MakesNames s → IsPartOf s who part
        → (planned : IsPlannedCommit part entry items) → entry.number ≡ number_now s + 1
        → tree_in s.mounted (s.notes ++ Commits entry ∷ [])
        ≡ (do_step (tree_in s.mounted s.notes) planned.step).1 }
    ensures kinds { (s : SharedState) (who : ℕ) (part : Part) (entry : Entry)
        (items : List PlainItem) (node : NodeId) (kind : Kind) → IsSharedSound MakesNames s
        → IsPartOf s who part → IsPlannedCommit part entry items
        → kind_of (name_map (live_now s)) node ≡ Some kind
        → kind_of (name_map (live_in_lists (items ∷ s.lists))) node ≡ Some kind }
    ensures upkeep { (s : SharedState) (who : ℕ) (part : Part) (entry : Entry)
        (items : List PlainItem) → IsSharedSound MakesNames s → IsPartOf s who part
        → IsUpkeepCommit part items → entry.number ≡ number_now s + 1 → entry.settled ≡ 0
        → entry.who ≡ 0 → entry.steps ≡ [] → MayHappen MakesNames s (Commit who entry items)
        × (tree_in s.mounted (s.notes ++ Commits entry ∷ []) ≡ tree_in s.mounted s.notes) }
    ensures spares { (lists : List (List PlainItem)) (part : Part) (items : List PlainItem)
        (backed : IsCommitBacked part items) (node : NodeId)
        → (IsChangeable part backed.snapshot node → ⊥)
        → AgreeAt node (live_in_lists lists) (live_in_lists (items ∷ lists)) }
{}

/// The ends of lines: none right after a mount, and one line after another in the order in which
/// they end. One more commits, by an event; or it ends at a number so far, no lower than the earlier
/// lines of its client. An event that is no commit of a client leaves them.
pub fn line_end_laws()
    ensures first { (mounted : Mounted) → AreEnds mounted [] [] [] }
    ensures stay { (s : SharedState) (event : SharedEvent) (sents : List SentRequest)
        (ends : List EndedAt) → AreEnds s.mounted s.notes sents ends
        → MayHappen MakesNames s event → (IsClientCommit event → ⊥)
        → AreEnds (after_event s event).mounted (after_event s event).notes sents ends }
    ensures commits { (s : SharedState) (who : ℕ) (items : List PlainItem)
        (sents : List SentRequest) (ends : List EndedAt) (sent : SentRequest) (entry : Entry)
        → AreEnds s.mounted s.notes sents ends → MayHappen MakesNames s (Commit who entry items)
        → IsEntryOf sent entry.number entry
        → AreEnds s.mounted (s.notes ++ Commits entry ∷ []) (sents ++ sent ∷ [])
        (ends ++ record { at = entry.number; ending = Committed } ∷ []) }
    ensures looks { (s : SharedState) (sents : List SentRequest) (ends : List EndedAt)
        (sent : SentRequest) (end : EndedAt) → AreEnds s.mounted s.notes sents ends
        → IsEndOf s.mounted s.notes sent end.at end.ending → s.mounted.kept ≤ end.at
        → end.at ≤ number_now s
        → ((i : ℕ) (former : SentRequest) (before : EndedAt) → slice_get sents i ≡ Some former
        → slice_get ends i ≡ Some before → former.client ≡ sent.client
        → (before.at ≤ end.at) × (ends_in_commit end.ending ≡ true → before.at < end.at))
        → AreEnds s.mounted s.notes (sents ++ sent ∷ []) (ends ++ end ∷ []) }
{}

/// The key table and the parts: what is held by the one is held by the other, no two numbers hold a
/// key in modes that conflict, and what the table asks of its calls follows from the part.
pub fn key_laws()
    ensures holder { (s : SharedState) (who : ℕ) (key : LockKey) (mode : Mode)
        → IsSharedSound MakesNames s → mode_of s.table who key ≡ Some mode
        → HasPartWhere s who (λ part. (grant : Grant)
        × (finite.get part.grants key ≡ Some grant) × (grant.mode ≡ mode)) }
    ensures apart { (s : SharedState) (who other : ℕ) (part its : Part) (key : LockKey)
        (grant held : Grant) → IsSharedSound MakesNames s → who ≢ other → IsPartOf s who part
        → IsPartOf s other its → finite.get part.grants key ≡ Some grant
        → finite.get its.grants key ≡ Some held
        → are_conflicting grant.mode held.mode ≢ true }
    ensures seat { (s : SharedState) (who : ℕ) (part : Part) → IsSharedSound MakesNames s
        → IsPartOf s who part → HasSeatFor s.table who }
    ensures ask { (s : SharedState) (who : ℕ) (part : Part) (key : LockKey) (mode : Mode)
        → IsSharedSound MakesNames s → IsPartOf s who part → MayAsk key mode part
        → (0 < room_of s.table who) × IsAboveKeysOf s.table who key }
    ensures raise { (s : SharedState) (who : ℕ) (part : Part) (key : LockKey)
        → IsSharedSound MakesNames s → IsPartOf s who part → MayRaise key part
        → (mode_of s.table who key ≡ Some Change) × IsNextToRaise s.table who key }
{}

/// The events are of use: right after a mount number 1 makes a directory in the root, where the name
/// is free, by seven events, each of which may happen; the tree is then the one that was found with
/// the directory.
pub fn example_law()
    ensures { (mounted : Mounted) (lists : List (List PlainItem)) (ids stores faults : ℕ)
        (name : List ℕ) → IsSharedSound MakesNames (opened_state mounted lists ids stores faults)
        → name_map (live_in_lists lists) (ChildKey 0 0 name) ≡ None
        → (t : SharedState) × RunsTo MakesNames (opened_state mounted lists ids stores faults)
        (making_events mounted stores name) t
        × (tree_in t.mounted t.notes ≡ finite.insert mounted.tree (name ∷ []) empty_dir) }
{}
