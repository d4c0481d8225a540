//! What a stop at any moment leaves, over each event. The functions do nothing.
ghost use Rattle.std.specs.Prelude.{◌≡◌, ◌∷◌, ◌++◌, ℕ, ◌+◌, ◌<◌, ◌≤◌, Bool, true, false, List, []};
ghost use Rattle.std.specs.Option.{IfSome};
ghost use Rattle.fx_item.specs.Item.{PlainItem};
ghost use Rattle.fx_disk.specs.Record.{DiskRecord, cell_after};
ghost use Rattle.fx_disk.specs.Steps.{IsRecordOf};
ghost use Rattle.fx_disk.specs.Always.{Always};
ghost use Rattle.fx_disk.specs.Seen.{DiskSeen, HasOnlyRead, HasWritten, HasFlushed};
ghost use Rattle.fx_plain.specs.Tree.{Tree};
ghost use Rattle.fx_uses.specs.Live.{txn_of};
ghost use Rattle.fx_uses.specs.Uses.{Free, Drawn, System, Aside, IsDrawnFor, last, bytes_now};
ghost use Rattle.fx_uses.specs.Events.{IsNextOf, with_use, with_stage, with_rollback, with_flushed};
ghost use Rattle.fx_uses.specs.Events.{with_mark, with_laid, with_layers_flushed, with_switch};
ghost use Rattle.fx_uses.specs.Events.{with_pin_ended, with_anew};
ghost use Rattle.fx_cuts.specs.Joined.{JoinedState, StandsAfter, HasLiveFiles, with_blocks, with_based};
ghost use Rattle.fx_cuts.specs.Joined.{with_entry};
ghost use Rattle.fx_cuts.specs.Images.{Mark, IsPrefixUpTo, LeavesPrefix, ShowsCuts};
ghost use Rattle.fx_cuts.specs.KeepsJoined.{KeepsState, HoldsTrees, KeepsJoined, HasTreesOf};

use crate::cuts::ImageReader;

/// It holds from the moment at which a mount found the state, where each image left then shows a cut. From
/// then on, at each moment each image that a stop leaves and in which nothing is there by chance keeps the
/// history up to some number: at least what the mount kept, and each mark that was made by the moment. Its
/// base count is at least the mount's, and that of each superblock that was settled by then: now, what is
/// settled, and the base of the last superblock that was.
pub fn joined_begins<W: ImageReader>()
    ensures begin { (trees : ℕ → Tree) (kept : ℕ) (s : JoinedState) (marks bases : List Mark)
        (seen : DiskSeen) → IfSome seen.told (IsRecordOf seen.size seen.calls) →
        KeepsState W.means s kept seen.calls seen.calls marks bases →
        IfSome seen.told (λ r. HoldsTrees W.means trees s r ×
        ((b : ℕ) → cell_after r seen.calls b ≡ W.means.before b) × ShowsCuts W.means s r) →
        KeepsJoined W.means trees kept seen.calls s marks bases seen }
    ensures always { (trees : ℕ → Tree) (kept from : ℕ) (s : JoinedState) (marks bases : List Mark)
        (seen : DiskSeen) → KeepsJoined W.means trees kept from s marks bases seen →
        IfSome seen.told (Always (LeavesPrefix W.means trees (last s.blocks) marks bases) from) }
    ensures least { (trees : ℕ → Tree) (kept from : ℕ) (s : JoinedState) (marks bases : List Mark)
        (seen : DiskSeen) → KeepsJoined W.means trees kept from s marks bases seen → (most m k : ℕ)
        (image : List (List ℕ)) → from ≤ m →
        (p : IsPrefixUpTo W.means trees most marks bases m image k) →
        (kept ≤ k) × (s.blocks.base ≤ p.base) }
    ensures now { (trees : ℕ → Tree) (kept from : ℕ) (s : JoinedState) (marks bases : List Mark)
        (seen : DiskSeen) → KeepsJoined W.means trees kept from s marks bases seen → (most m k : ℕ)
        (image : List (List ℕ)) → seen.calls ≤ m →
        (p : IsPrefixUpTo W.means trees most marks bases m image k) →
        (s.blocks.settled ≤ k) × (s.based ≤ p.base) }
{}

/// Over each call, good or failed, made or not, if each image left after it shows a cut. A block of the ring
/// and a superblock are blocks of the system. A good flush makes all firm; one with a mark settles the
/// transactions up to a number too.
pub fn joined_over_calls<W: ImageReader>()
    ensures read { (trees : ℕ → Tree) (kept from : ℕ) (s : JoinedState) (marks bases : List Mark)
        (before after : DiskSeen) → KeepsJoined W.means trees kept from s marks bases before →
        HasOnlyRead before after → KeepsJoined W.means trees kept from s marks bases after }
    ensures stage { (trees : ℕ → Tree) (kept from : ℕ) (s : JoinedState) (marks bases : List Mark)
        (before after : DiskSeen) → IfSome before.told (IsRecordOf before.size before.calls) →
        KeepsJoined W.means trees kept from s marks bases before → (ok : Bool) (who at : ℕ)
        (put : List ℕ) → at < before.size → IsDrawnFor who (s.blocks.uses at) →
        HasWritten before after at put ok → IfSome after.told (ShowsCuts W.means
        (with_blocks s (with_stage s.blocks who at (W.means.sum put) ok))) →
        KeepsJoined W.means trees kept from
        (with_blocks s (with_stage s.blocks who at (W.means.sum put) ok)) marks bases after }
    ensures system { (trees : ℕ → Tree) (kept from : ℕ) (s : JoinedState) (marks bases : List Mark)
        (before after : DiskSeen) → IfSome before.told (IsRecordOf before.size before.calls) →
        KeepsJoined W.means trees kept from s marks bases before → (ok : Bool) (at : ℕ)
        (put : List ℕ) → s.blocks.uses at ≡ System → HasWritten before after at put ok →
        IfSome after.told (ShowsCuts W.means s) →
        KeepsJoined W.means trees kept from s marks bases after }
    ensures flush { (trees : ℕ → Tree) (kept from : ℕ) (s : JoinedState) (marks bases : List Mark)
        (before after : DiskSeen) → IfSome before.told (IsRecordOf before.size before.calls) →
        KeepsJoined W.means trees kept from s marks bases before → HasFlushed before after true →
        IfSome after.told (ShowsCuts W.means (with_blocks s (with_flushed s.blocks))) → KeepsJoined
        W.means trees kept from (with_blocks s (with_flushed s.blocks)) marks bases after }
    ensures mark { (trees : ℕ → Tree) (kept from : ℕ) (s : JoinedState) (marks bases : List Mark)
        (before after : DiskSeen) → IfSome before.told (IsRecordOf before.size before.calls) →
        KeepsJoined W.means trees kept from s marks bases before → (n : ℕ) → s.blocks.settled ≤ n →
        n ≤ last s.blocks → HasFlushed before after true →
        IfSome after.told (ShowsCuts W.means (with_blocks s (with_mark s.blocks n))) →
        KeepsJoined W.means trees kept from (with_blocks s (with_mark s.blocks n))
        (marks ++ record { number = n; calls = before.calls + 1 } ∷ []) bases after }
    ensures failed_flush { (trees : ℕ → Tree) (kept from : ℕ) (s : JoinedState)
        (marks bases : List Mark) (before after : DiskSeen) →
        IfSome before.told (IsRecordOf before.size before.calls) →
        KeepsJoined W.means trees kept from s marks bases before → HasFlushed before after false →
        IfSome after.told (ShowsCuts W.means s) →
        KeepsJoined W.means trees kept from s marks bases after }
{}

/// Over the events that make no call. A commit wants what its plan promises: that what is staged stands
/// for the next tree, that each block of a file there is live, and that the longer history has the old
/// trees.
pub fn joined_without_call<W: ImageReader>()
    ensures draw { (trees : ℕ → Tree) (kept from : ℕ) (s : JoinedState) (marks bases : List Mark)
        (seen : DiskSeen) → KeepsJoined W.means trees kept from s marks bases seen → (who at : ℕ) →
        s.blocks.uses at ≡ Free → KeepsJoined W.means trees kept from
        (with_blocks s (with_use s.blocks at (Drawn who))) marks bases seen }
    ensures rollback { (trees : ℕ → Tree) (kept from : ℕ) (s : JoinedState)
        (marks bases : List Mark) (seen : DiskSeen) →
        KeepsJoined W.means trees kept from s marks bases seen → (who : ℕ) → KeepsJoined W.means
        trees kept from (with_blocks s (with_rollback s.blocks who)) marks bases seen }
    ensures commit { (trees later : ℕ → Tree) (kept from : ℕ) (s : JoinedState)
        (marks bases : List Mark) (seen : DiskSeen) →
        KeepsJoined W.means trees kept from s marks bases seen → (who n : ℕ)
        (items : List PlainItem) → IsNextOf s.blocks who (txn_of (n, items)) →
        HasTreesOf (last s.blocks) trees later →
        HasLiveFiles (with_entry s who n items) (last s.blocks + 1) → IfSome seen.told
        (λ r. StandsAfter (with_entry s who n items) later (last s.blocks + 1) (bytes_now r)) →
        KeepsJoined W.means later kept from (with_entry s who n items) marks bases seen }
{}

/// Over the events of a checkpoint, beside open transactions, and the end of a pin. The flush that settles
/// the new superblock marks a number and its base count, if each image left after it shows a cut from there
/// on; and then the layers switch: `stays` are the blocks of old layers that stay, and `pinned` those that
/// pins keep.
pub fn joined_over_checkpoint<W: ImageReader>()
    ensures aside { (trees : ℕ → Tree) (kept from : ℕ) (s : JoinedState) (marks bases : List Mark)
        (seen : DiskSeen) → KeepsJoined W.means trees kept from s marks bases seen → (at : ℕ) →
        s.blocks.uses at ≡ Free → KeepsJoined W.means trees kept from
        (with_blocks s (with_use s.blocks at Aside)) marks bases seen }
    ensures laid { (trees : ℕ → Tree) (kept from : ℕ) (s : JoinedState) (marks bases : List Mark)
        (before after : DiskSeen) → IfSome before.told (IsRecordOf before.size before.calls) →
        KeepsJoined W.means trees kept from s marks bases before → (ok : Bool) (at : ℕ)
        (put : List ℕ) → at < before.size → s.blocks.uses at ≡ Aside →
        HasWritten before after at put ok → IfSome after.told (ShowsCuts W.means
        (with_blocks s (with_laid s.blocks at (W.means.sum put) ok))) →
        KeepsJoined W.means trees kept from
        (with_blocks s (with_laid s.blocks at (W.means.sum put) ok)) marks bases after }
    ensures flushed { (trees : ℕ → Tree) (kept from : ℕ) (s : JoinedState) (marks bases : List Mark)
        (before after : DiskSeen) → IfSome before.told (IsRecordOf before.size before.calls) →
        KeepsJoined W.means trees kept from s marks bases before → HasFlushed before after true →
        IfSome after.told (ShowsCuts W.means (with_blocks s (with_layers_flushed s.blocks))) →
        KeepsJoined W.means trees kept from (with_blocks s (with_layers_flushed s.blocks)) marks
        bases after }
    ensures finish { (trees : ℕ → Tree) (kept from : ℕ) (s : JoinedState) (marks bases : List Mark)
        (before after : DiskSeen) → IfSome before.told (IsRecordOf before.size before.calls) →
        KeepsJoined W.means trees kept from s marks bases before → (n base : ℕ)
        (stays pinned : ℕ → Bool) → s.blocks.settled ≤ n → n ≤ last s.blocks → s.based ≤ base →
        base ≤ s.blocks.firm → HasFlushed before after true → IfSome after.told
        (ShowsCuts W.means (with_based (with_blocks s (with_mark s.blocks n)) base)) →
        KeepsJoined W.means trees kept from
        (with_based (with_blocks s (with_switch (with_mark s.blocks n) stays pinned)) base)
        (marks ++ record { number = n; calls = before.calls + 1 } ∷ [])
        (bases ++ record { number = base; calls = before.calls + 1 } ∷ []) after }
    ensures anew { (trees : ℕ → Tree) (kept from : ℕ) (s : JoinedState) (marks bases : List Mark)
        (seen : DiskSeen) → KeepsJoined W.means trees kept from s marks bases seen →
        KeepsJoined W.means trees kept from (with_blocks s (with_anew s.blocks)) marks bases seen }
    ensures pin_ended { (trees : ℕ → Tree) (kept from : ℕ) (s : JoinedState)
        (marks bases : List Mark) (seen : DiskSeen) →
        KeepsJoined W.means trees kept from s marks bases seen → (left : ℕ → Bool) → KeepsJoined
        W.means trees kept from (with_blocks s (with_pin_ended s.blocks left)) marks bases seen }
{}
