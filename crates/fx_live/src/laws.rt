//! Laws of live blocks: functions that do nothing, whose contracts callers cite.
ghost use Rattle.std.specs.Prelude.{◌≡◌, ◌↔◌, ◌^◌, ◌<◌, ◌≤◌, ℕ, List, None, Some, slice_get, true};
ghost use Rattle.fx_item.specs.Item.{PlainItem};
ghost use Rattle.fx_extent.specs.Allocations.{AreAllocationsOf, ShareNone};
ghost use Rattle.fx_extent.specs.Listed.{file_items, file_said, gone_item};
ghost use Rattle.fx_extent.specs.Staged.{AreExtentsOf, AreInPlaces};
ghost use Rattle.fx_extent.specs.declared.storing.NewBlock.{NewBlock};
ghost use Rattle.fx_item.specs.Overlay.{AtDeviceBlock, Point, Said, says};
ghost use Rattle.fx_item.specs.declared.item.TheConstants.{MAX_FILE_BLOCKS};
ghost use Rattle.fx_namespace.specs.Nodes.{NodeId};
ghost use Rattle.fx_contents.specs.Allocated.{AreAllocated};
ghost use Rattle.fx_contents.specs.Points.{Points, points_after};
ghost use Rattle.fx_verify.specs.Kept.{IsKeptNumber, is_freed_by, is_taken_by, is_written, live_sum, written_by};
ghost use Rattle.fx_live.specs.Live.{AreOrdered, AreTogether, IsKeptByExtents, IsNamedWith, KeepsTogether, SaysBlock, SaysTaken, points_through, states};
ghost use Rattle.fx_live.specs.Moving.{FileChange, LeavesSums, MovesBlocks, SaysChanges, SwapsBlocks, one_change};

/// What is read off the items of a list in order is what they say at points: the blocks that they take,
/// those that they free, and those that they write, each with its sum.
pub fn item_laws()
    ensures taken { (items : List PlainItem) (block : ℕ) → AreOrdered items
        → (is_taken_by items block ≡ true) ↔ SaysTaken (says items) block }
    ensures freed { (items : List PlainItem) (block : ℕ) → AreOrdered items
        → (is_freed_by items block ≡ true) ↔ (says items (AtDeviceBlock block) ≡ Some None) }
    ensures written { (items : List PlainItem) (block sum : ℕ) → AreOrdered items
        → (states (written_by items) block sum ≡ true)
        ↔ (SaysTaken (says items) block × SaysBlock (says items) block sum) }
{}

/// Where no transaction leaves the allocator and the extents apart, a block that the transactions wrote
/// is live by what they take and free exactly where a block of a file lies in it, with the same sum; and
/// an image keeps the same number of them by either.
pub fn live_laws()
    ensures live { (m : Points) (txns : List (ℕ × List PlainItem)) (block sum : ℕ)
        → AreAllocated m → AreTogether m txns → (live_sum txns block ≡ Some sum)
        ↔ ((is_written txns block ≡ true) × IsNamedWith (points_through m txns) block sum) }
    ensures kept { (m : Points) (base : ℕ) (txns : List (ℕ × List PlainItem))
        (found : List (ℕ × ℕ)) (k : ℕ) → AreAllocated m → AreTogether m txns
        → IsKeptNumber base txns found k ↔ IsKeptByExtents m base txns found k }
    ensures allocated { (m : Points) (txns : List (ℕ × List PlainItem)) → AreAllocated m
        → AreTogether m txns → AreAllocated (points_through m txns) }
{}

/// A line that moves blocks leaves the blocks that the allocator has taken those in which blocks of files
/// lie, each once, and as a transaction it does not leave the two apart. One that puts new blocks in place
/// of others does so, and its two lists have no block in common; it leaves each block with the sum that is
/// stated for it.
pub fn moving_laws()
    ensures allocated { (m : Points) (said : Said) → AreAllocated m → MovesBlocks m said
        → AreAllocated (points_after m said) }
    ensures together { (m : Points) (items : List PlainItem) → AreOrdered items → AreAllocated m
        → MovesBlocks m (says items) → KeepsTogether m items }
    ensures swapped { (m : Points) (said : Said) (changes : NodeId → FileChange)
        (taken freed : List ℕ) → AreAllocated m → SaysChanges said changes taken freed
        → SwapsBlocks m changes taken freed → MovesBlocks m said × ShareNone taken freed }
    ensures sums { (m : Points) (items : List PlainItem) (changes : NodeId → FileChange)
        (taken freed : List ℕ) → AreOrdered items → SaysChanges (says items) changes taken freed
        → SwapsBlocks m changes taken freed → LeavesSums items changes taken freed }
{}

/// A line that writes or cuts one file: it tells of no other file, and its items are in order.
pub fn line_laws()
    ensures one { (said : Said) (node : NodeId) (len : ℕ) (change : FileChange)
        (taken freed : List ℕ) → AreInPlaces 0 change.blocks
        → ((p : Point) → said p
        ≡ file_said node len change.blocks change.from change.to taken freed p)
        → SaysChanges said (one_change node change) taken freed }
    ensures ordered { (node : NodeId) (len from to : ℕ) (blocks : List NewBlock)
        (taken freed : List ℕ) (extents allocations : List PlainItem) → node.store < 2 ^ 32
        → node.id < 2 ^ 64 → len < 2 ^ 32 → to ≤ MAX_FILE_BLOCKS → AreInPlaces 0 blocks
        → ((i : ℕ) (x : NewBlock) → slice_get blocks i ≡ Some x → from < to → x.index < from)
        → AreExtentsOf node blocks extents → AreAllocationsOf taken freed allocations
        → AreOrdered (file_items node len extents (gone_item node from to) allocations) }
{}
