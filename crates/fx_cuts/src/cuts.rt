//! Laws on single images. The functions do nothing.
ghost use Rattle.std.specs.Prelude.{◌≡◌, ℕ, ◌+◌, ◌≤◌, Option, List, [], ◌∷◌, ◌++◌, length, map};
ghost use Rattle.fx_kept.specs.Kept.{IsKeptIn};
ghost use Rattle.fx_uses.specs.Uses.{Use, AreUses, CellsHold, image_block};
ghost use Rattle.fx_uses.specs.Layers.{ReadsNamed, Reader, IsNamed};
ghost use Rattle.fx_disk.specs.Record.{DiskRecord, Cell, LeftNow, cell_now};
ghost use Rattle.fx_item.specs.Item.{PlainItem};
ghost use Rattle.fx_item.specs.Overlay.{says};
ghost use Rattle.fx_live.specs.Live.{AreOrdered, KeepsTogether};
ghost use Rattle.fx_live.specs.Moving.{MovesBlocks};
ghost use Rattle.fx_plain.specs.Tree.{Tree};
ghost use Rattle.fx_contents.specs.Points.{Points};
ghost use Rattle.fx_contents.specs.Allocated.{AreAllocated};
ghost use Rattle.fx_uses.specs.Live.{txn_of, live_after};
ghost use Rattle.fx_uses.specs.Uses.{last};
ghost use Rattle.fx_cuts.specs.Joined.{JoinedState, NumberedItems, StandsAfter, points_up_to, points_at};
ghost use Rattle.fx_cuts.specs.Joined.{HasLiveFiles, with_entry};
ghost use Rattle.fx_cuts.specs.Allocations.{TellsBlocks, TellBlocks, AreTakenIn, TellsState};
ghost use Rattle.fx_cuts.specs.Mounted.{IsFoundState, HoldsFoundState};
ghost use Rattle.fx_cuts.specs.Images.{ImageMeanings, NoBlockByChance, NoLiveBlockByChance, ShowsOne};
ghost use Rattle.fx_cuts.specs.Images.{IsImageUpTo, Mark, IsPrefixUpTo, IsShownCut, IsSoundFrom};
ghost use Rattle.fx_cuts.specs.KeepsJoined.{KeepsState, HoldsTrees};

use fx_uses::LayerMeaning;

/// What the layers beside this one mean.
pub trait ImageReader {
    ghost means: { ImageMeanings };
}

/// An image left now that shows a cut of the transactions, and in which nothing is there by chance, stands
/// for the tree after the number that it keeps, which lies between the settled number and the last. A base
/// count, what stands there and one list of transactions tell one number and one tree of an image; so does
/// the image alone where each image shows one of these at most. The premise on loose blocks whose sum is tested is weaker than
/// the one on all loose live blocks. The image's own items after each number of the cut are those of the
/// state.
pub fn cuts_in_images<W: ImageReader>()
    ensures prefix { (trees : ℕ → Tree) (s : JoinedState) (kept from calls : ℕ)
        (marks bases : List Mark) (r : DiskRecord) →
        KeepsState W.means s kept from calls marks bases → HoldsTrees W.means trees s r →
        (image : List (List ℕ)) → LeftNow r image → NoBlockByChance W.means (cell_now r) image →
        (base : ℕ) (points : Points) (txns : NumberedItems) → W.means.Shows image base points txns →
        IsShownCut s base points txns →
        IsSoundFrom W.means s.blocks.settled image base points txns → (k : ℕ) × IsPrefixUpTo W.means
        trees (last s.blocks) marks bases calls image k }
    ensures between { (trees : ℕ → Tree) (s : JoinedState) (kept from calls : ℕ)
        (marks bases : List Mark) (r : DiskRecord) →
        KeepsState W.means s kept from calls marks bases → HoldsTrees W.means trees s r →
        (image : List (List ℕ)) → LeftNow r image → (base : ℕ) (points : Points)
        (txns : NumberedItems) → IsShownCut s base points txns → (k : ℕ) →
        IsKeptIn W.means.sum W.means.first_data image base txns k → (s.blocks.settled ≤ k) ×
        (k ≤ last s.blocks) }
    ensures one { (image : List (List ℕ)) (base : ℕ) (points : Points) (txns : NumberedItems)
        (j k : ℕ) (t u : Tree) → IsImageUpTo W.means image base points txns j t →
        IsImageUpTo W.means image base points txns k u → (j ≡ k) × (t ≡ u) }
    ensures one_shown { ShowsOne W.means → (image : List (List ℕ)) (a b : ℕ) (p q : Points)
        (ts us : NumberedItems) (j k : ℕ) (t u : Tree) → IsImageUpTo W.means image a p ts j t →
        IsImageUpTo W.means image b q us k u → (j ≡ k) × (t ≡ u) }
    ensures premise { (cells : ℕ → Cell) (image : List (List ℕ)) →
        NoLiveBlockByChance W.means cells image → NoBlockByChance W.means cells image }
    ensures items { (s : JoinedState) (kept from calls : ℕ) (marks bases : List Mark) →
        KeepsState W.means s kept from calls marks bases → (base : ℕ) (points : Points)
        (txns : NumberedItems) → IsShownCut s base points txns → (k : ℕ) → base ≤ k →
        k ≤ base + length txns → points_up_to points txns k ≡ points_at s k }
{}

/// Which cuts there are: the superblock of the mount with the first of the transactions, before a checkpoint,
/// and one with a later base count that is flushed, no lower than the last that was settled.
pub fn shown_cuts()
    ensures front { (s : JoinedState) (txns later : NumberedItems) → AreUses s.blocks →
        s.based ≤ s.blocks.base → s.blocks.txns ≡ map txn_of s.txns → s.txns ≡ txns ++ later →
        s.blocks.settled ≤ s.blocks.base + length txns → IsShownCut s s.blocks.base s.opening txns }
    ensures later { (s : JoinedState) (earlier txns later : NumberedItems) →
        s.txns ≡ earlier ++ (txns ++ later) → s.based ≤ s.blocks.base + length earlier →
        s.blocks.base + length earlier ≤ s.blocks.firm →
        s.blocks.settled ≤ s.blocks.base + length earlier + length txns →
        IsShownCut s (s.blocks.base + length earlier)
        (points_at s (s.blocks.base + length earlier)) txns }
{}

/// A superblock, the current one or the one to come, whose layers say what stands after its base count, and
/// the stream from there: in each image left now its layers say just that, and with the stream it is a cut.
pub fn cuts_by_layers<L: LayerMeaning>()
    ensures cut { ReadsNamed L.means → (points_in : L.means.Said → Points) (sum : List ℕ → ℕ)
        (s : JoinedState) (r : DiskRecord) (image : List (List ℕ)) (reader : Reader)
        (firsts blocks : List ℕ) (said : L.means.Said) (earlier txns later : NumberedItems) →
        CellsHold sum s.blocks r → LeftNow r image →
        IsNamed L.means s.blocks r reader (s.blocks.base + length earlier) firsts blocks said →
        points_in said ≡ points_at s (s.blocks.base + length earlier) →
        s.txns ≡ earlier ++ (txns ++ later) → s.based ≤ s.blocks.base + length earlier →
        s.blocks.settled ≤ s.blocks.base + length earlier + length txns →
        L.means.Says (image_block image) firsts blocks said ×
        IsShownCut s (s.blocks.base + length earlier) (points_in said) txns }
{}

/// What a mount finds begins the state: the transactions that the image keeps, from its base count on, with
/// the items and the uses of blocks that they leave. The one mark is of the number that is kept, and of its
/// base count. Where nothing is loose and the image stands for the tree there, what the blocks hold does.
pub fn mounted_state<W: ImageReader>()
    ensures state { (s : JoinedState) (right base calls : ℕ) (first : ℕ → Option ℕ)
        (others : ℕ → Use) → IsFoundState W.means s right base first others →
        KeepsState W.means s (base + length s.txns) calls calls
        (record { number = base + length s.txns; calls = calls } ∷ [])
        (record { number = base; calls = calls } ∷ []) }
    ensures trees { (trees : ℕ → Tree) (s : JoinedState) (right base : ℕ) (first : ℕ → Option ℕ)
        (others : ℕ → Use) (image : List (List ℕ)) (r : DiskRecord) →
        IsFoundState W.means s right base first others →
        HoldsFoundState W.means s right base first others image r →
        StandsAfter s trees (base + length s.txns) (image_block image) →
        HoldsTrees W.means trees s r }
{}

/// Where each transaction says the same of blocks by its allocations and by the extents that it writes, what
/// is live after each number is what the allocations have taken there. So where allocations and extents
/// name the same blocks, each block of a file is live. Items in order that move blocks of files say the
/// same by both; as the next commit they leave that so, and each block of a file is live after it.
pub fn live_by_allocations()
    ensures taken { (s : JoinedState) → s.blocks.txns ≡ map txn_of s.txns → TellBlocks s.txns →
        AreTakenIn s.opening s.blocks.first → (k : ℕ) →
        AreTakenIn (points_at s k) (live_after s.blocks.first s.blocks.txns k) }
    ensures files { (s : JoinedState) (k : ℕ) → AreAllocated (points_at s k) →
        AreTakenIn (points_at s k) (live_after s.blocks.first s.blocks.txns k) → HasLiveFiles s k }
    ensures told { (m : Points) (items : List PlainItem) → AreOrdered items → AreAllocated m →
        MovesBlocks m (says items) → TellsBlocks items × KeepsTogether m items }
    ensures commit { (s : JoinedState) (who n : ℕ) (items : List PlainItem) → AreUses s.blocks →
        TellsState s → n ≡ last s.blocks + 1 → AreOrdered items →
        MovesBlocks (points_at s (last s.blocks)) (says items) →
        TellsState (with_entry s who n items) × HasLiveFiles (with_entry s who n items) n }
{}
