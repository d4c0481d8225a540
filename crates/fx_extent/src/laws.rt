//! Laws of blocks of files: functions that do nothing, whose contracts callers cite.
ghost use Rattle.std.specs.Prelude.{◌≡◌, ◌≢◌, ◌↔◌, ◌⊎◌, ◌++◌, ◌+◌, ◌-◌, ◌*◌, ◌/◌, ◌<◌, ◌≤◌, ℕ, List, Option, Some, false, true, length, take, drop, option_map, slice_get};
ghost use Rattle.std.specs.Prelude as list;
ghost use Rattle.std.specs.List.{flat_map, range_with_len};
ghost use Rattle.fx_contents.specs.Cuts.{IsEdge, IsFront, SaysCut, cut_block};
ghost use Rattle.fx_contents.specs.Files.{blocks_for, bytes_of_block, file_of};
ghost use Rattle.fx_contents.specs.Points.{Points, device_block, named};
ghost use Rattle.fx_contents.specs.Staged.{SaysWrite, StagedBlock};
ghost use Rattle.fx_contents.specs.Standing.{AreWithin};
ghost use Rattle.fx_contents.specs.Writes.{is_covered, patched};
ghost use Rattle.fx_extent.specs.Allocations.{AreAllocationsOf};
ghost use Rattle.fx_extent.specs.Blocks.{ref_entry};
ghost use Rattle.fx_extent.specs.Listed.{AreCut, file_items, file_said, gone_item, staged_blocks};
ghost use Rattle.fx_extent.specs.Patches.{IsInBlock, PlainPatch, put_patches, put_patch, text_patch, zero_patch};
ghost use Rattle.fx_extent.specs.Reading.{piece_read};
ghost use Rattle.fx_extent.specs.Staged.{AreExtentsOf, AreInPlaces};
ghost use Rattle.fx_extent.specs.Touched.{holds_some, is_cut_inside, is_partly_covered};
ghost use Rattle.fx_extent.specs.declared.storing.NewBlock.{NewBlock};
ghost use Rattle.fx_item.specs.Item.{FileValue, ObjectKey, PlainItem};
ghost use Rattle.fx_item.specs.Overlay.{AtFileBlock, Point, Said, live_in, over, says};
ghost use Rattle.fx_plain.specs.Node.{covered};
ghost use Rattle.fx_item.specs.declared.block.BlockRef.{BlockRef};
ghost use Rattle.fx_namespace.specs.Nodes.{NodeId};
ghost use Rattle.fx_base.specs.declared.block.TheConstants.{BLOCK_BYTES};

/// Reading a file block by block gives the bytes of the plain tree: the pieces of its blocks, where a hole
/// is zeros, are the bytes from `at` on up to those from `past` on. And the block that is found of a place
/// is the one that the file has there.
pub fn read_laws()
    ensures whole { (f : ℕ → List ℕ) (len : ℕ) (held : ℕ → Option ℕ)
        → ((n block : ℕ) → held n ≡ Some block → length (f block) ≡ BLOCK_BYTES)
        → (at past count : ℕ) → at ≤ past → past ≤ len
        → past ≤ (at / BLOCK_BYTES + count) * BLOCK_BYTES
        → flat_map (λ n. piece_read at past n (bytes_of_block f (held n)))
        (range_with_len (at / BLOCK_BYTES) count)
        ≡ take (past - at) (drop at (file_of f len held).bytes) }
    ensures held { (said : Said) (node : NodeId) (n : ℕ) (found : Option BlockRef)
        → option_map ref_entry found ≡ live_in said (AtFileBlock node.store node.id n)
        → device_block (live_in said) node n ≡ option_map (λ r. r.block) found }
{}

/// What the patches of a write and of a truncation make of a block is what the file's block holds then,
/// and they lie in the block. What a block held that a text covers whole does not matter. Patches that are
/// put one after another are put as one list.
pub fn patch_laws()
    ensures written { (at : ℕ) (text : List ℕ) (n : ℕ) (block : List ℕ)
        → put_patch block (text_patch at text n) ≡ patched at text n block }
    ensures cut { (size n : ℕ) (block : List ℕ) → length block ≡ BLOCK_BYTES
        → n * BLOCK_BYTES < size → size < (n + 1) * BLOCK_BYTES
        → put_patch block (zero_patch size n) ≡ cut_block size n block }
    ensures text_inside { (at : ℕ) (text : List ℕ) (n : ℕ) → is_covered at text n ≡ true
        → IsInBlock (text_patch at text n) }
    ensures zeros_inside { (size n : ℕ) → size < (n + 1) * BLOCK_BYTES
        → IsInBlock (zero_patch size n) }
    ensures full { (block : List ℕ) (patch : PlainPatch) → length block ≡ BLOCK_BYTES
        → IsInBlock patch → length (put_patch block patch) ≡ BLOCK_BYTES }
    ensures unread { (at : ℕ) (text : List ℕ) (n : ℕ) (block other : List ℕ)
        → length block ≡ BLOCK_BYTES → length other ≡ BLOCK_BYTES
        → holds_some at text n ≡ true → is_partly_covered at text n ≡ false
        → put_patch block (text_patch at text n) ≡ put_patch other (text_patch at text n) }
    ensures joined { (block : List ℕ) (first next : List PlainPatch)
        → put_patches (first ++ next) block ≡ put_patches next (put_patches first block) }
{}

/// What two lists say one behind the other. The items of a line that writes or cuts one file say this of
/// every point; so they are the write, or the truncation, of the new blocks. And a truncation cuts inside a block exactly where the size lies in
/// it.
pub fn file_laws()
    ensures joined { (first next : List PlainItem) (p : Point)
        → says (first ++ next) p ≡ over (says first) (says next) p }
    ensures said { (node : NodeId) (len from to : ℕ) (blocks : List NewBlock)
        (taken freed : List ℕ) (extents allocations : List PlainItem)
        → AreExtentsOf node blocks extents → AreAllocationsOf taken freed allocations → (p : Point)
        → says (file_items node len extents (gone_item node from to) allocations) p
        ≡ file_said node len blocks from to taken freed p }
    ensures write { (said : Said) (sum : List ℕ → ℕ) (node : NodeId) (len at : ℕ) (text : List ℕ)
        (staged : List StagedBlock) (taken freed : List ℕ) → 0 < length text
        → list.map (λ s. s.index) staged ≡ covered at text
        → AreInPlaces 0 (staged_blocks sum staged)
        → ((p : Point) → said p ≡ file_said node len (staged_blocks sum staged) 0 0 taken freed p)
        → SaysWrite said node len at text staged }
    ensures cut { (said : Said) (sum : List ℕ → ℕ) (m : Points) (f g : ℕ → List ℕ)
        (node : NodeId) (size len : ℕ) (staged : List StagedBlock) (taken freed : List ℕ)
        → AreWithin m → named m (ObjectKey node.store node.id) ≡ Some (FileValue len)
        → AreCut m f node size len staged
        → ((p : Point) → said p ≡ file_said node size (staged_blocks sum staged) (blocks_for size)
        (blocks_for len) taken freed p)
        → ((i : ℕ) (s : StagedBlock) → slice_get staged i ≡ Some s → g s.block ≡ s.bytes)
        → ((other : NodeId) (k block : ℕ) → device_block m other k ≡ Some block
        → (other ≢ node) ⊎ (IsFront size len k) → g block ≡ f block)
        → SaysCut m said f g node size len }
    ensures inside { (size len n : ℕ) → (is_cut_inside size len n ≡ true) ↔ IsEdge size len n }
{}
