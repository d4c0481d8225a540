//! What items stand for with what blocks hold: a tree with bytes, attributes and a graveyard.
//!
//! Definitions and their laws, for those who prove: the functions do nothing.
#![tactic(auto)]

ghost use Rattle.std.specs.Prelude.{◌≡◌, ◌≢◌, ◌↔◌, ◌++◌, ◌∷◌, ◌+◌, ◌-◌, ◌*◌, ◌/◌, ◌%◌, ◌<◌, ◌≤◌, [], ℕ, Bool, true, false, List, Option, None, Some, Ok, get_or, length, take, drop, max};
ghost use Rattle.std.specs.Prelude as list;
ghost use Rattle.std.specs.FinMap as map;
ghost use Rattle.fx_item.specs.Item.{ChildKey, FileValue, GraveKey, ObjectKey, PlainKey, PlainValue};
ghost use Rattle.fx_item.specs.Look.{ItemMap, map_of};
ghost use Rattle.fx_item.specs.Overlay.{AtDeviceBlock, Point, Said, live_in, over, says};
ghost use Rattle.fx_namespace.specs.Nodes.{NodeId, Stands, node_at};
ghost use Rattle.fx_namespace.specs.Changes.{IsPlaceFor};
ghost use Rattle.fx_namespace.specs.Commits.{new_value};
ghost use Rattle.fx_namespace.specs.Trees.{IsTreeOf, bare, node_of};
ghost use Rattle.fx_namespace.specs.Wrong.{IsLeastWrong, IsWrongAt};
ghost use Rattle.fx_plain.specs.Node.{covered, written};
ghost use Rattle.fx_plain.specs.Table.{do_step};
ghost use Rattle.fx_plain.specs.Tree.{IsTree, Tree, root};
ghost use Rattle.fx_base.specs.declared.block.TheConstants.{BLOCK_BYTES};
ghost use Rattle.fx_plain.specs.declared.kind.Kind.{Kind};
ghost use Rattle.fx_plain.specs.declared.step.Answer.{Answer};
ghost use Rattle.fx_plain.specs.declared.step.Step.TheVariants.{Write};
ghost use Rattle.fx_contents.specs.Allocated.{AreAllocated};
ghost use Rattle.fx_contents.specs.Amiss.{IsAmissAt, IsLeastAmiss};
ghost use Rattle.fx_contents.specs.Cuts.{IsCutting, IsTruncated, SaysCut, cut_block, cut_byte};
ghost use Rattle.fx_contents.specs.Files.{byte_at, bytes_of_block, file_of};
ghost use Rattle.fx_contents.specs.Marks.{IsMarked, SetsAttribute};
ghost use Rattle.fx_contents.specs.Points.{AgreeOnLive, Points, device_block, named, only_values, points_after, value_under};
ghost use Rattle.fx_contents.specs.Plans.{planned_blocks, planned_write};
ghost use Rattle.fx_contents.specs.Staged.{ArePatched, AreStored, HasWholeBlocks, SaysWrite, StagedBlock, staged_items};
ghost use Rattle.fx_contents.specs.Removal.{Buries, GainsEmpty, LosesNode, Trims};
ghost use Rattle.fx_contents.specs.Standing.{AreClear, AreClearEnds, AreNamesAlone, AreOnDisk, AreWithin, StandForTree};
ghost use Rattle.fx_contents.specs.Writes.{IsWriting, is_covered, patched, written_byte};

/// Items and contents stand for one tree at most, and for a tree. No items at all stand for the
/// root. Names alone stand as they do without contents, whatever the blocks hold. What a path leads
/// to does not wait in the graveyard, and what waits there has no child.
pub fn standing_laws()
    ensures one { (m : Points) (f : ℕ → List ℕ) (t u : Tree)
        → StandForTree m f t → StandForTree m f u → t ≡ u }
    ensures is_tree { (m : Points) (f : ℕ → List ℕ) (t : Tree) → StandForTree m f t → IsTree t }
    ensures empty { (f : ℕ → List ℕ) → StandForTree (λ p. None) f root × AreClear (λ p. None) f }
    ensures names { (items : ItemMap) (f : ℕ → List ℕ) (t : Tree) → AreNamesAlone items
        → StandForTree (only_values items) f t ↔ (Stands items × IsTreeOf items bare t) }
    ensures buried { (m : Points) (f : ℕ → List ℕ) (t : Tree) (above : List (List ℕ))
        (name : List ℕ) (node : NodeId) → StandForTree m f t
        → node_at (named m) (above ++ name ∷ []) ≡ Some node
        → value_under m (GraveKey node.store node.id) ≡ None }
    ensures leaf { (m : Points) (f : ℕ → List ℕ) (t : Tree) (node : NodeId) (name : List ℕ)
        (grave : PlainValue) → StandForTree m f t
        → value_under m (GraveKey node.store node.id) ≡ Some grave
        → value_under m (ChildKey node.store node.id name) ≡ None }
{}

/// The tree, and zeros past the ends of files, are read off the live blocks alone. What a block
/// holds that no entry names, or that the allocator has free, does not matter.
pub fn live_laws()
    ensures stands { (m : Points) (f g : ℕ → List ℕ) (t : Tree) → AgreeOnLive m f g
        → StandForTree m f t ↔ StandForTree m g t }
    ensures clear { (m : Points) (f g : ℕ → List ℕ) → AgreeOnLive m f g
        → AreClear m f ↔ AreClear m g }
    ensures other { (m : Points) (f g : ℕ → List ℕ) (t : Tree) (b : ℕ)
        → ((node : NodeId) (n : ℕ) → device_block m node n ≢ Some b)
        → ((x : ℕ) → x ≢ b → f x ≡ g x) → StandForTree m f t → StandForTree m g t }
    ensures free { (m : Points) (f g : ℕ → List ℕ) (t : Tree) (b : ℕ) → AreAllocated m
        → m (AtDeviceBlock b) ≡ None → ((x : ℕ) → x ≢ b → f x ≡ g x)
        → StandForTree m f t → StandForTree m g t }
{}

/// What a look says, as what stands at each point: under each key stands the value that its map has,
/// and one more list of items goes before what was said.
pub fn look_laws()
    ensures map { (said : Said) (key : PlainKey)
        → map_of said key ≡ value_under (live_in said) key }
    ensures after { (newer older : Said) (p : Point)
        → points_after (live_in older) newer p ≡ live_in (over newer older) p }
{}

/// Where nothing is amiss at any node, all blocks, attributes and graves are of nodes with an
/// Object, and the blocks lie on the disk past the ring. Where they do, the names alone can be
/// amiss, and the least node at which something is amiss is the least one at which a name is wrong.
pub fn amiss_laws()
    ensures within { (ring disk : ℕ) (m : Points)
        → ((node : NodeId) → IsAmissAt ring disk m node → ⊥) → AreWithin m × AreOnDisk ring disk m }
    ensures names { (ring disk : ℕ) (m : Points) (node : NodeId) → AreWithin m
        → AreOnDisk ring disk m → IsAmissAt ring disk m node → IsWrongAt (named m) node }
    ensures least { (ring disk : ℕ) (m : Points) (node : NodeId) → AreWithin m
        → AreOnDisk ring disk m → IsLeastAmiss ring disk m node → IsLeastWrong (named m) node }
{}

/// What one block holds after a write or a truncation, over plain bytes: `old` is the file's bytes,
/// and `block` what the file's block n held. A block that the text covers whole need not be read.
/// What lies within one block is read from that block.
pub fn block_laws()
    ensures bytes { (f : ℕ → List ℕ) (held : ℕ → Option ℕ) (n j : ℕ) → j < BLOCK_BYTES
        → byte_at f held (n * BLOCK_BYTES + j) ≡ get_or (bytes_of_block f (held n)) j 0 }
    ensures read { (f : ℕ → List ℕ) (len : ℕ) (held : ℕ → Option ℕ)
        → ((n block : ℕ) → held n ≡ Some block → length (f block) ≡ BLOCK_BYTES)
        → (p count : ℕ) → p % BLOCK_BYTES + count ≤ BLOCK_BYTES → p + count ≤ len
        → take count (drop p (file_of f len held).bytes)
        ≡ take count (drop (p % BLOCK_BYTES) (bytes_of_block f (held (p / BLOCK_BYTES)))) }
    ensures full { (at : ℕ) (text : List ℕ) (n : ℕ) (block : List ℕ) → length block ≡ BLOCK_BYTES
        → is_covered at text n ≡ true → length (patched at text n block) ≡ BLOCK_BYTES }
    ensures written { (at : ℕ) (text : List ℕ) (n : ℕ) (block : List ℕ) (old : ℕ → ℕ)
        → length block ≡ BLOCK_BYTES → is_covered at text n ≡ true
        → ((j : ℕ) → j < BLOCK_BYTES → old (n * BLOCK_BYTES + j) ≡ get_or block j 0)
        → (j : ℕ) → j < BLOCK_BYTES
        → get_or (patched at text n block) j 0 ≡ written_byte at text old (n * BLOCK_BYTES + j) }
    ensures whole { (at : ℕ) (text : List ℕ) (n : ℕ) (block : List ℕ) → length block ≡ BLOCK_BYTES
        → at ≤ n * BLOCK_BYTES → (n + 1) * BLOCK_BYTES ≤ at + length text
        → patched at text n block ≡ take BLOCK_BYTES (drop (n * BLOCK_BYTES - at) text) }
    ensures cut_full { (size n : ℕ) (block : List ℕ) → length block ≡ BLOCK_BYTES
        → n * BLOCK_BYTES < size → size < (n + 1) * BLOCK_BYTES
        → length (cut_block size n block) ≡ BLOCK_BYTES }
    ensures cut { (size n : ℕ) (block : List ℕ) (old : ℕ → ℕ) → length block ≡ BLOCK_BYTES
        → n * BLOCK_BYTES < size → size < (n + 1) * BLOCK_BYTES
        → ((j : ℕ) → j < BLOCK_BYTES → old (n * BLOCK_BYTES + j) ≡ get_or block j 0)
        → (j : ℕ) → j < BLOCK_BYTES
        → get_or (cut_block size n block) j 0 ≡ cut_byte size old (n * BLOCK_BYTES + j) }
{}

/// A written text: the new items with the new contents stand for the tree after the step, and are
/// clear again. No text changes nothing. Staged blocks that a commit's items name and that the
/// device holds are such a write, and two steps of one line are one commit. A write with new blocks
/// is possible in each file.
pub fn write_laws()
    ensures stands { (m n : Points) (f g : ℕ → List ℕ) (t : Tree) (path : List (List ℕ))
        (node : NodeId) (at : ℕ) (text : List ℕ) (len : ℕ) (answer : Answer)
        → StandForTree m f t → AreClear m f → node_at (named m) path ≡ Some node
        → IsWriting m n f g node at text len → 0 < length text
        → (do_step t (Write path at text)).0 ≡ Ok answer
        → StandForTree n g (do_step t (Write path at text)).1 }
    ensures nothing { (m : Points) (f : ℕ → List ℕ) (t : Tree) (path : List (List ℕ)) (at : ℕ)
        (answer : Answer) → StandForTree m f t → (do_step t (Write path at [])).0 ≡ Ok answer
        → StandForTree m f (do_step t (Write path at [])).1 }
    ensures clear { (m n : Points) (f g : ℕ → List ℕ) (node : NodeId) (at : ℕ) (text : List ℕ)
        (len : ℕ) → AreWithin m → AreClear m f → IsWriting m n f g node at text len
        → 0 < length text → AreClear n g }
    ensures commit { (m : Points) (said : Said) (f g : ℕ → List ℕ) (node : NodeId) (at : ℕ)
        (text : List ℕ) (len : ℕ) (staged : List StagedBlock) → 0 < length text
        → named m (ObjectKey node.store node.id) ≡ Some (FileValue len) → HasWholeBlocks m f node
        → ArePatched m f node at text staged
        → SaysWrite said node (max len (at + length text)) at text staged
        → AreStored m f g node at text staged
        → IsWriting m (points_after m said) f g node at text len }
    ensures items { (sum : List ℕ → ℕ) (node : NodeId) (len at : ℕ) (text : List ℕ)
        (staged : List StagedBlock) → list.map (λ s. s.index) staged ≡ covered at text
        → 0 < length text
        → SaysWrite (says (staged_items sum node len staged)) node len at text staged }
    ensures two { (m : Points) (first next : Said) (p : Point)
        → points_after (points_after m first) next p ≡ points_after m (over next first) p }
    ensures possible { (m : Points) (f : ℕ → List ℕ) (node : NodeId) (base at : ℕ)
        (text : List ℕ) (len : ℕ) → named m (ObjectKey node.store node.id) ≡ Some (FileValue len)
        → HasWholeBlocks m f node
        → ((other : NodeId) (k block : ℕ) → device_block m other k ≡ Some block → block < base)
        → IsWriting m (points_after m (planned_write node base at text len)) f
        (planned_blocks m f node base at text) node at text len }
{}

/// A truncation: the new items with the new contents stand for the tree with the file cut or grown,
/// and are clear again. To cut asks for no zeros past the end; to grow does.
pub fn cut_laws()
    ensures stands { (m n : Points) (f g : ℕ → List ℕ) (t u : Tree) (path : List (List ℕ))
        (node : NodeId) (size len : ℕ) → StandForTree m f t → (len ≤ size → AreClear m f)
        → node_at (named m) path ≡ Some node → IsCutting m n f g node size len
        → IsTruncated t path size u → StandForTree n g u }
    ensures clear { (m n : Points) (f g : ℕ → List ℕ) (node : NodeId) (size len : ℕ)
        → AreWithin m → AreClear m f → IsCutting m n f g node size len → AreClear n g }
    ensures commit { (m : Points) (said : Said) (f g : ℕ → List ℕ) (node : NodeId)
        (size len : ℕ) → named m (ObjectKey node.store node.id) ≡ Some (FileValue len)
        → HasWholeBlocks m f node → SaysCut m said f g node size len
        → IsCutting m (points_after m said) f g node size len }
{}

/// Zeros past the ends of files are zeros in the held blocks in which files end. Where a write past
/// the end leaves a block as it is, its file is the tree's only if that block is zero past the old
/// end.
pub fn clear_laws()
    ensures ends { (m : Points) (f : ℕ → List ℕ) → AreWithin m → AreClear m f ↔ AreClearEnds m f }
    ensures needed { (f g : ℕ → List ℕ) (len : ℕ) (old new : ℕ → Option ℕ) (at : ℕ)
        (text : List ℕ) → 0 < length text
        → ((k : ℕ) → is_covered at text k ≡ false → new k ≡ old k)
        → ((k block : ℕ) → is_covered at text k ≡ false → old k ≡ Some block → g block ≡ f block)
        → file_of g (max len (at + length text)) new ≡ written at text (file_of f len old)
        → (i : ℕ) → len ≤ i → i < at → is_covered at text (i / BLOCK_BYTES) ≡ false
        → byte_at f old i ≡ 0 }
{}

/// A new node is an empty directory or file at its path. What a node in the graveyard loses is not
/// seen. Both leave zeros past the ends of files.
pub fn node_laws()
    ensures made { (m n : Points) (f : ℕ → List ℕ) (t : Tree) (above : List (List ℕ))
        (parent : NodeId) (name : List ℕ) (node : NodeId) (kind : Kind) → StandForTree m f t
        → IsPlaceFor (named m) above parent name node kind
        → GainsEmpty m n parent name node (new_value kind)
        → StandForTree n f (map.insert t (above ++ name ∷ []) (node_of bare node kind)) }
    ensures made_clear { (m n : Points) (f : ℕ → List ℕ) (parent : NodeId) (name : List ℕ)
        (node : NodeId) (kind : Kind) → AreWithin m → AreClear m f
        → GainsEmpty m n parent name node (new_value kind) → AreClear n f }
    ensures trimmed { (m n : Points) (f : ℕ → List ℕ) (t : Tree) (node : NodeId)
        → StandForTree m f t → Trims m n node → StandForTree n f t }
    ensures trimmed_clear { (m n : Points) (f : ℕ → List ℕ) (node : NodeId)
        → AreClear m f → Trims m n node → AreClear n f }
{}

/// A node without children that is removed into the graveyard: to the names its Object and its
/// entry go, and the items stand for the tree without its path. Its blocks and attributes stay
/// until upkeep takes them.
pub fn removal_laws()
    ensures names { (m n : Points) (parent : NodeId) (name : List ℕ) (node : NodeId)
        → Buries m n parent name node → LosesNode (named m) (named n) parent name node }
    ensures removed { (m n : Points) (f : ℕ → List ℕ) (t : Tree) (above : List (List ℕ))
        (parent : NodeId) (name : List ℕ) (node : NodeId) → StandForTree m f t
        → node_at (named m) above ≡ Some parent
        → ((x : List ℕ) → value_under m (ChildKey node.store node.id x) ≡ None)
        → Buries m n parent name node → StandForTree n f (map.remove t (above ++ name ∷ [])) }
    ensures removed_clear { (m n : Points) (f : ℕ → List ℕ) (parent : NodeId) (name : List ℕ)
        (node : NodeId) → AreClear m f → Buries m n parent name node → AreClear n f }
{}

/// An attribute that is set, or taken away: the items stand for the tree whose node at the path has
/// it so.
pub fn attribute_laws()
    ensures stands { (m n : Points) (f : ℕ → List ℕ) (t u : Tree) (path : List (List ℕ))
        (node : NodeId) (name : List ℕ) (text : Option (List ℕ)) → StandForTree m f t
        → node_at (named m) path ≡ Some node → SetsAttribute m n node name text
        → IsMarked t path name text u → StandForTree n f u }
    ensures clear { (m n : Points) (f : ℕ → List ℕ) (node : NodeId) (name : List ℕ)
        (text : Option (List ℕ)) → AreClear m f → SetsAttribute m n node name text → AreClear n f }
{}
