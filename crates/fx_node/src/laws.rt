//! Laws of portions.
ghost use Rattle.std.specs.Prelude.{◌≡◌, ◌↔◌, ◌≤◌, ◌+◌, [], ℕ, true, false, List, None, Some, All, IsTrue, length};
ghost use Rattle.fx_contents.specs.Points.{Points, device_block, named, points_after, value_under};
ghost use Rattle.fx_contents.specs.Allocated.{AreAllocated};
ghost use Rattle.fx_extent.specs.Allocations.{AreAscending, lists_block, said_by};
ghost use Rattle.fx_dir.specs.Children.{AreChildren};
ghost use Rattle.fx_item.specs.Look.{map_of};
ghost use Rattle.fx_contents.specs.Removal.{Trims};
ghost use Rattle.fx_contents.specs.Standing.{AreClear, AreWithin, StandForTree};
ghost use Rattle.fx_item.specs.Item.{IsItem, items_of};
ghost use Rattle.fx_item.specs.Order.{is_ascending};
ghost use Rattle.fx_item.specs.Overlay.{AtDeviceBlock, AtFileBlock, Said, live_in, says};
ghost use Rattle.fx_namespace.specs.Nodes.{NodeId, node_at};
ghost use Rattle.fx_namespace.specs.Trees.{Holdings, IsTreeOf};
ghost use Rattle.fx_node.specs.Counts.{AreGraveyardSizes, LosesSizes};
ghost use Rattle.fx_node.specs.Portions.{IsPortionOf};
ghost use Rattle.fx_node.specs.Reaped.{AreAfterBeside, SaysReaped};
ghost use Rattle.fx_node.specs.Waiting.{HasNumbers, Waits};
ghost use Rattle.fx_item.specs.declared.Sizes.{Sizes};
ghost use Rattle.fx_node.specs.declared.reaping.Portion.{Portion};
ghost use Rattle.fx_node.specs.declared.reaping.TheConstants.{MAX_PORTION};
ghost use Rattle.fx_plain.specs.Tree.{Tree, children};

/// What the items of a portion say. They are in order, and say nothing of the tree: a node in the
/// graveyard loses what they take, and every tree stays as it was. Of blocks of the device the
/// points may say anything afterwards.
pub fn portion_laws()
    ensures ordered { (m : Points) (node : NodeId) (portion : Portion) → HasNumbers node
        → IsPortionOf m node portion → All IsItem (items_of portion.items)
        × IsTrue (is_ascending (items_of portion.items)) × (length (items_of portion.items) ≤ 258) }
    ensures said { (m : Points) (node : NodeId) (portion : Portion) → IsPortionOf m node portion
        → SaysReaped m (says (items_of portion.items)) node portion.last }
    ensures trims { (m n : Points) (node : NodeId) (portion : Portion) → AreWithin m
        → Waits (value_under m) node → IsPortionOf m node portion
        → AreAfterBeside m (says (items_of portion.items)) n → Trims m n node }
    ensures tree { (m n : Points) (f : ℕ → List ℕ) (t : Tree) (node : NodeId) (portion : Portion)
        → StandForTree m f t → Waits (value_under m) node → IsPortionOf m node portion
        → AreAfterBeside m (says (items_of portion.items)) n → StandForTree n f t }
    // Counted with the graveyard before: what a portion says that the graveyard loses it loses, and
    // that is something. So after some portions the graveyard is empty.
    ensures counted { (m n : Points) (node : NodeId) (portion : Portion) (old : Sizes)
        → Waits (value_under m) node → IsPortionOf m node portion
        → AreAfterBeside m (says (items_of portion.items)) n → AreGraveyardSizes m old
        → LosesSizes n old portion.delta.reaped }
    ensures falls { (m : Points) (node : NodeId) (portion : Portion) → IsPortionOf m node portion
        → (portion.last ≡ true → portion.delta.reaped.nodes ≡ 1)
        × (portion.last ≡ false → MAX_PORTION
        ≤ portion.delta.reaped.attributes + portion.delta.reaped.blocks) }
    ensures clear { (m n : Points) (f : ℕ → List ℕ) (node : NodeId) (portion : Portion)
        → AreWithin m → AreClear m f → Waits (value_under m) node → IsPortionOf m node portion
        → AreAfterBeside m (says (items_of portion.items)) n → AreClear n f }
{}

/// What a portion frees: the blocks in which the places lay that it takes, each of them once where
/// the allocator has each block of a file once. With them free again the allocator still has those
/// in which blocks of files lie.
pub fn freed_laws()
    ensures freed { (m : Points) (node : NodeId) (portion : Portion) → IsPortionOf m node portion
        → (block : ℕ) → (lists_block portion.frees block ≡ true)
        ↔ ((k : ℕ) × (device_block m node k ≡ Some block)
        × (says (items_of portion.items) (AtFileBlock node.store node.id k) ≡ Some None)) }
    ensures ascend { (m : Points) (node : NodeId) (portion : Portion) → AreAllocated m
        → IsPortionOf m node portion → AreAscending 0 portion.frees }
    ensures allocated { (m n : Points) (node : NodeId) (portion : Portion) → AreAllocated m
        → Waits (value_under m) node → IsPortionOf m node portion
        → AreAfterBeside m (says (items_of portion.items)) n
        → ((b : ℕ) → n (AtDeviceBlock b)
        ≡ points_after m (said_by [] portion.frees) (AtDeviceBlock b)) → AreAllocated n }
{}

/// Walks and names over items with a graveyard. What stands for a tree makes that tree in the sense
/// in which walks meet it; and names of children are those of the tree.
pub fn directory_laws()
    ensures walks { (said : Said) (f : ℕ → List ℕ) (t : Tree) → StandForTree (live_in said) f t
        → (h : Holdings) × IsTreeOf (map_of said) h t }
    ensures names { (said : Said) (f : ℕ → List ℕ) (t : Tree) (path : List (List ℕ))
        (node : NodeId) (names : List (List ℕ)) → StandForTree (live_in said) f t
        → node_at (named (live_in said)) path ≡ Some node
        → AreChildren (map_of said) node names → names ≡ children t path }
{}
