//! Laws of layers in a set and in an image: functions that do nothing, whose contracts callers cite.
ghost use Rattle.std.specs.Prelude.{List};
ghost use Rattle.std.specs.List.{All};
ghost use Rattle.fx_layfile.specs.Block.{IsOfTree};
ghost use Rattle.fx_layerset.specs.Levels.{PlainLevel};
ghost use Rattle.fx_layerset.specs.Alike.{AreOfTree};
ghost use Rattle.fx_layers.specs.StandingSizes.{NewLayersFitLaw, StandingSizesLaw};

/// Layers of the tree of objects, whose number is 1 in blocks, lie in that tree as levels, where it is
/// tree 0; and those of the allocator, 2 in blocks, lie in tree 1. So whoever installs layers that were
/// read or written has what `MayInstall` asks of their trees.
pub fn layer_trees_law()
    ensures objects { (levels : List PlainLevel) → All (λ l. All (IsOfTree 1) l.items) levels
        → AreOfTree 0 levels }
    ensures allocs { (levels : List PlainLevel) → All (λ l. All (IsOfTree 2) l.items) levels
        → AreOfTree 1 levels }
{}

/// The items of an image with a tree and true allocations are of the sizes of that tree, graveyard
/// included; so the layers of both trees that hold them have at most as many blocks as the image sets
/// aside for a new set.
pub fn standing_sizes_law()
    ensures sizes { StandingSizesLaw }
    ensures fit { NewLayersFitLaw }
{}
