//! What a transaction adds at most, and the bound on the layer blocks of a tree.
ghost use Rattle.std.specs.Prelude.{◌≡◌, ◌^◌, ◌<◌};
ghost use Rattle.fx_item.specs.SpaceRule.{layer_bound as layer_bound_of};

use crate::Sizes;

/// The most ids that a mount gives out.
pub const MAX_GIVEN: u64 = 1 << 23;

/// What a transaction does to the sizes of the tree and of the graveyard.
#[derive(Clone, Copy, Debug, PartialEq, Eq)]
pub struct Delta {
    /// What the tree gains.
    pub more: Sizes,
    /// What the tree loses.
    pub less: Sizes,
    /// What the graveyard gains.
    pub buried: Sizes,
    /// What the graveyard loses.
    pub reaped: Sizes,
}

/// What a transaction adds at most.
#[derive(Clone, Copy, Debug, Default, PartialEq, Eq)]
pub struct Need {
    pub nodes: u32,
    pub attributes: u32,
    /// Data blocks.
    pub blocks: u32,
}

/// What the counts hold beyond the committed tree.
#[derive(Clone, Copy, Debug, Default, PartialEq, Eq)]
pub struct Beyond {
    /// Nodes that were reserved.
    pub nodes: u64,
    /// Attributes that were reserved.
    pub attributes: u64,
    /// Data blocks that were reserved, drawn or not.
    pub blocks: u64,
    /// Blocks that are not free yet: freed and not settled, or kept for snapshots alone.
    pub waiting: u64,
    /// Ids given out since the mount.
    pub given: u64,
}

/// At most so many blocks are layer blocks of a tree with so many nodes, attributes and data
/// blocks.
pub fn layer_bound(nodes: u64, attributes: u64, blocks: u64) -> u64
    requires nodes { nodes < 2 ^ 48 }
    requires attributes { attributes < 2 ^ 48 }
    requires blocks { blocks < 2 ^ 48 }
    ensures { result ≡ layer_bound_of nodes attributes blocks }
{
    8 + (640 * (2 * nodes + attributes) + 128 * blocks).div_ceil(2048)
}
