//! What the log of a disk is made of: which superblock is chosen, the ring of blocks that it names,
//! and what of an image is not there by chance.
//!
//! Definitions and lemmas alone: the functions do nothing.
#![tactic(auto)]

ghost use Rattle.std.specs.Prelude.{◌≡◌, ℕ, List};
ghost use Rattle.fx_super.specs.Super.{Fields};
ghost use Rattle.fx_log.specs.Chosen.{ChoosesSuper};

/// An image has one superblock chosen at most.
pub fn superblock_law()
    ensures one { (image : List (List ℕ)) (f g : Fields) →
        ChoosesSuper f image → ChoosesSuper g image → f ≡ g }
{}
