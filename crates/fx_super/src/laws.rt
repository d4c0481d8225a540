//! What holds of superblocks and of the chosen one, for those who prove: the functions do nothing.
ghost use Rattle.std.specs.Prelude.{◌≡◌, ◌<◌, ◌≤◌, ℕ, List, Option, MatchOption, length, replicate, slice_set};
ghost use Rattle.fx_base.specs.declared.block.TheConstants.{BLOCK_BYTES};
ghost use Rattle.fx_super.specs.Super.{Fields, IsSuper, IsVersion};
ghost use Rattle.fx_super.specs.Chosen.{IsChosen, HasNoChosen, HasGeneration, block_of, block_number, other, choice};
ghost use Rattle.fx_super.specs.declared.choice.Which.{Which};

/// A block is a superblock of one list of fields, and it is not at once one of another version.
pub fn one_spelling()
    ensures fields { (block : List ℕ) (f g : Fields) → IsSuper block f → IsSuper block g → f ≡ g }
    ensures version { (block : List ℕ) (f : Fields) (v : ℕ)
        → IsSuper block f → IsVersion block v → ⊥ }
    ensures length { (block : List ℕ) (f : Fields) → IsSuper block f → length block ≡ BLOCK_BYTES }
{}

/// A block of zeros is no superblock of any version.
pub fn zeros()
    ensures no_super { (n : ℕ) (f : Fields) → IsSuper (replicate n 0) f → ⊥ }
    ensures no_version { (n v : ℕ) → IsVersion (replicate n 0) v → ⊥ }
{}

/// An image has one chosen superblock or none.
pub fn one_chosen()
    ensures same { (image : List (List ℕ)) (v w : Which) (f g : Fields) → IsChosen image v f
        → IsChosen image w g → (v ≡ w) × (f ≡ g) }
    ensures not_none { (image : List (List ℕ)) (w : Which) (f : Fields) → IsChosen image w f
        → HasNoChosen image → ⊥ }
{}

/// `choose` finds the chosen one, where it is given the generations of the two blocks.
pub fn chosen_by_generation()
    ensures { (image : List (List ℕ)) (a b : Option ℕ) → HasGeneration (block_of image Which.A) a
        → HasGeneration (block_of image Which.B) b
        → MatchOption (choice a b) (HasNoChosen image) (λ w. (f : Fields) × IsChosen image w f) }
{}

/// In place of the block that is not chosen, a superblock of greater generation is the chosen one,
/// and with a block that is no superblock the chosen one stays.
pub fn other_block_written()
    ensures newer { (image : List (List ℕ)) (w : Which) (f g : Fields) (block : List ℕ)
        → 2 ≤ length image → IsChosen image w f
        → IsSuper block g → f.generation < g.generation
        → IsChosen (slice_set image (block_number (other w)) block) (other w) g }
    ensures stays { (image : List (List ℕ)) (w : Which) (f : Fields) (block : List ℕ)
        → 2 ≤ length image → IsChosen image w f
        → ((g : Fields) → IsSuper block g → ⊥)
        → IsChosen (slice_set image (block_number (other w)) block) w f }
{}
