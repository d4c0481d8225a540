//! Laws for callers. The functions do nothing.
ghost use Rattle.std.specs.Prelude.{◌≡◌};
ghost use Rattle.fx_sound.specs.Image.{PlainImage, AreStanding};
ghost use Rattle.fx_sound.specs.Parts.{IsSoundImage};
ghost use Rattle.fx_sound.specs.Faults.{IsFirstFault};
ghost use Rattle.fx_sound.specs.declared.image.ImageFault.{ImageFault};

/// At most one fault is the first. A sound image has none, and an image that has none is sound: it
/// stands for a tree, and the other parts hold.
pub fn fault_laws()
    ensures one { (image : PlainImage) (a b : ImageFault)
        → IsFirstFault image a → IsFirstFault image b → a ≡ b }
    ensures sound { (image : PlainImage) → AreStanding image.items
        → ((fault : ImageFault) → IsFirstFault image fault → ⊥) → IsSoundImage image }
    ensures none { (image : PlainImage) (fault : ImageFault)
        → IsSoundImage image → IsFirstFault image fault → ⊥ }
{}
