//! Laws of what is found, for those who prove: the functions do nothing.
ghost use Rattle.std.specs.Prelude.{◌≡◌, ◌↔◌, ℕ, true, Contains, List, map};
ghost use Rattle.fx_item.specs.Item.{PlainItem};
ghost use Rattle.fx_item.specs.Overlay.{Point};
ghost use Rattle.fx_contents.specs.Allocated.{AreAllocated};
ghost use Rattle.fx_contents.specs.Points.{Points};
ghost use Rattle.fx_live.specs.Live.{AreTogether, IsKeptByExtents, points_through};
ghost use Rattle.fx_uses.specs.Live.{AreNumbered, txn_of};
ghost use Rattle.fx_kept.specs.Kept.{IsKeptIn};
ghost use Rattle.fx_verify.specs.Kept.{is_written};
ghost use Rattle.fx_sound.specs.Image.{points_in};
ghost use Rattle.fx_sound.specs.Parts.{IsSoundImage};
ghost use Rattle.fx_found.specs.Image.{HasImageParts, ImageParts, StandInLevels, judged_image, kept_txns, levels_of_parts};
ghost use Rattle.fx_found.specs.Faults.{IsFindFault};
ghost use Rattle.fx_found.specs.Only.{MayStillHold, base_points};
ghost use Rattle.fx_found.specs.Reading.{sums_in};
ghost use Rattle.fx_found.specs.declared.fault.FindFault.{FindFault};

/// An image has one list of parts at most. Of a sound one no fault of its own holds, but perhaps that
/// it is cramped: that this is the same by any list of the items that stand is not stated.
pub fn image_laws()
    ensures one { (size : ℕ) (image : List (List ℕ)) (p q : ImageParts)
        → HasImageParts size image p → HasImageParts size image q → q ≡ p }
    ensures sound { (size : ℕ) (image : List (List ℕ)) (p : ImageParts) (items : List PlainItem)
        (fault : FindFault) → HasImageParts size image p
        → StandInLevels (levels_of_parts p) items → IsSoundImage (judged_image size p items)
        → IsFindFault size image fault → MayStillHold fault }
{}

/// The items that stand are what the layers say and then the kept transactions, one after another. Where
/// the allocator and the extents agree before the transactions and none leaves them apart, the number that
/// is kept is the one by extents.
pub fn kept_laws()
    ensures points { (p : ImageParts) (items : List PlainItem)
        → StandInLevels (levels_of_parts p) items → (x : Point)
        → points_in items x ≡ points_through (base_points p) (kept_txns p) x }
    ensures extents { (sum : List ℕ → ℕ) (begin : ℕ) (image : List (List ℕ)) (m : Points)
        (base k : ℕ) (txns : List (ℕ × List PlainItem)) (blocks : List ℕ) → AreAllocated m
        → AreTogether m txns → AreNumbered base (map txn_of txns)
        → ((b : ℕ) → Contains blocks b ↔ (is_written txns b ≡ true))
        → IsKeptIn sum begin image base txns k
        → IsKeptByExtents m base txns (sums_in sum begin image blocks) k }
{}
