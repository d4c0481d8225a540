//! Laws on layers in images. The functions do nothing.
ghost use Rattle.std.specs.Prelude.{◌≡◌, ℕ, ◌≤◌, None, List, Contains};
ghost use Rattle.fx_disk.specs.Record.{DiskRecord, LeftNow};
ghost use Rattle.fx_uses.specs.Live.{live_after};
ghost use Rattle.fx_uses.specs.Uses.{BlockUses, AreUses, CellsHold, last, image_block};
ghost use Rattle.fx_uses.specs.Layers.{ReadsNamed, Reader, IsNamed};

use fx_uses::LayerMeaning;

/// In each image left now, the layers of the current superblock, of the one to come, and those that pins
/// keep, say what was put in them. None of their blocks is live after a number that an image may keep.
pub fn layers_in_images<L: LayerMeaning>()
    ensures says { ReadsNamed L.means → (sum : List ℕ → ℕ) (s : BlockUses) (r : DiskRecord)
        (image : List (List ℕ)) (reader : Reader) (base : ℕ) (firsts blocks : List ℕ)
        (said : L.means.Said) → CellsHold sum s r → LeftNow r image →
        IsNamed L.means s r reader base firsts blocks said →
        L.means.Says (image_block image) firsts blocks said }
    ensures apart { (s : BlockUses) (r : DiskRecord) (reader : Reader) (base : ℕ)
        (firsts blocks : List ℕ) (said : L.means.Said) (k b : ℕ) → AreUses s →
        IsNamed L.means s r reader base firsts blocks said → Contains blocks b → s.settled ≤ k →
        k ≤ last s → live_after s.first s.txns k b ≡ None }
{}
