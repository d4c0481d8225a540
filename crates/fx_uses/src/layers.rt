//! Laws on the layers that a superblock names and on those that pins keep. The functions do nothing.
ghost use Rattle.std.specs.Prelude.{◌≡◌, ◌⊎◌, ℕ, ◌≤◌, Bool, true, List, Contains};
ghost use Rattle.fx_disk.specs.Record.{DiskRecord};
ghost use Rattle.fx_disk.specs.Steps.{with_write, with_flush};
ghost use Rattle.fx_uses.specs.Live.{Txn};
ghost use Rattle.fx_uses.specs.Uses.{Use, BlockUses, AreUses, last, bytes_now};
ghost use Rattle.fx_uses.specs.Events.{with_use, with_put, with_committed, with_rollback, with_flushed};
ghost use Rattle.fx_uses.specs.Events.{with_settling, with_layers_flushed, with_switch};
ghost use Rattle.fx_uses.specs.Events.{with_pin_ended, with_anew};
ghost use Rattle.fx_uses.specs.Layers.{LayerSense, ReadsNamed, Reader, Current, Next, Pins, IsReadBy};
ghost use Rattle.fx_uses.specs.Layers.{IsWrittenFor, IsNamed};

/// What layers mean.
pub trait LayerMeaning {
    ghost means: { LayerSense };
}

/// The layers stay named over each event, whoever reads them: a block that is not read is put to use or
/// written, a flush, a settling, a commit, a rollback, a checkpoint that begins anew.
pub fn layers_over_events<L: LayerMeaning>()
    ensures drawn { ReadsNamed L.means → (s : BlockUses) (r : DiskRecord) (reader : Reader)
        (base : ℕ) (firsts blocks : List ℕ) (said : L.means.Said) (at : ℕ) (to : Use) →
        (IsReadBy reader at (s.uses at) → ⊥) →
        IsNamed L.means s r reader base firsts blocks said →
        IsNamed L.means (with_use s at to) r reader base firsts blocks said }
    ensures put { ReadsNamed L.means → (s : BlockUses) (r : DiskRecord) (reader : Reader) (base : ℕ)
        (firsts blocks : List ℕ) (said : L.means.Said) (at sum : ℕ) (to : Use) (bytes : List ℕ)
        (ok : Bool) (held : List ℕ) → (IsReadBy reader at (s.uses at) → ⊥) →
        IsNamed L.means s r reader base firsts blocks said →
        IsNamed L.means (with_put s at to sum) (with_write r at bytes ok held) reader base firsts
        blocks said }
    ensures written { ReadsNamed L.means → (s : BlockUses) (r : DiskRecord) (reader : Reader)
        (base : ℕ) (firsts blocks : List ℕ) (said : L.means.Said) (at : ℕ) (bytes : List ℕ)
        (ok : Bool) (held : List ℕ) → (IsReadBy reader at (s.uses at) → ⊥) →
        IsNamed L.means s r reader base firsts blocks said →
        IsNamed L.means s (with_write r at bytes ok held) reader base firsts blocks said }
    ensures flush { ReadsNamed L.means → (s : BlockUses) (r : DiskRecord) (reader : Reader)
        (base : ℕ) (firsts blocks : List ℕ) (said : L.means.Said) (ok : Bool) →
        IsNamed L.means s r reader base firsts blocks said →
        IsNamed L.means s (with_flush r ok) reader base firsts blocks said }
    ensures firm { ReadsNamed L.means → (s : BlockUses) (r : DiskRecord) (reader : Reader)
        (base : ℕ) (firsts blocks : List ℕ) (said : L.means.Said) → AreUses s →
        IsNamed L.means s r reader base firsts blocks said →
        IsNamed L.means (with_flushed s) r reader base firsts blocks said }
    ensures settle { ReadsNamed L.means → (s : BlockUses) (r : DiskRecord) (n : ℕ) (reader : Reader)
        (base : ℕ) (firsts blocks : List ℕ) (said : L.means.Said) →
        IsNamed L.means s r reader base firsts blocks said →
        IsNamed L.means (with_settling s n) r reader base firsts blocks said }
    ensures commit { ReadsNamed L.means → (s : BlockUses) (r : DiskRecord) (who : ℕ) (t : Txn)
        (reader : Reader) (base : ℕ) (firsts blocks : List ℕ) (said : L.means.Said) →
        IsNamed L.means s r reader base firsts blocks said →
        IsNamed L.means (with_committed s who t) r reader base firsts blocks said }
    ensures rollback { ReadsNamed L.means → (s : BlockUses) (r : DiskRecord) (who : ℕ)
        (reader : Reader) (base : ℕ) (firsts blocks : List ℕ) (said : L.means.Said) →
        IsNamed L.means s r reader base firsts blocks said →
        IsNamed L.means (with_rollback s who) r reader base firsts blocks said }
    ensures anew { ReadsNamed L.means → (s : BlockUses) (r : DiskRecord) (reader : Reader)
        (base : ℕ) (firsts blocks : List ℕ) (said : L.means.Said) →
        IsNamed L.means s r reader base firsts blocks said →
        IsNamed L.means (with_anew s) r reader base firsts blocks said }
{}

/// A checkpoint's blocks, written well, beside old layers that stay, are named by the superblock to come
/// once they are flushed, and by the current superblock once that one is settled. The flush leaves all
/// other layers named.
pub fn layers_of_checkpoint<L: LayerMeaning>()
    ensures flushed { ReadsNamed L.means → (s : BlockUses) (r : DiskRecord) (stays : ℕ → Bool)
        (base : ℕ) (firsts blocks : List ℕ) (said : L.means.Said) →
        ((b : ℕ) → Contains blocks b → IsWrittenFor stays b (s.uses b)) →
        L.means.Says (bytes_now r) firsts blocks said → base ≤ last s →
        IsNamed L.means (with_layers_flushed s) (with_flush r true) (Next stays) base firsts blocks
        said }
    ensures others { ReadsNamed L.means → (s : BlockUses) (r : DiskRecord) (reader : Reader)
        (base : ℕ) (firsts blocks : List ℕ) (said : L.means.Said) → AreUses s →
        IsNamed L.means s r reader base firsts blocks said →
        IsNamed L.means (with_layers_flushed s) (with_flush r true) reader base firsts blocks said }
    ensures switch { ReadsNamed L.means → (s : BlockUses) (r : DiskRecord) (stays kept : ℕ → Bool)
        (base : ℕ) (firsts blocks : List ℕ) (said : L.means.Said) →
        IsNamed L.means s r (Next stays) base firsts blocks said →
        IsNamed L.means (with_switch s stays kept) r Current base firsts blocks said }
{}

/// A pin keeps the layers that are current when it is made: over a checkpoint that gives them up, over the
/// end of other pins, after which they are among what the pins left keep, and where more pins are made. The
/// end of a pin leaves what superblocks name.
pub fn layers_of_pins<L: LayerMeaning>()
    ensures made { ReadsNamed L.means → (s : BlockUses) (r : DiskRecord) (kept : ℕ → Bool)
        (base : ℕ) (firsts blocks : List ℕ) (said : L.means.Said) →
        ((b : ℕ) → Contains blocks b → kept b ≡ true) →
        IsNamed L.means s r Current base firsts blocks said →
        IsNamed L.means s r (Pins kept) base firsts blocks said }
    ensures switch { ReadsNamed L.means → (s : BlockUses) (r : DiskRecord) (stays kept : ℕ → Bool)
        (base : ℕ) (firsts blocks : List ℕ) (said : L.means.Said) →
        IsNamed L.means s r (Pins kept) base firsts blocks said →
        IsNamed L.means (with_switch s stays kept) r (Pins kept) base firsts blocks said }
    ensures ended { ReadsNamed L.means → (s : BlockUses) (r : DiskRecord) (kept left : ℕ → Bool)
        (base : ℕ) (firsts blocks : List ℕ) (said : L.means.Said) →
        ((b : ℕ) → Contains blocks b → left b ≡ true) →
        IsNamed L.means s r (Pins kept) base firsts blocks said →
        IsNamed L.means (with_pin_ended s left) r (Pins left) base firsts blocks said }
    ensures more { ReadsNamed L.means → (s : BlockUses) (r : DiskRecord) (kept more : ℕ → Bool)
        (base : ℕ) (firsts blocks : List ℕ) (said : L.means.Said) →
        ((b : ℕ) → Contains blocks b → more b ≡ true) →
        IsNamed L.means s r (Pins kept) base firsts blocks said →
        IsNamed L.means s r (Pins more) base firsts blocks said }
    ensures current { ReadsNamed L.means → (s : BlockUses) (r : DiskRecord) (left : ℕ → Bool)
        (base : ℕ) (firsts blocks : List ℕ) (said : L.means.Said) →
        IsNamed L.means s r Current base firsts blocks said →
        IsNamed L.means (with_pin_ended s left) r Current base firsts blocks said }
    ensures next { ReadsNamed L.means → (s : BlockUses) (r : DiskRecord) (stays left : ℕ → Bool)
        (base : ℕ) (firsts blocks : List ℕ) (said : L.means.Said) →
        IsNamed L.means s r (Next stays) base firsts blocks said →
        IsNamed L.means (with_pin_ended s left) r (Next stays) base firsts blocks said }
{}
