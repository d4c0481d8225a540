//! Laws on the uses of blocks, on the cells and on what each number has. The functions do nothing.
ghost use Rattle.std.specs.Prelude.{◌≡◌, ℕ, ◌<◌, ◌≤◌, Bool, true, false, Some, None, List, [], length};
ghost use Rattle.std.specs.Prelude.{slice_index_or};
ghost use Rattle.fx_disk.specs.Record.{DiskRecord};
ghost use Rattle.fx_disk.specs.Steps.{IsRecordOf, with_write, with_flush};
ghost use Rattle.fx_uses.specs.Live.{Txn};
ghost use Rattle.fx_uses.specs.Uses.{Use, Free, Drawn, System, Aside, BlockUses, AreUses, CellsHold};
ghost use Rattle.fx_uses.specs.Uses.{Staged, Freed, Layer, Pinned, live_by_use};
ghost use Rattle.fx_uses.specs.Uses.{IsDrawnFor, IsOurs, Want, wanted, bytes_now};
ghost use Rattle.fx_uses.specs.Events.{IsNextOf, with_use, with_stage, with_committed, with_rollback};
ghost use Rattle.fx_uses.specs.Events.{with_flushed, with_settling, with_laid, with_layers_flushed};
ghost use Rattle.fx_uses.specs.Events.{with_switch, with_pin_ended, with_anew};
ghost use Rattle.fx_uses.specs.Events.{let_go, switched, pin_ended};
ghost use Rattle.fx_uses.specs.Parts.{KeepsOtherParts, KeepsParts};

/// Each event keeps what the uses show. A block is staged for the first time, or again.
pub fn uses_over_events()
    ensures draw { (s : BlockUses) (who at : ℕ) → AreUses s → s.uses at ≡ Free →
        AreUses (with_use s at (Drawn who)) }
    ensures stage { (s : BlockUses) (who at sum : ℕ) (ok : Bool) → AreUses s →
        IsDrawnFor who (s.uses at) → AreUses (with_stage s who at sum ok) }
    ensures commit { (s : BlockUses) (who : ℕ) (t : Txn) → AreUses s → IsNextOf s who t →
        AreUses (with_committed s who t) }
    ensures rollback { (s : BlockUses) (who : ℕ) → AreUses s → AreUses (with_rollback s who) }
    ensures flush { (s : BlockUses) → AreUses s → AreUses (with_flushed s) }
    ensures settle { (s : BlockUses) (n : ℕ) → AreUses s → s.settled ≤ n → n ≤ s.firm →
        AreUses (with_settling s n) }
{}

/// And so does each event of a checkpoint, whichever layers stay, and the end of a pin.
pub fn uses_over_checkpoint()
    ensures aside { (s : BlockUses) (at : ℕ) → AreUses s → s.uses at ≡ Free →
        AreUses (with_use s at Aside) }
    ensures laid { (s : BlockUses) (at sum : ℕ) (ok : Bool) → AreUses s → s.uses at ≡ Aside →
        AreUses (with_laid s at sum ok) }
    ensures flushed { (s : BlockUses) → AreUses s → AreUses (with_layers_flushed s) }
    ensures switch { (s : BlockUses) (stays kept : ℕ → Bool) → AreUses s →
        AreUses (with_switch s stays kept) }
    ensures pin_ended { (s : BlockUses) (kept : ℕ → Bool) → AreUses s →
        AreUses (with_pin_ended s kept) }
    ensures anew { (s : BlockUses) → AreUses s → AreUses (with_anew s) }
{}

/// Each event keeps what the uses want of the cells. A write may be of any block of the system.
pub fn cells_over_events()
    ensures draw { (sum : List ℕ → ℕ) (s : BlockUses) (r : DiskRecord) (who at : ℕ) →
        CellsHold sum s r → CellsHold sum (with_use s at (Drawn who)) r }
    ensures stage { (sum : List ℕ → ℕ) (s : BlockUses) (r : DiskRecord) (who at : ℕ)
        (put : List ℕ) (ok : Bool) (held : List ℕ) → at < length r.entry →
        IsDrawnFor who (s.uses at) → CellsHold sum s r →
        CellsHold sum (with_stage s who at (sum put) ok) (with_write r at put ok held) }
    ensures commit { (sum : List ℕ → ℕ) (s : BlockUses) (r : DiskRecord) (who : ℕ) (t : Txn) →
        AreUses s → IsNextOf s who t → CellsHold sum s r →
        CellsHold sum (with_committed s who t) r }
    ensures rollback { (sum : List ℕ → ℕ) (s : BlockUses) (r : DiskRecord) (who : ℕ) →
        CellsHold sum s r → CellsHold sum (with_rollback s who) r }
    ensures flush { (sum : List ℕ → ℕ) (s : BlockUses) (r : DiskRecord) →
        CellsHold sum s r → CellsHold sum (with_flushed s) (with_flush r true) }
    ensures failed_flush { (sum : List ℕ → ℕ) (s : BlockUses) (r : DiskRecord) →
        CellsHold sum s r → CellsHold sum s (with_flush r false) }
    ensures settle { (sum : List ℕ → ℕ) (s : BlockUses) (r : DiskRecord) (n : ℕ) →
        CellsHold sum s r → CellsHold sum (with_settling s n) r }
    ensures system { (sum : List ℕ → ℕ) (s : BlockUses) (r : DiskRecord) (at : ℕ) (put : List ℕ)
        (ok : Bool) (held : List ℕ) → s.uses at ≡ System → CellsHold sum s r →
        CellsHold sum s (with_write r at put ok held) }
{}

/// And so does each event of a checkpoint, and the end of a pin.
pub fn cells_over_checkpoint()
    ensures aside { (sum : List ℕ → ℕ) (s : BlockUses) (r : DiskRecord) (at : ℕ) →
        CellsHold sum s r → CellsHold sum (with_use s at Aside) r }
    ensures laid { (sum : List ℕ → ℕ) (s : BlockUses) (r : DiskRecord) (at : ℕ) (put : List ℕ)
        (ok : Bool) (held : List ℕ) → at < length r.entry → s.uses at ≡ Aside → CellsHold sum s r →
        CellsHold sum (with_laid s at (sum put) ok) (with_write r at put ok held) }
    ensures flushed { (sum : List ℕ → ℕ) (s : BlockUses) (r : DiskRecord) →
        CellsHold sum s r → CellsHold sum (with_layers_flushed s) (with_flush r true) }
    ensures switch { (sum : List ℕ → ℕ) (s : BlockUses) (stays kept : ℕ → Bool) (r : DiskRecord) →
        CellsHold sum s r → CellsHold sum (with_switch s stays kept) r }
    ensures pin_ended { (sum : List ℕ → ℕ) (s : BlockUses) (kept : ℕ → Bool) (r : DiskRecord) →
        CellsHold sum s r → CellsHold sum (with_pin_ended s kept) r }
    ensures anew { (sum : List ℕ → ℕ) (s : BlockUses) (r : DiskRecord) →
        CellsHold sum s r → CellsHold sum (with_anew s) r }
{}

/// What one number does leaves the part of every other. A flush, good or failed, a settling, and a write of
/// the ring or a superblock leave all parts.
pub fn parts_over_events()
    ensures draw { (s : BlockUses) (r : DiskRecord) (who at : ℕ) → s.uses at ≡ Free →
        KeepsOtherParts who s r (with_use s at (Drawn who)) r }
    ensures stage { (s : BlockUses) (r : DiskRecord) (who at sum : ℕ) (put : List ℕ) (ok : Bool)
        (held : List ℕ) → IsDrawnFor who (s.uses at) →
        KeepsOtherParts who s r (with_stage s who at sum ok) (with_write r at put ok held) }
    ensures commit { (s : BlockUses) (r : DiskRecord) (who : ℕ) (t : Txn) →
        KeepsOtherParts who s r (with_committed s who t) r }
    ensures rollback { (s : BlockUses) (r : DiskRecord) (who : ℕ) →
        KeepsOtherParts who s r (with_rollback s who) r }
    ensures flush { (s : BlockUses) (r : DiskRecord) (ok : Bool) →
        KeepsParts s r s (with_flush r ok) }
    ensures settle { (s : BlockUses) (r : DiskRecord) (n : ℕ) →
        KeepsParts s r (with_settling s n) r }
    ensures system { (s : BlockUses) (r : DiskRecord) (at : ℕ) (put : List ℕ) (ok : Bool)
        (held : List ℕ) → s.uses at ≡ System → KeepsParts s r s (with_write r at put ok held) }
{}

/// A checkpoint and the end of a pin leave all parts.
pub fn parts_over_checkpoint()
    ensures aside { (s : BlockUses) (r : DiskRecord) (at : ℕ) → s.uses at ≡ Free →
        KeepsParts s r (with_use s at Aside) r }
    ensures laid { (s : BlockUses) (r : DiskRecord) (at sum : ℕ) (put : List ℕ) (ok : Bool)
        (held : List ℕ) → s.uses at ≡ Aside →
        KeepsParts s r (with_laid s at sum ok) (with_write r at put ok held) }
    ensures flushed { (s : BlockUses) (r : DiskRecord) →
        KeepsParts s r (with_layers_flushed s) (with_flush r true) }
    ensures switch { (s : BlockUses) (stays kept : ℕ → Bool) (r : DiskRecord) →
        KeepsParts s r (with_switch s stays kept) r }
    ensures pin_ended { (s : BlockUses) (kept : ℕ → Bool) (r : DiskRecord) →
        KeepsParts s r (with_pin_ended s kept) r }
    ensures anew { (s : BlockUses) (r : DiskRecord) → KeepsParts s r (with_anew s) r }
{}

/// A good read of a block of which something is wanted gives what was put there last, and where a
/// transaction put it, it has its stated sum.
pub fn reads_in_use()
    ensures put { (sum : List ℕ → ℕ) (s : BlockUses) (size calls b : ℕ) (r : DiskRecord) →
        IsRecordOf size calls r → CellsHold sum s r → (wanted (s.uses b) ≡ Want.Nothing → ⊥) →
        slice_index_or r.contents b [] ≡ bytes_now r b }
    ensures stated { (sum : List ℕ → ℕ) (s : BlockUses) (size calls b : ℕ) (r : DiskRecord) →
        IsRecordOf size calls r → CellsHold sum s r → IsOurs s.right (s.uses b) →
        sum (slice_index_or r.contents b []) ≡ s.sums b }
{}

/// A worked block: it is staged twice, and where the second write failed it is drawn again; it is live
/// from transaction 12 to 15, which frees it; once 15 is settled it is free. A layer's block that stays is a
/// layer's still; one that does not is kept for a pin, or free.
pub fn worked_block()
    ensures again { (s : BlockUses) →
        (with_stage (with_stage s 3 7 11 true) 3 7 12 true).uses 7 ≡ Staged 3 }
    ensures failed { (s : BlockUses) →
        (with_stage (with_stage s 3 7 11 true) 3 7 12 false).uses 7 ≡ Drawn 3 }
    ensures live { (sum : ℕ) → (live_by_use 11 (Freed 12 15) sum ≡ None) ×
        (live_by_use 12 (Freed 12 15) sum ≡ Some sum) ×
        (live_by_use 14 (Freed 12 15) sum ≡ Some sum) ×
        (live_by_use 15 (Freed 12 15) sum ≡ None) }
    ensures settled { (let_go 14 (Freed 12 15) ≡ Freed 12 15) × (let_go 15 (Freed 12 15) ≡ Free) }
    ensures layers { (switched true false Layer ≡ Layer) × (switched false true Layer ≡ Pinned) ×
        (switched false false Layer ≡ Free) × (pin_ended false Pinned ≡ Free) }
{}
