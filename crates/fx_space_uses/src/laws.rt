//! Laws on the allocator's table and the uses of blocks. The functions do nothing.
ghost use Rattle.std.specs.Prelude.{◌≡◌, ◌⊎◌, ℕ, ◌+◌, ◌<◌, ◌≤◌, Option, Some, None, List, length};
ghost use Rattle.fx_item.specs.declared.Sizes.{Sizes};
ghost use Rattle.fx_item.specs.declared.space.Need.{Need};
ghost use Rattle.fx_alloc.specs.declared.uses.Use.TheVariants as called;
ghost use Rattle.fx_alloc.specs.Uses.{use_at};
ghost use Rattle.fx_alloc.specs.Pins.{is_among, is_kept};
ghost use Rattle.fx_alloc.specs.Holders.{held_seat, vacant_seat};
ghost use Rattle.fx_alloc.specs.Space.{Space, reserved, drawing, holder_ended, freeing, settling};
ghost use Rattle.fx_alloc.specs.Space.{opened, seat_given};
ghost use Rattle.fx_alloc.specs.Space.{setting_aside, laying, IsSwitched, IsUnpinned};
ghost use Rattle.fx_alloc.specs.Inside.{IsSoundSpace};
ghost use Rattle.fx_uses.specs.Live.{Txn};
ghost use Rattle.fx_uses.specs.Uses.{Use, Free, Drawn, Staged, Freed, Aside, Laid, Coming, IsDrawnFor};
ghost use Rattle.fx_uses.specs.Events.{at_place, taken_over, given_back, let_go, abandoned};
ghost use Rattle.fx_uses.specs.Events.{laid_firm, switched, pin_ended};
ghost use Rattle.fx_kept.specs.Opened.{AreOthers, opened_uses};
ghost use Rattle.fx_space_uses.specs.TableUses.{IsTableOf, AreListed};

/// What the table tells of a use: a block that it calls free is free, and one that is drawn from a number's
/// seat is the number's. Calls that change no block, no seat and nothing that waits leave the table.
pub fn table_tells()
    ensures free { (uses : ℕ → Use) (s : Space) (at : ℕ) → IsTableOf uses s → at < length s.uses →
        use_at s.uses at ≡ called.Free → uses at ≡ Free }
    ensures drawn { (uses : ℕ → Use) (s : Space) (who at seat : ℕ) → IsTableOf uses s →
        at < length s.uses → held_seat s.holders who ≡ Some seat →
        use_at s.uses at ≡ called.Drawn seat → IsDrawnFor who (uses at) }
    ensures same { (uses : ℕ → Use) (s t : Space) → t.uses ≡ s.uses → t.holders ≡ s.holders →
        t.waiting ≡ s.waiting → IsTableOf uses s → IsTableOf uses t }
{}

/// A mount makes the table of the uses that it begins with: of the blocks of the disk the lists have just
/// those that are live and those of layers.
pub fn table_at_mount()
    ensures opened { (blocks ring right base : ℕ) (first : ℕ → Option ℕ) (txns : List Txn)
        (others : ℕ → Use) (live layers : List ℕ) (sizes : Sizes) → ring + 2 ≤ blocks →
        AreOthers (ring + 2) others →
        AreListed blocks (opened_uses (ring + 2) right first base txns others).uses live layers →
        IsTableOf (opened_uses (ring + 2) right first base txns others).uses
        (opened blocks ring live layers sizes) }
{}

/// What a number does: it is given a seat that no number has; a reservation changes no use; a draw takes a block; a staging changes nothing in the
/// table; a commit makes what was drawn live, where all of it is staged; a rollback makes it free.
pub fn table_over_numbers()
    ensures seated { (uses : ℕ → Use) (s : Space) (who seat : ℕ) →
        held_seat s.holders who ≡ None → vacant_seat s.holders ≡ Some seat → IsTableOf uses s →
        IsTableOf uses (seat_given s who seat) }
    ensures reserve { (uses : ℕ → Use) (s : Space) (seat : ℕ) (need : Need) → IsTableOf uses s →
        IsTableOf uses (reserved s need seat) }
    ensures draw { (uses : ℕ → Use) (s : Space) (who at seat : ℕ) →
        held_seat s.holders who ≡ Some seat → at < length s.uses → IsTableOf uses s →
        IsTableOf (at_place at (Drawn who) uses) (drawing s at seat) }
    ensures stage { (uses : ℕ → Use) (s : Space) (who at : ℕ) (to : Use) →
        IsDrawnFor who (uses at) → (to ≡ Drawn who) ⊎ (to ≡ Staged who) → IsTableOf uses s →
        IsTableOf (at_place at to uses) s }
    ensures commit { (uses : ℕ → Use) (s : Space) (who n seat : ℕ) →
        held_seat s.holders who ≡ Some seat → ((b : ℕ) → uses b ≡ Drawn who → ⊥) →
        IsTableOf uses s →
        IsTableOf (λ b. taken_over who n (uses b)) (holder_ended s called.Live seat) }
    ensures rollback { (uses : ℕ → Use) (s : Space) (who seat : ℕ) →
        held_seat s.holders who ≡ Some seat → IsTableOf uses s →
        IsTableOf (λ b. given_back who (uses b)) (holder_ended s called.Free seat) }
{}

/// What is freed waits until its transaction is settled, and is free from then on.
pub fn table_over_settling()
    ensures freed { (uses : ℕ → Use) (s : Space) (at since n : ℕ) → at < length s.uses →
        IsTableOf uses s → IsTableOf (at_place at (Freed since n) uses) (freeing s at n) }
    ensures settled { (uses : ℕ → Use) (s : Space) (n : ℕ) → IsSoundSpace s → IsTableOf uses s →
        IsTableOf (λ b. let_go n (uses b)) (settling s n) }
{}

/// A checkpoint that begins, or begins anew before its flush, gives up what was laid; it takes blocks one by
/// one, writes and flushes them, which the table does not tell apart; and then the layers switch, where all
/// that was laid is flushed. A pin that ends frees what none of those left keeps.
pub fn table_over_checkpoint()
    ensures aside { (uses : ℕ → Use) (s : Space) → ((b : ℕ) → uses b ≡ Coming → ⊥) →
        IsTableOf uses s → IsTableOf (λ b. abandoned (uses b)) (setting_aside s) }
    ensures taken { (uses : ℕ → Use) (s : Space) (at : ℕ) → at < length s.uses →
        IsTableOf uses s → IsTableOf (at_place at Aside uses) (laying s at) }
    ensures written { (uses : ℕ → Use) (s : Space) (at : ℕ) → uses at ≡ Aside → IsTableOf uses s →
        IsTableOf (at_place at Laid uses) s }
    ensures flushed { (uses : ℕ → Use) (s : Space) → IsTableOf uses s →
        IsTableOf (λ b. laid_firm (uses b)) s }
    ensures switch { (uses : ℕ → Use) (s t : Space) (stay : List ℕ) → IsSwitched s t stay →
        ((b : ℕ) → (uses b ≡ Aside) ⊎ (uses b ≡ Laid) → ⊥) → IsTableOf uses s →
        IsTableOf (λ b. switched (is_among b stay) (is_kept s.pins.kept b) (uses b)) t }
    ensures pin_ended { (uses : ℕ → Use) (s t : Space) (pin : ℕ) → IsUnpinned s t pin →
        IsTableOf uses s → IsTableOf (λ b. pin_ended (is_kept t.pins.kept b) (uses b)) t }
{}
