//! What holds of every record of a disk, for those who prove: the functions do nothing.
ghost use Rattle.std.specs.Prelude.{◌≡◌, ◌∷◌, ◌++◌, ℕ, ◌+◌, ◌<◌, ◌≤◌, ◌↔◌, Bool, true, false};
ghost use Rattle.std.specs.Prelude.{Option, List, Contains, length, slice_index_or, slice_set, []};
ghost use Rattle.std.specs.Option.{IfSome};
ghost use Rattle.fx_disk.specs.Record.{Call, Write, Flush, DiskRecord, Cell, Left, LeftNow};
ghost use Rattle.fx_disk.specs.Record.{candidates, settled_cell, written_cell, cell_at, cell_now};
ghost use Rattle.fx_disk.specs.Loose.{IsLooseAt, IsLeft, AreWrites};
ghost use Rattle.fx_disk.specs.Steps.{MayHold, IsRecordOf, with_call, with_write, with_flush};
ghost use Rattle.fx_disk.specs.Seen.{DiskSeen, HasWritten, HasFlushed};
ghost use Rattle.fx_disk.specs.Always.{Always, HoldsNow, Implies, HoldsWithin};
ghost use Rattle.fx_disk.specs.Settled.{IsSettled, HasNoFailed, WasSettled, IsChangedAt, IsGoodWrite};

/// The fold over a block's calls finds it loose exactly where it was written after the last
/// successful flush, or where its last write before that flush failed.
pub fn loose_blocks()
    ensures { (r : DiskRecord) (b m : ℕ) → m ≤ length r.calls →
        ((cell_at r m b).loose ≡ true) ↔ IsLooseAt r.calls b m }
{}

/// The fold keeps of each block its bytes at entry and the bytes of every write of it, in the order
/// of the calls; a flush drops none. A candidate is one of these, and so are the bytes of the last
/// write.
pub fn written_blocks()
    ensures writes { (r : DiskRecord) (b m : ℕ) → m ≤ length r.calls →
        AreWrites r.calls b (m + 1) (cell_at r m b).written }
    ensures entry { (r : DiskRecord) (b m : ℕ) →
        (cell_at r m b).entry ≡ slice_index_or r.entry b [] }
    ensures last { (r : DiskRecord) (b m : ℕ) →
        Contains (candidates (cell_at r m b)) (cell_at r m b).bytes }
    ensures candidate { (r : DiskRecord) (b m : ℕ) (value : List ℕ) →
        Contains (candidates (cell_at r m b)) value →
        Contains ((cell_at r m b).entry ∷ (cell_at r m b).written) value }
{}

/// The images left by the fold are those that hold in each block that is not loose the bytes of its
/// last write.
pub fn images_left()
    ensures { (r : DiskRecord) (m : ℕ) (image : List (List ℕ)) → m ≤ length r.calls →
        Left r m image ↔ IsLeft r m image }
{}

/// A further call changes nothing at the moments before it. Within a write is left what is left
/// after it, and within a flush what was left before it.
pub fn further_calls()
    ensures earlier { (r : DiskRecord) (call : Call) (contents image : List (List ℕ)) (m : ℕ) →
        m < length r.calls → Left (with_call r call contents) m image ↔ Left r m image }
    ensures within_write { (r : DiskRecord) (at : ℕ) (bytes : List ℕ) (ok : Bool)
        (contents image : List (List ℕ)) →
        Left (with_call r (Write at bytes ok) contents) (length r.calls) image
        ↔ LeftNow (with_call r (Write at bytes ok) contents) image }
    ensures within_flush { (r : DiskRecord) (ok : Bool) (contents image : List (List ℕ)) →
        Left (with_call r (Flush ok) contents) (length r.calls) image ↔ LeftNow r image }
    ensures after { (r : DiskRecord) (call : Call) (contents image : List (List ℕ)) →
        Left (with_call r call contents) (length r.calls + 1) image
        ↔ LeftNow (with_call r call contents) image }
{}

/// A successful flush settles each block whose last write was good, and a failed one settles
/// nothing. A block whose last write failed stays as it was.
pub fn flushed_blocks()
    ensures good { (r : DiskRecord) (b : ℕ) (contents : List (List ℕ)) →
        (cell_now r b).failed ≡ false →
        cell_now (with_call r (Flush true) contents) b ≡ settled_cell (cell_now r b) }
    ensures failed_write { (r : DiskRecord) (b : ℕ) (ok : Bool) (contents : List (List ℕ)) →
        (cell_now r b).failed ≡ true → cell_now (with_call r (Flush ok) contents) b ≡ cell_now r b }
    ensures failed_flush { (r : DiskRecord) (b : ℕ) (contents : List (List ℕ)) →
        cell_now (with_call r (Flush false) contents) b ≡ cell_now r b }
{}

/// A disk is one of its own images as it reads, and where nothing is loose it is the only one.
pub fn own_image()
    ensures left { (size calls : ℕ) (r : DiskRecord) → IsRecordOf size calls r →
        LeftNow r r.contents }
    ensures alone { (size calls : ℕ) (r : DiskRecord) (image : List (List ℕ)) →
        IsRecordOf size calls r → IsSettled r → LeftNow r image → image ≡ r.contents }
{}

/// An image holds a candidate in each block that is not torn, and a block that is not loose has one
/// candidate, the bytes of its last write.
pub fn held_candidates()
    ensures image { (r : DiskRecord) (b : ℕ) (image : List (List ℕ)) → b < length r.entry →
        LeftNow r image → ((cell_now r b).loose ≡ true →
        Contains (candidates (cell_now r b)) (slice_index_or image b [])) →
        Contains (candidates (cell_now r b)) (slice_index_or image b []) }
    ensures fixed { (r : DiskRecord) (b : ℕ) → (cell_now r b).loose ≡ false →
        candidates (cell_now r b) ≡ (cell_now r b).bytes ∷ [] }
{}

/// A write adds its bytes to its block's cell, and leaves every other block's cell.
pub fn block_after_write()
    ensures written { (r : DiskRecord) (at : ℕ) (bytes : List ℕ) (ok : Bool)
        (contents : List (List ℕ)) → cell_now (with_call r (Write at bytes ok) contents) at
        ≡ written_cell bytes ok (cell_now r at) }
    ensures other { (r : DiskRecord) (b at : ℕ) (bytes : List ℕ) (ok : Bool)
        (contents : List (List ℕ)) → (at ≡ b → ⊥) →
        cell_now (with_call r (Write at bytes ok) contents) b ≡ cell_now r b }
{}

/// A fact about what is told of a disk.
pub trait RecordFact {
    ghost holds: { DiskRecord → Type 0 };
}

/// A fact about what a stop may leave: of the blocks' cells at a moment, the moment, and an image.
pub trait ImageFact {
    ghost holds: { (ℕ → Cell) → ℕ → List (List ℕ) → Type 0 };
}

/// A fact about the record is carried over one more write or flush to the same or another fact,
/// whether the call was made or not, failed or not, and whether the disk tells its record or not.
pub fn told_after_call<I: RecordFact, J: RecordFact>()
    ensures write { (before after : DiskSeen) (at : ℕ) (bytes : List ℕ) (ok : Bool) →
        HasWritten before after at bytes ok → ((r : DiskRecord) → I.holds r → J.holds r) →
        ((r : DiskRecord) (held : List ℕ) → MayHold bytes ok held → I.holds r →
        J.holds (with_write r at bytes ok held)) →
        IfSome before.told I.holds → IfSome after.told J.holds }
    ensures flush { (before after : DiskSeen) (ok : Bool) → HasFlushed before after ok →
        ((r : DiskRecord) → I.holds r → J.holds r) →
        ((r : DiskRecord) → I.holds r → J.holds (with_flush r ok)) →
        IfSome before.told I.holds → IfSome after.told J.holds }
{}

/// What held of every image that was left at every moment since `from` is carried over one more
/// write or flush to the same or another fact: to one that follows from it at the moments before,
/// and holds of the images left after the call. Within a write may be left what is left after it,
/// so there the fact is to hold at a moment where it holds at the next. It does not matter whether
/// the call was made or not, failed or not, and whether the disk tells its record or not.
pub fn always_after_call<P: ImageFact, Q: ImageFact>()
    ensures write { (from : ℕ) (before after : DiskSeen) (at : ℕ) (bytes : List ℕ) (ok : Bool) →
        HasWritten before after at bytes ok → HoldsWithin Q.holds →
        IfSome before.told (Always P.holds from) →
        IfSome before.told (Implies P.holds Q.holds from) →
        IfSome after.told (HoldsNow Q.holds) → IfSome after.told (Always Q.holds from) }
    ensures flush { (from : ℕ) (before after : DiskSeen) (ok : Bool) → HasFlushed before after ok →
        IfSome before.told (Always P.holds from) →
        IfSome before.told (Implies P.holds Q.holds from) →
        IfSome after.told (HoldsNow Q.holds) → IfSome after.told (Always Q.holds from) }
{}

/// What holds of the images left now holds from now on, what holds at every moment holds now, and
/// what follows from it at each moment holds at every moment.
pub fn always_now<P: ImageFact, Q: ImageFact>()
    ensures begin { (told : Option DiskRecord) (size calls : ℕ) →
        IfSome told (IsRecordOf size calls) →
        IfSome told (HoldsNow P.holds) → IfSome told (Always P.holds calls) }
    ensures now { (told : Option DiskRecord) (from : ℕ) → IfSome told (Always P.holds from) →
        IfSome told (HoldsNow P.holds) }
    ensures follows { (from : ℕ) (told : Option DiskRecord) → IfSome told (Always P.holds from) →
        IfSome told (Implies P.holds Q.holds from) → IfSome told (Always Q.holds from) }
{}

/// From where nothing is loose a write of one block, and a flush or more, leave every other block
/// as it was, also where they fail or are not made. A good write and then a good flush leave
/// nothing loose, and the image left is what was there with the block written.
pub fn changed_block()
    ensures begin { (told : Option DiskRecord) (size calls at : ℕ) (base : List (List ℕ)) →
        at < size → IfSome told (IsRecordOf size calls) → IfSome told IsSettled →
        IfSome told (λ r. r.contents ≡ base) →
        IfSome told (IsChangedAt base at (slice_index_or base at [] ∷ [])) }
    ensures write { (before after : DiskSeen) (base : List (List ℕ)) (at : ℕ)
        (values : List (List ℕ)) (bytes : List ℕ) (ok : Bool) →
        HasWritten before after at bytes ok → at < before.size →
        IfSome before.told (IsRecordOf before.size before.calls) →
        IfSome before.told (IsChangedAt base at values) →
        IfSome after.told (IsChangedAt base at (values ++ bytes ∷ [])) }
    ensures good_write { (before after : DiskSeen) (at : ℕ) (bytes : List ℕ) →
        HasWritten before after at bytes true → IfSome after.told (IsGoodWrite at bytes) }
    ensures flush { (before after : DiskSeen) (base : List (List ℕ)) (at : ℕ)
        (values : List (List ℕ)) (ok : Bool) → HasFlushed before after ok →
        IfSome before.told (IsChangedAt base at values) →
        IfSome after.told (IsChangedAt base at values) }
    ensures good_flush { (before after : DiskSeen) (base : List (List ℕ)) (at : ℕ)
        (values : List (List ℕ)) (bytes : List ℕ) → HasFlushed before after true →
        IfSome before.told (IsChangedAt base at values) →
        IfSome before.told (IsGoodWrite at bytes) → IfSome after.told IsSettled }
    ensures good_still { (before after : DiskSeen) (at : ℕ) (bytes : List ℕ) →
        HasFlushed before after true → IfSome before.told (IsGoodWrite at bytes) →
        IfSome after.told (IsGoodWrite at bytes) }
    ensures reads { (size calls : ℕ) (base : List (List ℕ)) (at : ℕ) (values : List (List ℕ))
        (bytes : List ℕ) (r : DiskRecord) → IsRecordOf size calls r → at < size →
        IsChangedAt base at values r → IsGoodWrite at bytes r →
        r.contents ≡ slice_set base at bytes }
    ensures image { (size calls : ℕ) (base : List (List ℕ)) (at : ℕ) (values : List (List ℕ))
        (r : DiskRecord) (image : List (List ℕ)) → IsRecordOf size calls r →
        IsChangedAt base at values r → LeftNow r image →
        image ≡ slice_set base at (slice_index_or image at []) }
    ensures value { (base : List (List ℕ)) (at : ℕ) (values : List (List ℕ)) (r : DiskRecord)
        (image : List (List ℕ)) → at < length r.entry → IsChangedAt base at values r →
        LeftNow r image → ((cell_now r at).loose ≡ true →
        Contains (candidates (cell_now r at)) (slice_index_or image at [])) →
        Contains values (slice_index_or image at []) }
{}

/// What was settled after the first `start` calls is known from these calls alone: no later call
/// changes it. A flush makes no block loose, and where no block's last write failed a successful
/// one leaves none loose.
pub fn settled_moments()
    ensures later { (r : DiskRecord) (call : Call) (contents : List (List ℕ)) (start : ℕ) →
        start ≤ length r.calls → WasSettled start r ↔ WasSettled start (with_call r call contents) }
    ensures now { (r : DiskRecord) → IsSettled r ↔ WasSettled (length r.calls) r }
    ensures none_failed { (r : DiskRecord) → IsSettled r → HasNoFailed r }
    ensures good_write { (before after : DiskSeen) (at : ℕ) (bytes : List ℕ) →
        HasWritten before after at bytes true → IfSome before.told HasNoFailed →
        IfSome after.told HasNoFailed }
    ensures good_flush { (before after : DiskSeen) → HasFlushed before after true →
        IfSome before.told HasNoFailed → IfSome after.told IsSettled }
    ensures flush { (before after : DiskSeen) (ok : Bool) → HasFlushed before after ok →
        IfSome before.told IsSettled → IfSome after.told IsSettled }
{}
