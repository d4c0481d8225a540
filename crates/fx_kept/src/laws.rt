//! Laws on what an image keeps, and on what its blocks hold. The functions do nothing.
ghost use Rattle.std.specs.Prelude.{◌≡◌, ◌⊎◌, ℕ, ◌+◌, ◌-◌, ◌<◌, ◌≤◌, false, Option, Some, None, IsTrue};
ghost use Rattle.std.specs.Prelude.{List, ◌∷◌, ◌++◌, length, map, take};
ghost use Rattle.std.specs.List.{Contains};
ghost use Rattle.fx_item.specs.Item.{PlainItem};
ghost use Rattle.fx_record.specs.Record.{PlainRecord, DiscardRecord};
ghost use Rattle.fx_record.specs.Txns.{in_order, last_number, txns_left_by, IsTxns};
ghost use Rattle.fx_record.specs.Commits.{numbered, records_of};
ghost use Rattle.fx_verify.specs.Kept.{IsKeptNumber};
ghost use Rattle.fx_disk.specs.Record.{DiskRecord, Cell, LeftNow, cell_now};
ghost use Rattle.fx_uses.specs.Live.{Txn, txn_of, AreNumbered, IsPut, live_after};
ghost use Rattle.fx_uses.specs.Uses.{Use, BlockUses, AreUses, CellsHold, IsGood};
ghost use Rattle.fx_uses.specs.Uses.{Want, wanted, last, bytes_now, image_block};
ghost use Rattle.fx_uses.specs.Layers.{ReadsNamed, Reader, IsNamed};
ghost use Rattle.fx_kept.specs.Kept.{sum_found, IsKeptIn, IsKeptUpTo, HasTrueBlocks, HasTrueLiveBlocks};
ghost use Rattle.fx_kept.specs.Kept.{IsStretch, HasContents, PassesAt, none_live};
ghost use Rattle.fx_kept.specs.Opened.{AreOthers, HoldsImage, opened_uses, opened_use};
ghost use Rattle.fx_kept.specs.Opened.{without_blocks, WritesNoBlock};

/// Whatever sums are found, there is a greatest number that passes, and only one. Which blocks were live
/// before the transactions does not matter to it.
pub fn kept_number()
    ensures exists { (found : ℕ → Option ℕ) (base : ℕ) (first : ℕ → Option ℕ) (stream : List Txn) →
        AreNumbered base stream → (k : ℕ) × IsKeptUpTo found base first stream k }
    ensures one { (found : ℕ → Option ℕ) (base : ℕ) (first : ℕ → Option ℕ) (stream : List Txn)
        (j k : ℕ) → IsKeptUpTo found base first stream j → IsKeptUpTo found base first stream k →
        j ≡ k }
    ensures alike { (found : ℕ → Option ℕ) (base : ℕ) (first other : ℕ → Option ℕ)
        (stream : List Txn) (k : ℕ) → IsKeptUpTo found base first stream k →
        IsKeptUpTo found base other stream k }
{}

/// A number that fails may stand below the one that is kept: a block is torn that a later transaction
/// frees.
pub fn kept_past_failures()
    ensures torn { (found : ℕ → Option ℕ) × (stream : List Txn) × (j k : ℕ) × (j < k) ×
        (PassesAt found none_live stream j → ⊥) × IsKeptUpTo found 0 none_live stream k }
{}

/// The transactions that the blocks of a stream leave, with discards anywhere, are numbered one after
/// another from the base on. So an image keeps them up to one number, and one only. A block below the
/// first data block, or past the image, counts as without its sum.
pub fn kept_of_images()
    ensures exists { (sum : List ℕ → ℕ) (first_data : ℕ) (image : List (List ℕ)) (base : ℕ)
        (blocks : List (ℕ × List ℕ)) (txns : List (ℕ × List PlainItem)) →
        IsTxns base blocks txns → (k : ℕ) × IsKeptIn sum first_data image base txns k }
    ensures one { (sum : List ℕ → ℕ) (first_data : ℕ) (image : List (List ℕ)) (base : ℕ)
        (txns : List (ℕ × List PlainItem)) (j k : ℕ) → IsKeptIn sum first_data image base txns j →
        IsKeptIn sum first_data image base txns k → j ≡ k }
    ensures numbered { (base : ℕ) (blocks : List (ℕ × List ℕ)) (txns : List (ℕ × List PlainItem)) →
        IsTxns base blocks txns → AreNumbered base (map txn_of txns) }
    ensures outside { (sum : List ℕ → ℕ) (first_data : ℕ) (image : List (List ℕ)) (b : ℕ) →
        (b < first_data) ⊎ (length image ≤ b) → sum_found sum first_data image b ≡ None }
{}

/// What commits after the records that were found leave: those found and the commits, or, after one
/// discard, those found up to its number and the commits.
pub fn folded_records()
    ensures commits { (records : List PlainRecord) (last : ℕ) (commits : List (List PlainItem)) →
        txns_left_by (records ++ records_of last commits) ≡
        txns_left_by records ++ numbered last commits }
    ensures discard { (base : ℕ) (records : List PlainRecord) (k : ℕ)
        (commits : List (List PlainItem)) → IsTrue (in_order base base records) → base ≤ k →
        k ≤ last_number base records →
        txns_left_by (records ++ DiscardRecord k ∷ records_of k commits) ≡
        take (k - base) (txns_left_by records) ++ numbered k commits }
{}

/// It is the number that is found from the items of the records alone, whatever was live before them.
pub fn kept_by_items()
    ensures from_items { (base : ℕ) (first : ℕ → Option ℕ) (txns : List (ℕ × List PlainItem))
        (listed : List (ℕ × ℕ)) (found : ℕ → Option ℕ) → AreNumbered base (map txn_of txns) →
        ((b x : ℕ) → Contains listed (b, x) → found b ≡ Some x) →
        ((b x : ℕ) → found b ≡ Some x → Contains listed (b, x)) → (k : ℕ) →
        IsKeptNumber base txns listed k → IsKeptUpTo found base first (map txn_of txns) k }
    ensures to_items { (base : ℕ) (first : ℕ → Option ℕ) (txns : List (ℕ × List PlainItem))
        (listed : List (ℕ × ℕ)) (found : ℕ → Option ℕ) → AreNumbered base (map txn_of txns) →
        ((b x : ℕ) → Contains listed (b, x) → found b ≡ Some x) →
        ((b x : ℕ) → found b ≡ Some x → Contains listed (b, x)) → (k : ℕ) →
        IsKeptUpTo found base first (map txn_of txns) k → IsKeptNumber base txns listed k }
{}

/// An image that a stop now may leave, and that shows a stretch of the transactions, keeps a number
/// between the settled one and the last. Unless a torn block is there by chance, each block that is live
/// after that number holds what was put there. The premise that speaks of all live blocks is the
/// stronger one.
pub fn kept_in_images()
    ensures settled { (sum : List ℕ → ℕ) (s : BlockUses) (r : DiskRecord) (base : ℕ)
        (first : ℕ → Option ℕ) (stream : List Txn) (image : List (List ℕ)) →
        AreUses s → CellsHold sum s r → IsStretch s base first stream → LeftNow r image → (k : ℕ) →
        IsKeptUpTo (sum_found sum s.first_data image) base first stream k → s.settled ≤ k }
    ensures most { (s : BlockUses) (base : ℕ) (first : ℕ → Option ℕ) (stream : List Txn)
        (found : ℕ → Option ℕ) (k : ℕ) → AreUses s → IsStretch s base first stream →
        IsKeptUpTo found base first stream k → k ≤ last s }
    ensures contents { (sum : List ℕ → ℕ) (s : BlockUses) (r : DiskRecord) (base : ℕ)
        (first : ℕ → Option ℕ) (stream : List Txn) (image : List (List ℕ)) →
        AreUses s → CellsHold sum s r → IsStretch s base first stream → LeftNow r image → (k : ℕ) →
        IsKeptUpTo (sum_found sum s.first_data image) base first stream k →
        HasTrueBlocks (cell_now r) first stream k image → HasContents s r k image }
    ensures alike { (cells : ℕ → Cell) (first other : ℕ → Option ℕ) (stream : List Txn) (k : ℕ)
        (image : List (List ℕ)) → HasTrueBlocks cells first stream k image →
        HasTrueBlocks cells other stream k image }
    ensures premise { (cells : ℕ → Cell) (first : ℕ → Option ℕ) (stream : List Txn) (k : ℕ)
        (image : List (List ℕ)) → HasTrueLiveBlocks cells first stream k image →
        HasTrueBlocks cells first stream k image }
{}

/// The last write of each block that is live after a number which an image may keep was good. Up to the
/// number that is flushed no such block is loose. What a transaction put there has its stated sum.
pub fn live_blocks()
    ensures good { (sum : List ℕ → ℕ) (s : BlockUses) (r : DiskRecord) →
        AreUses s → CellsHold sum s r → (k b x : ℕ) → s.settled ≤ k → k ≤ last s →
        live_after s.first s.txns k b ≡ Some x → IsGood (length r.entry) b (cell_now r b) }
    ensures firm { (sum : List ℕ → ℕ) (s : BlockUses) (r : DiskRecord) →
        AreUses s → CellsHold sum s r → (k b x : ℕ) → s.settled ≤ k → k ≤ s.firm →
        live_after s.first s.txns k b ≡ Some x → (cell_now r b).loose ≡ false }
    ensures stated { (sum : List ℕ → ℕ) (s : BlockUses) (r : DiskRecord) →
        AreUses s → CellsHold sum s r → (k b x : ℕ) → s.settled ≤ k → k ≤ last s →
        live_after s.first s.txns k b ≡ Some x → (n : ℕ) → IsPut s.txns n b →
        sum (bytes_now r b) ≡ x }
{}

/// The superblock at the mount with the first of the transactions is a stretch, and so is one with a
/// later base count that is flushed.
pub fn stretches()
    ensures front { (s : BlockUses) (stream after : List Txn) → AreUses s →
        s.txns ≡ stream ++ after → s.settled ≤ s.base + length stream →
        IsStretch s s.base s.first stream }
    ensures later { (s : BlockUses) (before stream after : List Txn) (first : ℕ → Option ℕ) →
        s.txns ≡ before ++ (stream ++ after) →
        ((b : ℕ) → first b ≡ live_after s.first s.txns (s.base + length before) b) →
        s.base + length before ≤ s.firm → s.settled ≤ s.base + length before + length stream →
        IsStretch s (s.base + length before) first stream }
{}

/// A mount begins with the uses of an image that it keeps whole, on a disk of which nothing is loose. It
/// keeps the same number of transactions in images that differ in superblocks and ring alone, and where a
/// discard cuts off what is beyond that number.
pub fn mounts()
    ensures uses { (first_data : ℕ) (first : ℕ → Option ℕ) (base : ℕ) (txns : List Txn)
        (others : ℕ → Use) → AreNumbered base txns → AreOthers first_data others → (right : ℕ) →
        right ≤ base → ((b x : ℕ) → live_after first txns (base + length txns) b ≡ Some x →
        first_data ≤ b) → AreUses (opened_uses first_data right first base txns others) }
    ensures cells { (sum : List ℕ → ℕ) (first_data right : ℕ) (first : ℕ → Option ℕ) (base : ℕ)
        (txns : List Txn) (others : ℕ → Use) (image : List (List ℕ)) (r : DiskRecord) →
        AreNumbered base txns → AreOthers first_data others → HoldsImage r image →
        ((b : ℕ) → (wanted (opened_use first base txns others b) ≡ Want.Nothing → ⊥) →
        b < length r.entry) →
        PassesAt (sum_found sum first_data image) first txns (base + length txns) →
        ((b x : ℕ) → right < base → live_after first txns (base + length txns) b ≡ Some x →
        sum (image_block image b) ≡ x) →
        CellsHold sum (opened_uses first_data right first base txns others) r }
    ensures same { (found other : ℕ → Option ℕ) (base : ℕ) (first : ℕ → Option ℕ)
        (stream : List Txn) (k : ℕ) → ((n b : ℕ) → IsPut stream n b → found b ≡ other b) →
        IsKeptUpTo found base first stream k → IsKeptUpTo other base first stream k }
    ensures cut { (found : ℕ → Option ℕ) (base : ℕ) (first : ℕ → Option ℕ)
        (front beyond : List Txn) → AreNumbered base (front ++ beyond) →
        IsKeptUpTo found base first (front ++ beyond) (base + length front) →
        IsKeptUpTo found base first front (base + length front) }
{}

/// Where transactions write no block, as those of names alone, an image keeps all of them, whatever its
/// blocks hold; only blocks of the system are in use, and nothing is wanted of any block.
pub fn names_alone()
    ensures kept { (found : ℕ → Option ℕ) (base : ℕ) (first : ℕ → Option ℕ) (stream : List Txn) →
        WritesNoBlock stream → IsKeptUpTo found base first stream (base + length stream) }
    ensures uses { (first_data base : ℕ) (txns : List Txn) (settled firm : ℕ) →
        AreNumbered base txns → WritesNoBlock txns → base ≤ settled → settled ≤ firm →
        firm ≤ base + length txns → AreUses (without_blocks first_data base txns settled firm) }
    ensures cells { (sum : List ℕ → ℕ) (first_data base : ℕ) (txns : List Txn) (settled firm : ℕ)
        (r : DiskRecord) → CellsHold sum (without_blocks first_data base txns settled firm) r }
{}
