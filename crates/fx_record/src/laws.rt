//! What holds of records, of the transactions of a stream, and of commits that are appended to one,
//! for those who prove: the functions do nothing.
ghost use Rattle.std.specs.Prelude.{◌≡◌, ℕ, ◌+◌, ◌*◌, ◌^◌, ◌<◌, ◌≤◌, List, [], ◌∷◌, ◌++◌, length, map, take, drop, All, Some, slice_get};
ghost use Rattle.std.specs.List.{concat, sum_by};
ghost use Rattle.fx_item.specs.Item.{ObjectKey, ChildKey, FileValue, PlainValue, PlainItem, IsNameItem, IsObjectValue, IsChildValue, item_bytes};
ghost use Rattle.fx_record.specs.Record.{PlainRecord, TransactionRecord, DiscardRecord, AreItems, IsRecord, record_bytes};
ghost use Rattle.fx_record.specs.Txns.{epoch_texts, all_bytes, last_number, IsTxns, IsBadRecord};
ghost use Rattle.fx_record.specs.Progress.{IsNumbered};
ghost use Rattle.fx_record.specs.Commits.{IsCommit, numbered, records_of, records_bytes, commits_bytes, blocks_of, AreBefore, AreOf, CutsRecords, CutsCommits};

/// A record's bytes are 17 and those of its items, whatever its number. An item has at most 282.
pub fn record_length()
    ensures transaction { (number : ℕ) (items : List PlainItem)
        → length (record_bytes (TransactionRecord number items))
        ≡ 17 + sum_by (λ x. length (item_bytes x)) items }
    ensures discard { (number : ℕ) → length (record_bytes (DiscardRecord number)) ≡ 13 }
    ensures object { (store id : ℕ) (value : PlainValue) → IsObjectValue value
        → length (item_bytes (record { key = ObjectKey store id; value = value })) ≤ 18 }
    ensures child { (store id : ℕ) (name : List ℕ) (value : PlainValue) → IsChildValue value
        → length (item_bytes (record { key = ChildKey store id name; value = value }))
        ≤ 27 + length name }
    ensures item { (x : PlainItem) → IsNameItem x → length (item_bytes x) ≤ 282 }
    ensures few { (number : ℕ) (items : List PlainItem) → All IsNameItem items
        → length (record_bytes (TransactionRecord number items)) ≤ 17 + 282 * length items }
{}

/// The bytes of the records of one item or two: of a file's length, of a node, and of a node with
/// the child that names it.
pub fn short_records()
    ensures file { (number store id len : ℕ)
        → length (record_bytes (TransactionRecord number
        (record { key = ObjectKey store id; value = FileValue len } ∷ []))) ≡ 35 }
    ensures object { (number store id : ℕ) (value : PlainValue) → IsObjectValue value
        → length (record_bytes (TransactionRecord number
        (record { key = ObjectKey store id; value = value } ∷ []))) ≤ 35 }
    ensures object_then_child { (number store id other node : ℕ) (name : List ℕ)
        (value child : PlainValue)
        → length name ≤ 255 → IsObjectValue value → IsChildValue child
        → length (record_bytes (TransactionRecord number
        (record { key = ObjectKey store id; value = value }
        ∷ record { key = ChildKey other node name; value = child } ∷ []))) ≤ 317 }
    ensures child_then_object { (number store id other node : ℕ) (name : List ℕ)
        (value child : PlainValue)
        → length name ≤ 255 → IsObjectValue value → IsChildValue child
        → length (record_bytes (TransactionRecord number
        (record { key = ChildKey other node name; value = child }
        ∷ record { key = ObjectKey store id; value = value } ∷ []))) ≤ 317 }
{}

/// A commit is a record under each number below 2^64. Items that ascend are a commit where there
/// are at most 2^23 of them.
pub fn commit_records()
    ensures record { (number : ℕ) (items : List PlainItem) → number < 2 ^ 64 → IsCommit items
        → IsRecord (TransactionRecord number items) }
    ensures records { (last : ℕ) (commits : List (List PlainItem)) → last + length commits < 2 ^ 64
        → All IsCommit commits → All IsRecord (records_of last commits) }
    ensures few { (items : List PlainItem) → AreItems items → length items ≤ 2 ^ 23
        → IsCommit items }
{}

/// Commits that are numbered one after another, and one more of them. How many bytes they have does
/// not depend on their numbers.
pub fn numbered_commits()
    ensures items { (last : ℕ) (commits : List (List PlainItem))
        → map (λ t. t.1) (numbered last commits) ≡ commits }
    ensures count { (last : ℕ) (commits : List (List PlainItem))
        → length (numbered last commits) ≡ length commits }
    ensures follow { (last : ℕ) (commits : List (List PlainItem))
        → IsNumbered last (numbered last commits) (last + length commits) }
    ensures joined { (last : ℕ) (front back : List (List PlainItem))
        → numbered last (front ++ back)
        ≡ numbered last front ++ numbered (last + length front) back }
    ensures bytes { (last : ℕ) (front back : List (List PlainItem))
        → commits_bytes last (front ++ back)
        ≡ commits_bytes last front ++ commits_bytes (last + length front) back }
    ensures one_more { (last : ℕ) (commits : List (List PlainItem)) (items : List PlainItem)
        → commits_bytes last (commits ++ items ∷ [])
        ≡ commits_bytes last commits
        ++ record_bytes (TransactionRecord (last + length commits + 1) items) }
    ensures length { (last other : ℕ) (commits : List (List PlainItem))
        → length (commits_bytes last commits) ≡ length (commits_bytes other commits) }
    ensures least { (last : ℕ) (commits : List (List PlainItem))
        → 17 * length commits ≤ length (commits_bytes last commits) }
{}

/// The first bytes of records are the first of the records and a cut one or nothing, and all of the
/// records where no bytes are missing. Of commits they keep one number of them, and more bytes keep
/// no fewer. Where the bytes are cut into blocks, commits that lie in the first blocks are kept
/// with these.
pub fn cut_records()
    ensures records { (records : List PlainRecord) (cut rest : List ℕ) → All IsRecord records
        → cut ++ rest ≡ records_bytes records
        → (count : ℕ) × CutsRecords records cut count × (rest ≡ [] → count ≡ length records) }
    ensures commits { (last : ℕ) (commits : List (List PlainItem)) (cut rest : List ℕ)
        → last + length commits < 2 ^ 64 → All IsCommit commits
        → cut ++ rest ≡ commits_bytes last commits
        → (count : ℕ) × CutsCommits last commits cut count × (rest ≡ [] → count ≡ length commits) }
    ensures one { (last : ℕ) (commits : List (List PlainItem)) (cut : List ℕ) (i j : ℕ)
        → CutsCommits last commits cut i → CutsCommits last commits cut j → i ≡ j }
    ensures grows { (last : ℕ) (commits : List (List PlainItem)) (cut longer : List ℕ)
        (few many : ℕ)
        → CutsCommits last commits cut few → CutsCommits last commits longer many
        → length cut ≤ length longer → few ≤ many }
    ensures first_blocks { (j : ℕ) (texts : List (List ℕ)) (rest : List ℕ)
        → concat (take j texts) ++ (concat (drop j texts) ++ rest)
        ≡ concat texts ++ rest }
    ensures more_blocks { (i j : ℕ) (texts : List (List ℕ)) → i ≤ j
        → length (concat (take i texts)) ≤ length (concat (take j texts)) }
    ensures kept { (last : ℕ) (commits : List (List PlainItem)) (texts : List (List ℕ))
        (m j n count : ℕ)
        → CutsCommits last commits (concat (take j texts)) count → n ≤ length commits → m ≤ j
        → length (commits_bytes last (take n commits))
        ≤ length (concat (take m texts)) → n ≤ count }
{}

/// Blocks of one epoch after blocks of earlier ones, or no blocks at all, add to the transactions
/// of the stream the commits that their bytes keep.
pub fn one_more_epoch()
    ensures blocks { (base epoch : ℕ) (read more : List (ℕ × List ℕ))
        (txns : List (ℕ × List PlainItem)) (commits : List (List PlainItem)) (count : ℕ)
        → IsTxns base read txns → AreBefore epoch read → AreOf epoch more
        → All IsRecord (records_of (base + length txns) commits)
        → CutsCommits (base + length txns) commits (all_bytes more) count
        → IsTxns base (read ++ more) (txns ++ numbered (base + length txns) (take count commits)) }
    ensures session { (base epoch : ℕ) (read : List (ℕ × List ℕ)) (txns : List (ℕ × List PlainItem))
        (commits : List (List PlainItem)) (texts : List (List ℕ)) (count : ℕ)
        → IsTxns base read txns → AreBefore epoch read
        → base + length txns + length commits < 2 ^ 64 → All IsCommit commits
        → CutsCommits (base + length txns) commits (concat texts) count
        → IsTxns base (read ++ blocks_of epoch texts)
        (txns ++ numbered (base + length txns) (take count commits)) }
    ensures stopped { (base epoch : ℕ) (read : List (ℕ × List ℕ)) (txns : List (ℕ × List PlainItem))
        (commits : List (List PlainItem)) (texts : List (List ℕ)) (rest : List ℕ)
        → IsTxns base read txns → AreBefore epoch read
        → base + length txns + length commits < 2 ^ 64 → All IsCommit commits
        → concat texts ++ rest ≡ commits_bytes (base + length txns) commits
        → (count : ℕ) × CutsCommits (base + length txns) commits (concat texts) count
        × IsTxns base (read ++ blocks_of epoch texts)
        (txns ++ numbered (base + length txns) (take count commits))
        × (rest ≡ [] → count ≡ length commits) }
    ensures text { (epoch : ℕ) (read : List (ℕ × List ℕ)) (block : ℕ × List ℕ)
        (more : List (ℕ × List ℕ)) → AreBefore epoch read → AreOf epoch (block ∷ more)
        → epoch_texts (read ++ block ∷ more) ≡ epoch_texts read ++ all_bytes (block ∷ more) ∷ [] }
{}

/// Blocks that hold texts are of their epoch, with the texts as their bytes, and all blocks of one
/// epoch are such. Epochs up to one are before the next.
pub fn blocks_of_an_epoch()
    ensures epoch { (epoch : ℕ) (texts : List (List ℕ)) → AreOf epoch (blocks_of epoch texts) }
    ensures bytes { (epoch : ℕ) (texts : List (List ℕ))
        → all_bytes (blocks_of epoch texts) ≡ concat texts }
    ensures texts { (epoch : ℕ) (blocks : List (ℕ × List ℕ)) → AreOf epoch blocks
        → blocks ≡ blocks_of epoch (map (λ block. block.1) blocks) }
    ensures before { (epoch : ℕ) (blocks : List (ℕ × List ℕ))
        → All (λ block. block.0 ≤ epoch) blocks → AreBefore (epoch + 1) blocks }
{}

/// The transactions of a stream are numbered one after another from the base on, below 2^64 where
/// the base is, and each is a commit.
pub fn txns_numbers()
    ensures number { (base : ℕ) (blocks : List (ℕ × List ℕ)) (txns : List (ℕ × List PlainItem))
        (i : ℕ) (t : ℕ × List PlainItem)
        → IsTxns base blocks txns → slice_get txns i ≡ Some t → t.0 ≡ base + i + 1 }
    ensures numbered { (base : ℕ) (blocks : List (ℕ × List ℕ)) (txns : List (ℕ × List PlainItem))
        → IsTxns base blocks txns → txns ≡ numbered base (map (λ t. t.1) txns) }
    ensures follow { (base : ℕ) (blocks : List (ℕ × List ℕ)) (txns : List (ℕ × List PlainItem))
        → IsTxns base blocks txns → IsNumbered base txns (base + length txns) }
    ensures last { (base : ℕ) (blocks : List (ℕ × List ℕ)) (txns : List (ℕ × List PlainItem))
        (h : IsTxns base blocks txns) → last_number base h.records ≡ base + length txns }
    ensures fits { (base : ℕ) (blocks : List (ℕ × List ℕ)) (txns : List (ℕ × List PlainItem))
        → base < 2 ^ 64 → IsTxns base blocks txns → base + length txns < 2 ^ 64 }
    ensures commits { (base : ℕ) (blocks : List (ℕ × List ℕ)) (txns : List (ℕ × List PlainItem))
        → IsTxns base blocks txns → All (λ t. IsCommit t.1) txns }
{}

/// Blocks leave one list of transactions, or have one first bad record, and not both.
pub fn one_txns()
    ensures txns { (base : ℕ) (blocks : List (ℕ × List ℕ)) (xs ys : List (ℕ × List PlainItem))
        → IsTxns base blocks xs → IsTxns base blocks ys → xs ≡ ys }
    ensures not_both { (base : ℕ) (blocks : List (ℕ × List ℕ)) (txns : List (ℕ × List PlainItem))
        (place : ℕ) → IsTxns base blocks txns → IsBadRecord base blocks place → ⊥ }
    ensures place { (base : ℕ) (blocks : List (ℕ × List ℕ)) (i j : ℕ) → IsBadRecord base blocks i
        → IsBadRecord base blocks j → i ≡ j }
{}
