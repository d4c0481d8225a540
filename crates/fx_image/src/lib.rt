//! What an image stands for: which superblock is chosen in it, what of a stop's images is not there
//! by chance, and what the commits of a session make of it.
//!
//! Definitions and lemmas alone: the functions do nothing.
#![tactic(auto)]

ghost use Rattle.std.specs.Prelude.{◌≡◌, ◌++◌, ◌∷◌, ◌+◌, ◌<◌, ◌≤◌, ◌^◌, [], ℕ, All, IsTrue, List, Ok, length, take};
ghost use Rattle.fx_item.specs.Item.{IsNameItem, PlainItem};
ghost use Rattle.fx_item.specs.Look.{ItemMap, after_all, next_id, next_store};
ghost use Rattle.fx_item.specs.Order.{is_ascending};
ghost use Rattle.fx_plain.specs.Bare.{bare};
ghost use Rattle.fx_plain.specs.Table.{do_step};
ghost use Rattle.fx_plain.specs.Tree.{Tree};
ghost use Rattle.fx_plain.specs.declared.step.Answer.{Answer};
ghost use Rattle.fx_plain.specs.declared.step.Step.{Step};
ghost use Rattle.fx_namespace.specs.Commits.{IsBelow};
ghost use Rattle.fx_history.specs.declared.entry.Entry.{Entry};
ghost use Rattle.fx_history.specs.History.{Legal, settle, tree_at};
ghost use Rattle.fx_image.specs.Replay.{AreItemsOf, Replays};
ghost use Rattle.fx_image.specs.Standing.{IsImage, StandsFor, Transactions, items_after, lists_of};
ghost use Rattle.fx_super.specs.Super.{Fields};

/// The items of commits replay a history: none replay the empty one, the items of a step that is
/// done replay one entry more, and they still do where entries are settled. Transactions that keep
/// the first commits stand for the tree after these. The items of a step are those of a record, and
/// raise each next number by one at most.
pub fn replay_laws()
    ensures none { (tree : Tree) (base : ℕ) (txns : Transactions) →
        StandsFor (items_after txns) tree → tree ≡ bare tree → Replays tree base txns [] [] }
    ensures step { (tree : Tree) (base : ℕ) (txns : Transactions)
        (history : List Entry) (records : List (List PlainItem))
        (e : Entry) (step : Step) (items : List PlainItem) (id store : ℕ) (answer : Answer) →
        Replays tree base txns history records → Legal tree base history →
        e.number ≡ base + length history + 1 → e.steps ≡ step ∷ [] →
        (do_step (tree_at tree history (base + length history)) step).0 ≡ Ok answer →
        IsBelow (after_all (lists_of txns ++ records)) id store →
        AreItemsOf (after_all (lists_of txns ++ records)) id store step items →
        Replays tree base txns (history ++ e ∷ []) (records ++ items ∷ []) }
    ensures settled { (tree : Tree) (base : ℕ) (txns : Transactions)
        (history : List Entry) (records : List (List PlainItem)) (calls : ℕ) →
        Replays tree base txns history records →
        Replays tree base txns (settle calls history) records }
    ensures keeps { (tree : Tree) (base : ℕ) (txns more : Transactions)
        (history : List Entry) (records : List (List PlainItem)) (k : ℕ) →
        Replays tree base txns history records →
        k ≤ length records → lists_of more ≡ take k records →
        StandsFor (items_after (txns ++ more)) (bare (tree_at tree history (base + k))) }
    ensures items { (m : ItemMap) (step : Step) (items : List PlainItem) (id store : ℕ) →
        IsBelow m id store → id < 2 ^ 64 → store < 2 ^ 32 → AreItemsOf m id store step items →
        All IsNameItem items }
    ensures ascending { (m : ItemMap) (step : Step) (items : List PlainItem) (id store : ℕ) →
        IsBelow m id store → AreItemsOf m id store step items → IsTrue (is_ascending items) }
    ensures rise { (m : ItemMap) (step : Step) (items : List PlainItem) (id store : ℕ) →
        IsBelow m id store → AreItemsOf m id store step items →
        (next_id id items ≤ id + 1) × (next_store store items ≤ store + 1) }
{}

/// An image stands for one tree at most: it has one superblock chosen, one list of transactions,
/// and one tree that these make.
pub fn image_laws()
    ensures superblock { (size : ℕ) (image : List (List ℕ)) (f g : Fields)
        (xs ys : Transactions) (t u : Tree) →
        IsImage size image f xs t → IsImage size image g ys u → f ≡ g }
    ensures transactions { (size : ℕ) (image : List (List ℕ)) (f g : Fields)
        (xs ys : Transactions) (t u : Tree) →
        IsImage size image f xs t → IsImage size image g ys u → xs ≡ ys }
    ensures tree { (size : ℕ) (image : List (List ℕ)) (f g : Fields)
        (xs ys : Transactions) (t u : Tree) →
        IsImage size image f xs t → IsImage size image g ys u → t ≡ u }
{}
