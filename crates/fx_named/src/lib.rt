//! Images of names alone among those with blocks and layers, and that what is promised of these is
//! promised of them.
//!
//! Definitions and their laws alone: the functions do nothing.
#![tactic(auto)]

ghost use Rattle.std.specs.Prelude.{◌≡◌, ◌+◌, ◌≤◌, ℕ, List, length, map};
ghost use Rattle.fx_disk.specs.Always.{Always};
ghost use Rattle.fx_disk.specs.Record.{Cell, DiskRecord, cell_after};
ghost use Rattle.fx_super.specs.Super.{Fields};
ghost use Rattle.fx_plain.specs.Tree.{Tree};
ghost use Rattle.fx_contents.specs.Points.{Points};
ghost use Rattle.fx_history.specs.declared.entry.Entry.{Entry};
ghost use Rattle.fx_log.specs.Chance.{NotByChance};
ghost use Rattle.fx_uses.specs.Live.{txn_of};
ghost use Rattle.fx_kept.specs.Opened.{WritesNoBlock};
ghost use Rattle.fx_image.specs.Prefix.{Began, IsPrefix, KeepsPrefix};
ghost use Rattle.fx_image.specs.Standing.{HasAmpleRoom, HasSessionRoom, IsImage, Transactions, kept};
ghost use Rattle.fx_cuts.specs.Joined.{NumberedItems};
ghost use Rattle.fx_cuts.specs.Images.{IsImageUpTo, IsPrefixUpTo, LeavesPrefix, Mark, NoBlockByChance};
ghost use Rattle.fx_shown.specs.Meanings.{ShowsTxns};
ghost use Rattle.fx_named.specs.Names.{HaveEntries, WritesNever, bare_trees, names_meanings, names_reading};

/// An image of names alone that keeps transactions up to a number keeps all of them, and is an image of
/// the tree there; and where it keeps a prefix of a history by the marks, it does by the entries. Where no
/// transaction that it shows writes a block, no data block is there by chance.
pub fn names_as_image()
    ensures image { (sum : List ℕ → ℕ) (first_data size : ℕ) (super : Fields)
        (found : Transactions) (before : ℕ → Cell) (generation : ℕ) (image : List (List ℕ))
        (base : ℕ) (points : Points) (txns : NumberedItems) (k : ℕ) (tree : Tree) → IsImageUpTo
        (names_meanings sum first_data size (HasAmpleRoom super found) before generation) image
        base points txns k tree → (f : Fields) × (kept f txns ≡ k) ×
        IsImage size image f txns tree × (HasAmpleRoom super found → HasSessionRoom f txns) }
    ensures prefix { (sum : List ℕ → ℕ) (first_data size : ℕ) (super : Fields)
        (found : Transactions) (before : ℕ → Cell) (generation : ℕ) (tree : Tree)
        (base from m k : ℕ) (history : List Entry) (marks bases : List Mark)
        (image : List (List ℕ)) → HaveEntries base from history marks → from ≤ m → IsPrefixUpTo
        (names_meanings sum first_data size (HasAmpleRoom super found) before generation)
        (bare_trees tree history) (base + length history) marks bases m image k →
        IsPrefix size (HasAmpleRoom super found) tree base history m image }
    ensures chance { (sum : List ℕ → ℕ) (first_data size : ℕ) (super : Fields)
        (found : Transactions) (before cells : ℕ → Cell) (generation : ℕ)
        (image : List (List ℕ)) → NotByChance before cells generation image →
        ((base : ℕ) (points : Points) (txns : NumberedItems) → ShowsTxns
        (names_reading sum first_data size (HasAmpleRoom super found)) image base points txns →
        WritesNoBlock (map txn_of txns)) → NoBlockByChance
        (names_meanings sum first_data size (HasAmpleRoom super found) before generation) cells
        image }
{}

/// What a stop leaves of a mounted disk of names alone, by superblock and stream, follows from what it
/// leaves of one with blocks, where no transaction writes a block: at each moment since the mount.
pub fn prefix_of_names()
    ensures keeps { (sum : List ℕ → ℕ) (first_data size from : ℕ) (tree : Tree) (base : ℕ)
        (history : List Entry) (marks bases : List Mark) (r : DiskRecord) → from ≤ length r.calls →
        HaveEntries base from history marks → ((image : List (List ℕ)) (f : Fields)
        (txns : Transactions) → Began size from base tree r image f txns → Always (LeavesPrefix
        (names_meanings sum first_data size (HasAmpleRoom f txns) (cell_after r from) f.generation)
        (bare_trees tree history) (base + length history) marks bases) from r × WritesNever
        (names_meanings sum first_data size (HasAmpleRoom f txns) (cell_after r from) f.generation)
        from r) → KeepsPrefix size from tree base history r }
{}
