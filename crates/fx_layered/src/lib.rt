//! Images with layers and soundness as the disk has them, among those of which a stop leaves a prefix.
//!
//! Definitions and their laws alone: the functions do nothing.
#![tactic(auto)]

ghost use Rattle.std.specs.Prelude.{◌≡◌, ◌∷◌, ◌++◌, [], ℕ, Bool, IfSome, List, Ok, map};
ghost use Rattle.fx_disk.specs.Record.{Cell, DiskRecord, cell_after};
ghost use Rattle.fx_disk.specs.Began.{BeganAs};
ghost use Rattle.fx_disk.specs.Seen.{DiskSeen};
ghost use Rattle.fx_plain.specs.Tree.{Tree};
ghost use Rattle.fx_contents.specs.Points.{Points};
ghost use Rattle.fx_contents.specs.Standing.{StandForTree};
ghost use Rattle.fx_supers.specs.SessionLog.{HoldsLog, IsSessionLog, SessionLog};
ghost use Rattle.fx_uses.specs.Live.{txn_of};
ghost use Rattle.fx_uses.specs.Layers.{ReadsNamed};
ghost use Rattle.fx_uses.specs.Uses.{AreUses, CellsHold, image_block};
ghost use Rattle.fx_cuts.specs.Joined.{JoinedState, NumberedItems};
ghost use Rattle.fx_cuts.specs.Images.{IsImageUpTo, ShowsCuts, ShowsOne};
ghost use Rattle.fx_shown.specs.Meanings.{LayersSayOne};
ghost use Rattle.fx_shown.specs.LogTxns.{IsBesideLog, LayersSayNow, LogTxns};
ghost use Rattle.fx_sound.specs.Image.{PlainImage, points_in};
ghost use Rattle.fx_sound.specs.Parts.{IsSoundImage, IsClearImage};
ghost use Rattle.fx_layfile.specs.Layer.{BlockBytes, mark_blocks};
ghost use Rattle.fx_layfile.specs.Reading.{IsSaid, PlainLayer};
ghost use Rattle.fx_layered.specs.Layers.{AreWhole, LayerRead, layer_sense, places_in};
ghost use Rattle.fx_layered.specs.Gathered.{IsGatheredImage, layers_meanings, layers_reading};
ghost use Rattle.fx_layered.specs.NamedCuts.{HaveNamedLayers};
ghost use Rattle.fx_layered.specs.SoundAfter.{AreSoundAfter, LeaveDropRoom};

/// Layers are read from their own blocks alone, and say one thing. So an image shows one base count, one
/// set of points and one list of transactions.
pub fn layers_in_blocks()
    ensures named { (ring disk : ℕ) → ReadsNamed (layer_sense ring disk) }
    ensures one { (sum : List ℕ → ℕ) (first_data : ℕ) →
        LayersSayOne (layers_reading sum first_data) }
    ensures one_shown { (sum : List ℕ → ℕ) (first_data : ℕ) (before : ℕ → Cell) (generation : ℕ) →
        ShowsOne (layers_meanings sum first_data before generation) }
{}

/// What is read of one more layer, where the blocks of those before it are marked, is one more whole
/// layer; and then its blocks are marked too.
pub fn layers_read_on()
    ensures whole { (blocks : BlockBytes) (ring : ℕ) (marks : List Bool) (tree first : ℕ)
        (layers : List LayerRead) (layer : PlainLayer) → AreWhole blocks ring marks tree layers →
        IsSaid blocks ring (mark_blocks marks (places_in layers)) tree first (Ok layer) →
        AreWhole blocks ring marks tree
        (layers ++ record { first = first; places = layer.blocks; items = layer.items } ∷ []) }
    ensures marks { (marks : List Bool) (layers : List LayerRead) (layer : LayerRead) →
        mark_blocks (mark_blocks marks (places_in layers)) layer.places
        ≡ mark_blocks marks (places_in (layers ++ layer ∷ [])) }
{}

/// Where the layers of each superblock of the log lie in blocks that are used for them, each image left now
/// has by its chosen superblock what stands at the base count there.
pub fn layers_by_uses()
    ensures now { (sum : List ℕ → ℕ) (first_data : ℕ) (s : JoinedState) (log : SessionLog)
        (r : DiskRecord) → IsSessionLog log → CellsHold sum s.blocks r → HaveNamedLayers s log r →
        LayersSayNow (layers_reading sum first_data) s log r }
{}

/// An image that keeps its transactions up to a number, with these layers and this soundness, is a sound
/// image as plain data, clear, and stands for that tree by the items that were gathered.
pub fn sound_up_to()
    ensures sound { (sum : List ℕ → ℕ) (first_data : ℕ) (before : ℕ → Cell) (generation : ℕ)
        (image : List (List ℕ)) (base : ℕ) (points : Points) (txns : NumberedItems) (k : ℕ)
        (tree : Tree) → IsImageUpTo (layers_meanings sum first_data before generation) image base
        points txns k tree → (plain : PlainImage) × IsGatheredImage image base points txns k plain ×
        IsSoundImage plain × IsClearImage plain (image_block image) ×
        StandForTree (points_in plain.items) (image_block image) tree }
{}

/// With the log, with layers named by uses, and with what stands after each number sound for each
/// superblock, each image left now shows a cut and is sound where it keeps it: all that a stop asks.
pub fn cuts_with_layers()
    ensures cuts { (sum : List ℕ → ℕ) (first_data : ℕ) (before : ℕ → Cell) (s : JoinedState)
        (log : SessionLog) (t : LogTxns) (marks : ℕ) (seen : DiskSeen) → HoldsLog log seen →
        IsBesideLog s log t marks → AreUses s.blocks → s.blocks.txns ≡ map txn_of s.txns →
        IfSome seen.told (λ r. (first : List (List ℕ)) → BeganAs r log.from first →
        ((b : ℕ) → cell_after r log.from b ≡ before b) → CellsHold sum s.blocks r →
        (have : HaveNamedLayers s log r) → AreSoundAfter s log r have →
        LeaveDropRoom sum first_data r →
        ShowsCuts (layers_meanings sum first_data before log.head.super.generation) s r) }
{}
