//! Laws of the numbers of a line, for those who prove: the functions do nothing.
ghost use Rattle.std.specs.Prelude.{◌≡◌, ◌↔◌, ◌<◌, ◌≤◌, ◌+◌, ◌*◌, ◌/◌, ◌⊎◌, ℕ, List, Ok, Err, None, Some, if◌then◌else◌, length, false, true};
ghost use Rattle.std.specs.FinSet.{contains};
ghost use Rattle.fx_base.specs.declared.block.TheConstants.{BLOCK_BYTES};
ghost use Rattle.fx_plain.specs.Node.{Attributes, Contents, Dir, File};
ghost use Rattle.fx_plain.specs.Tree.{IsTree, Tree, sizes_of};
ghost use Rattle.fx_steps.specs.declared.step.TreeStep.{TreeStep};
ghost use Rattle.fx_steps.specs.declared.refusal.StepRefusal.{StepRefusal};
ghost use Rattle.fx_steps.specs.declared.refusal.StepRefusal.TheVariants.{TooBig};
ghost use Rattle.fx_steps.specs.Groups.{do_tree_steps, tree_along};
ghost use Rattle.fx_steps.specs.Rows.{do_tree_step};
ghost use Rattle.fx_steps.specs.Needs.{HasLineRoom, cut_touched, cut_written, do_line, is_too_big, line_need, line_touched, line_written, step_need};
ghost use Rattle.fx_needs.specs.Gained.{GainsAtMost};
ghost use Rattle.fx_needs.specs.Worked.{nothing_beyond, one_write};

use fx_plain::{size_laws, step_laws};
use fx_steps::line_laws;

/// A line is refused as a whole, with index 0, exactly where none of its steps is refused and it
/// writes more than 256 blocks or touches more than 4,096. Where a step is refused, the line is
/// refused with it, however big it is.
pub fn answer_laws()
    ensures whole { (tree : Tree) (steps : List TreeStep) (refusal : StepRefusal)
        → (do_line tree steps ≡ Err (0, refusal))
        ↔ ((do_tree_steps tree steps ≡ Ok (tree_along tree steps))
        × ((257 ≤ line_written tree steps) ⊎ (4097 ≤ line_touched tree steps))
        × (refusal ≡ TooBig)) }
    ensures step { (tree : Tree) (steps : List TreeStep) (index : ℕ) (refusal : StepRefusal)
        → do_tree_steps tree steps ≡ Err (index, refusal)
        → do_line tree steps ≡ Err (index, refusal) }
    ensures small { (tree : Tree) (steps : List TreeStep) → line_written tree steps ≤ 256
        → line_touched tree steps ≤ 4096 → do_line tree steps ≡ do_tree_steps tree steps }
{
    line_laws();
}

/// What a truncation writes and touches. A file that is cut is touched in the blocks that begin
/// below the old length and end past the size. The block that the size lies inside is written where
/// it is held, and no other. A file that grows, or stays, is neither written nor touched.
pub fn cut_laws()
    ensures touched { (size b : ℕ) (contents : Contents) (attributes : Attributes)
        → size < length contents.bytes
        → ((b * BLOCK_BYTES < length contents.bytes) × (size < (b + 1) * BLOCK_BYTES))
        ↔ ((size / BLOCK_BYTES ≤ b) × (b < size / BLOCK_BYTES
        + cut_touched size (Some (File contents attributes)))) }
    ensures inside { (size b : ℕ) (contents : Contents) (attributes : Attributes)
        → size < length contents.bytes → b * BLOCK_BYTES < size → size < (b + 1) * BLOCK_BYTES
        → cut_written size (Some (File contents attributes))
        ≡ (if contains contents.held b then 1 else 0) }
    ensures edge { (b : ℕ) (contents : Contents) (attributes : Attributes)
        → cut_written (b * BLOCK_BYTES) (Some (File contents attributes)) ≡ 0 }
    ensures uncut { (size : ℕ) (contents : Contents) (attributes : Attributes)
        → length contents.bytes ≤ size → (cut_written size (Some (File contents attributes)) ≡ 0)
        × (cut_touched size (Some (File contents attributes)) ≡ 0) }
    ensures no_file { (size : ℕ) (attributes : Attributes)
        → (cut_written size (Some (Dir attributes)) ≡ 0) × (cut_written size None ≡ 0)
        × (cut_touched size (Some (Dir attributes)) ≡ 0) × (cut_touched size None ≡ 0) }
{}

/// After a step, and after the steps of a line, a tree holds at most what it held and what they
/// need.
pub fn gain_laws()
    ensures step { (tree : Tree) (step : TreeStep) → IsTree tree
        → GainsAtMost (sizes_of tree) (step_need tree step)
        (sizes_of (do_tree_step tree step).1) }
    ensures line { (tree : Tree) (steps : List TreeStep) → IsTree tree
        → GainsAtMost (sizes_of tree) (line_need tree steps) (sizes_of (tree_along tree steps)) }
{
    step_laws();
    size_laws();
}

/// Worked numbers. A text of 256 blocks from the beginning of a file is written, and one of 257 is
/// too big; so is one of 256 that begins inside a block. On a disk of 1,088 blocks with a ring of
/// 256 and two nodes in the tree there is room for 243 blocks, and not for 244.
pub fn worked_needs()
    ensures written_256 { (tree : Tree) (path : List (List ℕ)) (text : List ℕ)
        → length text ≡ 256 * 4096 → is_too_big tree (one_write path 0 text) ≡ false }
    ensures written_257 { (tree : Tree) (path : List (List ℕ)) (text : List ℕ)
        → length text ≡ 256 * 4096 + 1 → is_too_big tree (one_write path 0 text) ≡ true }
    ensures written_across { (tree : Tree) (path : List (List ℕ)) (text : List ℕ)
        → length text ≡ 256 * 4096 → is_too_big tree (one_write path 4095 text) ≡ true }
    ensures room_243 { (tree : Tree) (path : List (List ℕ)) (text : List ℕ)
        → sizes_of tree ≡ record { nodes = 2; attributes = 0; blocks = 0 }
        → length text ≡ 243 * 4096
        → HasLineRoom 1088 256 tree (one_write path 0 text) nothing_beyond }
    ensures room_244 { (tree : Tree) (path : List (List ℕ)) (text : List ℕ)
        → sizes_of tree ≡ record { nodes = 2; attributes = 0; blocks = 0 }
        → length text ≡ 244 * 4096
        → HasLineRoom 1088 256 tree (one_write path 0 text) nothing_beyond → ⊥ }
{}
