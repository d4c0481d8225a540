//! Laws of the steps, for those who prove: the functions do nothing.
ghost use Rattle.std.specs.Prelude.{ℕ, List, [], ◌∷◌, ◌++◌, ◌≡◌, ◌≢◌, ◌+◌, true, false, Ok, Err, None, Some, Option, is_some, ◌≤◌, length};
ghost use Rattle.std.specs.Prelude as list;
ghost use Rattle.std.specs.List.{AllByRecursion};
ghost use Rattle.std.specs.FinMap as finite;
ghost use Rattle.fx_plain.specs.declared.step.Step.{Step};
ghost use Rattle.fx_plain.specs.declared.step.Answer.{Answer};
ghost use Rattle.fx_plain.specs.Node.{Node, File, written};
ghost use Rattle.fx_plain.specs.Bare.{IsPlaced, IsWritten};
ghost use Rattle.fx_plain.specs.Table.{do_all, do_step};
ghost use Rattle.fx_plain.specs.Tree.{IsTree, Tree, sizes_of};
ghost use Rattle.fx_contents.specs.Cuts.{IsTruncated, truncated};
ghost use Rattle.fx_contents.specs.Marks.{IsMarked, marked_node};
ghost use Rattle.fx_steps.specs.declared.step.TreeStep.{TreeStep};
ghost use Rattle.fx_steps.specs.declared.step.TreeStep.TheVariants.{Basic, Truncate, Remove, Rename, SetAttr, DelAttr};
ghost use Rattle.fx_steps.specs.declared.refusal.StepRefusal.{StepRefusal};
ghost use Rattle.fx_steps.specs.Rows.{do_tree_step, is_look, with_basic, with_basic_index};
ghost use Rattle.fx_steps.specs.Groups.{do_tree_steps, tree_after_line, tree_along};
ghost use Rattle.fx_steps.specs.Needs.{both_needs, line_need, line_touched};
ghost use Rattle.fx_steps.specs.Changes.{LiesApart, IsRemoved, IsRenamed, IsSizedAnew, IsSizedLess, IsSizedMore, named_paths};
ghost use Rattle.fx_steps.specs.Moved.{has_below};

use fx_plain::step_laws;

/// A step leaves of a tree a tree, and so do the steps of a line. The basic steps do what they do by
/// themselves. A step that is refused, and one that looks, leaves all as it was.
pub fn tree_laws()
    ensures kept { (tree : Tree) (step : TreeStep)
        → IsTree tree → IsTree (do_tree_step tree step).1 }
    ensures line { (tree : Tree) (steps : List TreeStep)
        → IsTree tree → IsTree (tree_after_line tree (do_tree_steps tree steps)) }
    ensures basic { (tree : Tree) (step : Step) → do_tree_step tree (Basic step)
        ≡ (with_basic (do_step tree step).0, (do_step tree step).1) }
    ensures refused { (tree : Tree) (step : TreeStep) (refusal : StepRefusal)
        → (do_tree_step tree step).0 ≡ Err refusal → (do_tree_step tree step).1 ≡ tree }
    ensures look { (tree : Tree) (step : TreeStep) → is_look step ≡ true
        → (do_tree_step tree step).1 ≡ tree }
    ensures below { (tree : Tree) (path : List (List ℕ)) → IsTree tree
        → has_below tree path ≡ is_some (finite.get tree path) }
{
    step_laws();
}

/// What a step that is done changes of a tree.
pub fn change_laws()
    ensures truncate { (tree : Tree) (path : List (List ℕ)) (size : ℕ) (answer : Answer)
        → (do_tree_step tree (Truncate path size)).0 ≡ Ok answer
        → IsTruncated tree path size (do_tree_step tree (Truncate path size)).1 }
    ensures remove { (tree : Tree) (path : List (List ℕ)) (answer : Answer)
        → (do_tree_step tree (Remove path)).0 ≡ Ok answer
        → IsRemoved tree path (do_tree_step tree (Remove path)).1 }
    ensures rename { (tree : Tree) (from to : List (List ℕ)) (answer : Answer)
        → (do_tree_step tree (Rename from to)).0 ≡ Ok answer
        → IsRenamed tree from to (do_tree_step tree (Rename from to)).1 }
    ensures set { (tree : Tree) (path : List (List ℕ)) (name value : List ℕ) (answer : Answer)
        → (do_tree_step tree (SetAttr path name value)).0 ≡ Ok answer
        → IsMarked tree path name (Some value) (do_tree_step tree (SetAttr path name value)).1 }
    ensures unset { (tree : Tree) (path : List (List ℕ)) (name : List ℕ) (answer : Answer)
        → (do_tree_step tree (DelAttr path name)).0 ≡ Ok answer
        → IsMarked tree path name None (do_tree_step tree (DelAttr path name)).1 }
{}

/// What a step leaves alone: all paths but those that it names and those below them.
pub fn leave_laws()
    ensures step { (tree : Tree) (step : TreeStep) (path : List (List ℕ))
        → LiesApart (named_paths step) path
        → finite.get (do_tree_step tree step).1 path ≡ finite.get tree path }
    ensures line { (tree : Tree) (steps : List TreeStep) (path : List (List ℕ))
        → AllByRecursion (λ step. LiesApart (named_paths step) path) steps
        → finite.get (tree_along tree steps) path ≡ finite.get tree path }
{}

/// What a tree holds after a step that is done.
pub fn size_laws()
    ensures placed { (tree : Tree) (path : List (List ℕ)) (node : Node) (after : Tree)
        → IsTree tree → IsPlaced tree path node after
        → IsSizedMore (sizes_of tree) (sizes_of after) node }
    ensures written { (tree : Tree) (path : List (List ℕ)) (at : ℕ) (text : List ℕ) (after : Tree)
        → (change : IsWritten tree path at text after)
        → IsSizedAnew (sizes_of tree) (sizes_of after)
        (File change.contents change.attributes)
        (File (written at text change.contents) change.attributes) }
    ensures truncated { (tree : Tree) (path : List (List ℕ)) (size : ℕ) (after : Tree)
        → (change : IsTruncated tree path size after)
        → IsSizedAnew (sizes_of tree) (sizes_of after) (File change.contents change.attributes)
        (File (truncated size change.contents) change.attributes) }
    ensures removed { (tree : Tree) (path : List (List ℕ)) (after : Tree) → IsTree tree
        → (change : IsRemoved tree path after)
        → IsSizedLess (sizes_of tree) (sizes_of after) change.node }
    ensures renamed { (tree : Tree) (from to : List (List ℕ)) (after : Tree)
        → IsRenamed tree from to after → sizes_of after ≡ sizes_of tree }
    ensures marked { (tree : Tree) (path : List (List ℕ)) (name : List ℕ)
        (text : Option (List ℕ)) (after : Tree) → (change : IsMarked tree path name text after)
        → IsSizedAnew (sizes_of tree) (sizes_of after) change.node
        (marked_node name text change.node) }
{}

/// The steps of a line lead to the tree along them, or one of them is refused, and then the tree is
/// as before the line. A line of basic steps does what these do. What a line needs is the sum over
/// its steps, each on the tree that it meets.
pub fn line_laws()
    ensures done { (tree : Tree) (steps : List TreeStep) (after : Tree)
        → do_tree_steps tree steps ≡ Ok after → after ≡ tree_along tree steps }
    ensures refused { (tree : Tree) (steps : List TreeStep) (index : ℕ) (refusal : StepRefusal)
        → do_tree_steps tree steps ≡ Err (index, refusal)
        → (1 ≤ index) × (index ≤ length steps)
        × (tree_after_line tree (do_tree_steps tree steps) ≡ tree) }
    ensures basic { (tree : Tree) (steps : List Step)
        → do_tree_steps tree (list.map Basic steps) ≡ with_basic_index (do_all tree steps) }
    ensures need { (tree : Tree) (first more : List TreeStep) → line_need tree (first ++ more)
        ≡ both_needs (line_need tree first) (line_need (tree_along tree first) more) }
    ensures touched { (tree : Tree) (first more : List TreeStep) → line_touched tree (first ++ more)
        ≡ line_touched tree first + line_touched (tree_along tree first) more }
{}
