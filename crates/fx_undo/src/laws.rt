//! Laws of undoing, for those who prove: the function does nothing.
ghost use Rattle.std.specs.Prelude.{◌≡◌, ◌-◌, ℕ, List, Ok, Err, take};
ghost use Rattle.fx_plain.specs.Tree.{Tree};
ghost use Rattle.fx_plain.specs.declared.step.Answer.{Answer};
ghost use Rattle.fx_steps.specs.declared.step.TreeStep.{TreeStep};
ghost use Rattle.fx_steps.specs.declared.refusal.StepRefusal.{StepRefusal};
ghost use Rattle.fx_steps.specs.Rows.{do_tree_step};
ghost use Rattle.fx_steps.specs.Groups.{do_tree_steps, tree_along};
ghost use Rattle.fx_undo.specs.Undo.{undone, undone_steps};

/// What a step that is done changes is undone by what lay at its path before, or by moving back what
/// it moved. The steps of a line that are all done, and those before one that is refused, are undone
/// one after another, the last one first.
pub fn undo_laws()
    ensures step { (tree : Tree) (step : TreeStep) (answer : Answer)
        → (do_tree_step tree step).0 ≡ Ok answer
        → undone tree step (do_tree_step tree step).1 ≡ tree }
    ensures line { (tree : Tree) (steps : List TreeStep) (after : Tree)
        → do_tree_steps tree steps ≡ Ok after → undone_steps tree steps after ≡ tree }
    ensures refused { (tree : Tree) (steps : List TreeStep) (index : ℕ) (refusal : StepRefusal)
        → do_tree_steps tree steps ≡ Err (index, refusal)
        → undone_steps tree (take (index - 1) steps) (tree_along tree (take (index - 1) steps))
        ≡ tree }
{}
