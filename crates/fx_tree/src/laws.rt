//! Laws of plans, for those who prove: the functions do nothing.
ghost use Rattle.std.specs.Prelude.{◌+◌, ℕ, List};
ghost use Rattle.fx_item.specs.Overlay.{Said};
ghost use Rattle.fx_plain.specs.Tree.{Tree};
ghost use Rattle.fx_namespace.specs.Commits.{IsBelow};
ghost use Rattle.fx_contents.specs.Points.{Points, points_after, value_under};
ghost use Rattle.fx_contents.specs.Standing.{AreClear, StandForTree};
ghost use Rattle.fx_steps.specs.declared.step.TreeStep.{TreeStep};
ghost use Rattle.fx_steps.specs.declared.step.TreeStep.TheVariants.{Basic, Truncate};
ghost use Rattle.fx_plain.specs.declared.step.Step.TheVariants.{Write};
ghost use Rattle.fx_tree.specs.Keys.{KeepsKeys, KeepsLineKeys};
ghost use Rattle.fx_tree.specs.Plans.{AreDoneBy, AreNamesPlans, IsDoneBy, IsDoneWith, IsNamesPlan, PlansSize, PlansText, nodes_made};

/// A plan does its step: with its items laid on top, what stands makes the tree after the step. It is
/// a plan, too, over whatever stands with the same items at the nodes of the step's keys and with
/// Objects of the same kind where their child entries lead; so it does the step there.
pub fn plan_laws()
    ensures done { (m : Points) (f : ℕ → List ℕ) (t : Tree) (id store : ℕ) (step : TreeStep)
        (said : Said) → StandForTree m f t → IsBelow (value_under m) id store
        → IsNamesPlan m id store step said → IsDoneBy m said f t step }
    ensures over { (m n : Points) (f g : ℕ → List ℕ) (t u : Tree) (id store : ℕ)
        (step : TreeStep) (said : Said) → StandForTree m f t → StandForTree n g u
        → KeepsKeys m n step → IsNamesPlan m id store step said
        → IsNamesPlan n id store step said }
    ensures promise { (m n : Points) (f g : ℕ → List ℕ) (t u : Tree) (id store : ℕ)
        (step : TreeStep) (said : Said) → StandForTree m f t → StandForTree n g u
        → IsBelow (value_under n) id store → KeepsKeys m n step
        → IsNamesPlan m id store step said → IsDoneBy n said g u step }
{}

/// A text that is written into a file, and a file that is cut or grows: what stands with the items on
/// top and what the blocks of the device hold then make the tree after the step, with zeros past the
/// ends of files.
pub fn text_plan_laws()
    ensures text { (m : Points) (f g : ℕ → List ℕ) (t : Tree) (path : List (List ℕ)) (at : ℕ)
        (text : List ℕ) (said : Said) → StandForTree m f t → AreClear m f
        → PlansText m f g path at text said
        → IsDoneWith m said g t (Basic (Write path at text)) }
    ensures size { (m : Points) (f g : ℕ → List ℕ) (t : Tree) (path : List (List ℕ)) (size : ℕ)
        (said : Said) → StandForTree m f t → AreClear m f → PlansSize m f g path size said
        → IsDoneWith m said g t (Truncate path size) }
{}

/// The plans of a line's steps, each over what the steps before it left, do the line, and the numbers
/// of new nodes stay ahead of those that items use. They are plans, too, over whatever stands with the
/// same items at the nodes of the line's keys, its own new nodes aside, and with Objects of the same
/// kind where their child entries lead; so they do the line there.
pub fn line_plan_laws()
    ensures below { (m : Points) (id store : ℕ) (step : TreeStep) (said : Said)
        → IsBelow (value_under m) id store → IsNamesPlan m id store step said
        → IsBelow (value_under (points_after m said)) (nodes_made step + id)
        (nodes_made step + store) }
    ensures line { (m : Points) (f : ℕ → List ℕ) (t : Tree) (id store : ℕ)
        (steps : List TreeStep) (saids : List Said) → StandForTree m f t
        → IsBelow (value_under m) id store → AreNamesPlans m id store steps saids
        → AreDoneBy m saids f t steps }
    ensures over { (m n : Points) (f g : ℕ → List ℕ) (t u : Tree) (id store : ℕ)
        (steps : List TreeStep) (saids : List Said) → StandForTree m f t → StandForTree n g u
        → IsBelow (value_under m) id store → IsBelow (value_under n) id store
        → KeepsLineKeys m n id store steps saids → AreNamesPlans m id store steps saids
        → AreNamesPlans n id store steps saids }
    ensures promise { (m n : Points) (f g : ℕ → List ℕ) (t u : Tree) (id store : ℕ)
        (steps : List TreeStep) (saids : List Said) → StandForTree m f t → StandForTree n g u
        → IsBelow (value_under m) id store → IsBelow (value_under n) id store
        → KeepsLineKeys m n id store steps saids → AreNamesPlans m id store steps saids
        → AreDoneBy n saids g u steps }
{}
