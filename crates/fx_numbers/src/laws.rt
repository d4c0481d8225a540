//! Laws of the calls, for those who prove. The function does nothing.
ghost use Rattle.std.specs.Prelude.{◌≡◌, ◌≢◌, ℕ, Some, false};
ghost use Rattle.std.specs.FinMap as finite;
ghost use Rattle.fx_plain.specs.Tree.{Tree};
ghost use Rattle.fx_parts.specs.Live.{AgreeAll, MakesNames, live_in_lists};
ghost use Rattle.fx_parts.specs.Sound.{IsSharedSound};
ghost use Rattle.fx_parts.specs.Happening.{MayHappen, SharedEvent, StateGoesOn, actor_of, is_commit_event};
ghost use Rattle.fx_numbers.specs.State.{IsStep, IsStepBy, NumbersState, lists_in, shared_of};

/// A call that is an event leaves a sound state, with the tree that the mount found, and so does a
/// commit, where it might happen: `commit_laws` of `fx_parts` says when. It leaves every other
/// number's part, and the state goes on. One that is no commit leaves what stands at every point.
pub fn step_laws()
    ensures sound { (tree : Tree) (old new : NumbersState) (event : SharedEvent)
        → IsSharedSound MakesNames (shared_of tree old) → IsStep old new event
        → IsSharedSound MakesNames (shared_of tree new) }
    ensures commit { (tree : Tree) (old new : NumbersState) (event : SharedEvent)
        → IsSharedSound MakesNames (shared_of tree old)
        → MayHappen MakesNames (shared_of tree old) event → IsStepBy old new event
        → IsSharedSound MakesNames (shared_of tree new) }
    ensures others { (old new : NumbersState) (event : SharedEvent) (who : ℕ)
        → IsStepBy old new event → actor_of event ≢ Some who
        → finite.get new.parts who ≡ finite.get old.parts who }
    ensures goes_on { (tree : Tree) (old new : NumbersState) (event : SharedEvent)
        → IsStepBy old new event → StateGoesOn (shared_of tree old) (shared_of tree new) }
    ensures items { (old new : NumbersState) (event : SharedEvent) → IsStep old new event
        → is_commit_event event ≡ false
        → AgreeAll (live_in_lists (lists_in old.levels)) (live_in_lists (lists_in new.levels)) }
{}
