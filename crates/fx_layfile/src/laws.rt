//! Laws of layers: functions that do nothing, whose contracts callers cite.
ghost use Rattle.std.specs.Prelude.{◌≡◌, ℕ, List, [], Bool};
ghost use Rattle.fx_layfile.specs.Bound.{LayerBoundLaw};
ghost use Rattle.fx_layfile.specs.Writing.{WrittenLaw, WriterState, new_writer, HasWrittenLayer};
ghost use Rattle.fx_layfile.specs.Layer.{Verdict, IsVerdict, BlockBytes};

/// How many blocks the layers of both trees have at most.
pub fn layer_bound_law()
    ensures { LayerBoundLaw }
{}

/// One verdict at most holds of a layer.
pub fn one_verdict_law()
    ensures { (bytes : BlockBytes) (ring : ℕ) (marks : List Bool) (tree first : ℕ) (v w : Verdict)
        → IsVerdict bytes ring marks tree first v → IsVerdict bytes ring marks tree first w
        → v ≡ w }
{}

/// What is read back of a layer is what was written.
pub fn written_law()
    ensures begun { (tree : ℕ) → HasWrittenLayer (new_writer tree) [] [] }
    ensures stands { WrittenLaw }
{}
