//! Counts that stand still at the end of a `u64`.
ghost use Rattle.std.specs.Prelude.{◌≡◌, ◌≤◌};
ghost use Rattle.fx_base.specs.Causes.{risen};

/// Counts one more. A count at the end of a `u64` stands still.
pub fn count_up(count: &mut u64)
    ensures risen { count.new ≡ risen count.old }
    ensures grows { count.old ≤ count.new }
{
    *count = count.saturating_add(1);
}
