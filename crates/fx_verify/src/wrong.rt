//! The live blocks that were not found with their sums.
ghost use Rattle.std.specs.Prelude.{◌≡◌, ◌&&◌, ℕ, false, true, not, IfOk, IfSome, IfNone, OnOk};
ghost use Rattle.std.specs.List.{fold};
ghost use Rattle.fx_verify.specs.Kept.{is_within};
ghost use Rattle.fx_verify.specs.Wrong.{is_found, holds_block, holds_pair, judged};

use std::alloc::{AllocError, Global};
use std::collections::BTreeSet;

/// The blocks that were found, each with the sum of its bytes, as a set.
pub(crate) fn set_of(
    alloc: Global,
    found: &[(u32, u64)],
) -> Result<BTreeSet<(u32, u64)>, AllocError>
    ensures { IfOk result (λ set. (block sum : ℕ)
        → holds_pair set block sum ≡ is_found found.now block sum) }
{
    let mut set = BTreeSet::new(alloc);
    for pair in found {
        set.insert(*pair)?;
    }
    Ok(set)
}

/// The first block of a range that is in the set.
fn first_within(set: &BTreeSet<u32>, start: u32, end: u32) -> Option<u32>
    ensures held { IfSome result (λ block. holds_block set.now block ≡ true) }
    ensures none { IfNone result ((block : ℕ) → is_within start end block ≡ true
        → holds_block set.now block ≡ false) }
    ensures within { IfSome result (λ block. is_within start end block ≡ true) }
{
    let first = *set.range(start..).next()?;
    if first < end { Some(first) } else { None }
}

/// Takes the blocks of a range out of the set. Costs the logarithm of the set for each that is in it.
pub(crate) fn remove_within(set: &mut BTreeSet<u32>, start: u32, end: u32)
    ensures { (block : ℕ) → holds_block set.new block
        ≡ (holds_block set.old block && not (is_within start end block)) }
{
    'blocks: while let Some(block) = first_within(set, start, end) {
        set.remove(&block);
    }
}

/// Judges blocks that were written: each is wrong now where it was not found with its sum.
pub(crate) fn judge(
    wrong: &mut BTreeSet<u32>,
    found: &BTreeSet<(u32, u64)>,
    written: &[(u32, u64)],
) -> Result<(), AllocError>
    ensures { OnOk result ((block : ℕ) → holds_block wrong.new block
        ≡ fold (judged (holds_pair found.now) block) (holds_block wrong.old block) written.now) }
{
    for (block, sum) in written {
        judge_one(wrong, found, *block, *sum)?;
    }
    Ok(())
}

fn judge_one(
    wrong: &mut BTreeSet<u32>,
    found: &BTreeSet<(u32, u64)>,
    block: u32,
    sum: u64,
) -> Result<(), AllocError>
    ensures { OnOk result ((b : ℕ) → holds_block wrong.new b
        ≡ judged (holds_pair found.now) b (holds_block wrong.old b) (block, sum)) }
{
    if found.contains(&(block, sum)) {
        wrong.remove(&block);
        return Ok(());
    }
    wrong.insert(block)?;
    Ok(())
}
