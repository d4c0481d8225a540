//! The number of transactions that an image keeps.
ghost use Rattle.std.specs.Prelude.{◌≡◌, ◌+◌, ◌<◌, ◌^◌, ◌&&◌, ℕ, false, true, not, length, IfOk, OnOk};
ghost use Rattle.fx_item.specs.Item.{items_of, key_of, value_of};
ghost use Rattle.fx_verify.specs.Kept.{IsKeptNumber, is_freed_by, is_freed_under, plain_txns};
ghost use Rattle.fx_verify.specs.Wrong.{KeepsWrong, holds_block, holds_pair};

use crate::written::written;
use crate::wrong::{judge, remove_within, set_of};
use fx_item::{Item, Items, Key, Value};
use std::alloc::{AllocError, Global};
use std::collections::BTreeSet;

/// The number up to which an image keeps these transactions, which follow the one numbered `base`: the
/// greatest after which each block that they wrote, and that is still live, was found with the sum that
/// they state for it. `found` names blocks with the sums of their bytes; a block that it does not name
/// counts as without its sum. One pass: each item, and each sum that the items state, costs the logarithm
/// of the blocks.
pub fn kept(
    alloc: Global,
    base: u64,
    txns: &[(u64, Items)],
    found: &[(u32, u64)],
) -> Result<u64, AllocError>
    requires { base + length txns.now < 2 ^ 64 }
    ensures { IfOk result (λ kept. IsKeptNumber base (plain_txns txns.now) found.now kept) }
{
    let pairs = set_of(alloc, found)?;
    let mut wrong = BTreeSet::new(alloc);
    let mut last = base;
    let mut kept = base;
    for (_, items) in txns {
        follow(alloc, items.as_slice(), &pairs, &mut wrong)?;
        last += 1;
        if is_clear(&wrong) {
            kept = last;
        }
    }
    Ok(kept)
}

/// Whether the set has no block.
fn is_clear(wrong: &BTreeSet<u32>) -> bool
    ensures clear { result ≡ true → (block : ℕ) → holds_block wrong.now block ≡ false }
    ensures wrong { result ≡ false → (block : ℕ) × (holds_block wrong.now block ≡ true) }
{
    wrong.is_empty()
}

/// Makes the set of the wrong blocks before a transaction the set of those after it: what it frees is
/// not live, and what it writes is wrong where it was not found.
fn follow(
    alloc: Global,
    items: &[Item],
    found: &BTreeSet<(u32, u64)>,
    wrong: &mut BTreeSet<u32>,
) -> Result<(), AllocError>
    ensures { OnOk result (KeepsWrong (holds_pair found.now) (items_of items.now)
        (holds_block wrong.old) (holds_block wrong.new)) }
{
    remove_freed(wrong, items);
    let written = written(alloc, items)?;
    judge(wrong, found, &written)?;
    Ok(())
}

/// Takes the blocks that a transaction frees out of the set.
fn remove_freed(wrong: &mut BTreeSet<u32>, items: &[Item])
    ensures { (block : ℕ) → holds_block wrong.new block
        ≡ (holds_block wrong.old block && not (is_freed_by (items_of items.now) block)) }
{
    for item in items {
        remove_item(wrong, item);
    }
}

/// Takes the blocks that an allocation frees out of the set.
fn remove_item(wrong: &mut BTreeSet<u32>, item: &Item)
    ensures { (block : ℕ) → holds_block wrong.new block ≡ (holds_block wrong.old block
        && not (is_freed_under block (key_of item.now.key) (value_of item.now.value))) }
{
    if let (Key::Allocation { start, end }, Value::Gone) = (&item.key, &item.value) {
        remove_within(wrong, *start, *end);
    }
}
