//! The blocks that a transaction writes.
ghost use Rattle.std.specs.Prelude.{◌≡◌, ◌+◌, ◌||◌, ◌<◌, ◌^◌, ℕ, List, None, Option, [], true, false, IfOk, IfSome, IfNone, OnOk, length};
ghost use Rattle.std.specs.List.{flat_map};
ghost use Rattle.fx_item.specs.Item.{item_of, items_of, key_of, value_of};
ghost use Rattle.fx_verify.specs.Kept.{block_sums_of, is_taken_under, is_within, last_stated, with_sums, written_by};
ghost use Rattle.fx_verify.specs.Written.{StatesLike, MovesTaken, sum_at};

use fx_item::{Item, Key, Value};
use std::alloc::{AllocError, Global};
use std::collections::BTreeMap;

/// The blocks that a transaction writes, each once, with the sum that is stated for it. Costs the
/// items, and the logarithm of the stated sums for each of these.
pub(crate) fn written(alloc: Global, items: &[Item]) -> Result<Vec<(u32, u64)>, AllocError>
    ensures { IfOk result (λ written. StatesLike (written_by (items_of items.now)) written.items) }
{
    let mut stated = stated_sums(alloc, items)?;
    let mut written = Vec::new(alloc);
    for item in items {
        take_item(&mut stated, item, &mut written)?;
    }
    Ok(written)
}

/// The blocks of a transaction's extents, each with the sum that is stated last for it.
fn stated_sums(alloc: Global, items: &[Item]) -> Result<BTreeMap<u64, u64>, AllocError>
    ensures { IfOk result (λ stated. (block : ℕ) → sum_at stated block
        ≡ last_stated block (flat_map block_sums_of (items_of items.now)) None) }
{
    let mut stated = BTreeMap::new(alloc);
    for item in items {
        state_item(&mut stated, item)?;
    }
    Ok(stated)
}

/// States the sums of an extent.
fn state_item(stated: &mut BTreeMap<u64, u64>, item: &Item) -> Result<(), AllocError>
    ensures { OnOk result ((block : ℕ) → sum_at stated.new block
        ≡ last_stated block (block_sums_of (item_of item.now)) (sum_at stated.old block)) }
{
    match (&item.key, &item.value) {
        (Key::Extent { .. }, Value::Extent { block, sums }) => {
            state(stated, *block, sums.as_slice())
        }
        _ => Ok(()),
    }
}

/// States sums for blocks that follow each other.
fn state(stated: &mut BTreeMap<u64, u64>, block: u32, sums: &[u64]) -> Result<(), AllocError>
    ensures { OnOk result ((b : ℕ) → sum_at stated.new b
        ≡ last_stated b (with_sums block sums.now) (sum_at stated.old b)) }
{
    let mut next = u64::from(block);
    for sum in sums {
        stated.insert(next, *sum)?;
        next += 1;
    }
    Ok(())
}

/// Moves the blocks that an allocation takes, with their sums, behind those that were written.
fn take_item(
    stated: &mut BTreeMap<u64, u64>,
    item: &Item,
    written: &mut Vec<(u32, u64)>,
) -> Result<(), AllocError>
    ensures { OnOk result (MovesTaken
        (λ block. is_taken_under block (key_of item.now.key) (value_of item.now.value))
        (sum_at stated.old) (sum_at stated.new) written.old.items written.new.items) }
{
    match (&item.key, &item.value) {
        (Key::Allocation { start, end }, Value::Taken) => {
            take_within(stated, *start, *end, written)
        }
        _ => Ok(()),
    }
}

/// Moves the blocks of a range, with their sums, behind those that were written. Costs the logarithm of
/// the blocks for each that is moved.
fn take_within(
    stated: &mut BTreeMap<u64, u64>,
    start: u32,
    end: u32,
    written: &mut Vec<(u32, u64)>,
) -> Result<(), AllocError>
    ensures { OnOk result (MovesTaken (is_within start end) (sum_at stated.old)
        (sum_at stated.new) written.old.items written.new.items) }
{
    'blocks: while let Some((block, sum)) = first_within(stated, start, end) {
        stated.remove(&u64::from(block));
        written.push((block, sum))?;
    }
    Ok(())
}

/// The first block of a range that is stated, with its sum.
fn first_within(stated: &BTreeMap<u64, u64>, start: u32, end: u32) -> Option<(u32, u64)>
    ensures stated { IfSome result (λ p. sum_at stated.now p.0 ≡ Some p.1) }
    ensures within { IfSome result (λ p. is_within start end p.0 ≡ true) }
    ensures none { IfNone result ((block : ℕ) → is_within start end block ≡ true
        → sum_at stated.now block ≡ None) }
{
    let (block, sum) = stated.range(u64::from(start)..).next()?;
    if *block < u64::from(end) {
        Some((*block as u32, *sum))
    } else {
        None
    }
}
