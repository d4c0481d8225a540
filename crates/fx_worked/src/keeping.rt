//! The number up to which an image keeps its transactions, found by trying each from the top.
ghost use Rattle.std.specs.Prelude.{◌≡◌, ◌↔◌, ◌+◌, ◌<◌, ◌^◌, ◌==◌, if◌then◌else◌, None, Some, length, IfOk, IsTrue};
ghost use Rattle.std.specs.List.{flat_map};
ghost use Rattle.fx_item.specs.Item.{item_of, items_of, key_of, value_of};
ghost use Rattle.fx_verify.specs.Kept.{IsKeptNumber, Passes, after_items, block_sums_of, is_freed_by, is_freed_under, is_taken_by, is_taken_under, last_stated, live_sum, plain_txns, with_sums};
ghost use Rattle.fx_verify.specs.Wrong.{is_found};
ghost use Rattle.fx_worked.specs.Tried.{IsAsStated};

use fx_item::{Item, Items, Key, Value};
use fx_verify::{blocks_of, live_is_written};
use std::alloc::{AllocError, Global};

/// The number up to which an image keeps these transactions, which follow the one numbered `base`. It
/// tries the greatest first, and each anew.
pub fn kept_from_top(
    alloc: Global,
    base: u64,
    txns: &[(u64, Items)],
    found: &[(u32, u64)],
) -> Result<u64, AllocError>
    requires { base + length txns.now < 2 ^ 64 }
    ensures { IfOk result (λ kept. IsKeptNumber base (plain_txns txns.now) found.now kept) }
{
    for dropped in 0..txns.len() {
        let count = txns.len() - dropped;
        if passes(alloc, &txns[..count], found)? {
            return Ok(base + count as u64);
        }
    }
    Ok(base)
}

/// Whether each block that these transactions wrote, and that is live after them, was found with the sum
/// that is stated for it.
fn passes(alloc: Global, txns: &[(u64, Items)], found: &[(u32, u64)]) -> Result<bool, AllocError>
    ensures { IfOk result (λ good. IsTrue good ↔ Passes (plain_txns txns.now) found.now) }
{
    live_is_written();
    let blocks = blocks_of(alloc, txns)?;
    let blocks = blocks.as_slice();
    for block in blocks {
        if !is_as_stated(txns, found, *block) {
            return Ok(false);
        }
    }
    Ok(true)
}

fn is_as_stated(txns: &[(u64, Items)], found: &[(u32, u64)], block: u32) -> bool
    ensures { IsTrue result ↔ IsAsStated (plain_txns txns.now) found.now block }
{
    match live_after_all(txns, block) {
        None => true,
        Some(sum) => was_found(found, block, sum),
    }
}

fn was_found(found: &[(u32, u64)], block: u32, sum: u64) -> bool
    ensures { result ≡ is_found found.now block sum }
{
    found.iter().any(|pair| pair.0 == block && pair.1 == sum)
}

/// The sum that is stated for a block, if it is live after all transactions.
fn live_after_all(txns: &[(u64, Items)], block: u32) -> Option<u64>
    ensures { result ≡ live_sum (plain_txns txns.now) block }
{
    let mut live = None;
    for (_, items) in txns {
        live = live_after_one(items.as_slice(), block, live);
    }
    live
}

fn live_after_one(items: &[Item], block: u32, before: Option<u64>) -> Option<u64>
    ensures { result ≡ after_items block before (items_of items.now) }
{
    let left = left_unfreed(items, block, before);
    if is_taken(items, block) {
        return stated(items, block, left);
    }
    left
}

fn left_unfreed(items: &[Item], block: u32, before: Option<u64>) -> Option<u64>
    ensures { result ≡ (if is_freed_by (items_of items.now) block then None else before) }
{
    if is_freed(items, block) {
        return None;
    }
    before
}

fn is_freed(items: &[Item], block: u32) -> bool
    ensures { result ≡ is_freed_by (items_of items.now) block }
{
    for item in items {
        if frees(item, block) {
            return true;
        }
    }
    false
}

fn is_taken(items: &[Item], block: u32) -> bool
    ensures { result ≡ is_taken_by (items_of items.now) block }
{
    for item in items {
        if takes(item, block) {
            return true;
        }
    }
    false
}

/// The sum that the extents state last for a block, and what stood before where they state none.
fn stated(items: &[Item], block: u32, before: Option<u64>) -> Option<u64>
    ensures { result ≡ last_stated block (flat_map block_sums_of (items_of items.now)) before }
{
    let mut last = before;
    for item in items {
        last = stated_by(item, block, last);
    }
    last
}

fn stated_by(item: &Item, block: u32, before: Option<u64>) -> Option<u64>
    ensures { result ≡ last_stated block (block_sums_of (item_of item.now)) before }
{
    match (&item.key, &item.value) {
        (Key::Extent { .. }, Value::Extent { block: first, sums }) => {
            stated_from(*first, sums.as_slice(), block, before)
        }
        _ => before,
    }
}

fn stated_from(first: u32, sums: &[u64], block: u32, before: Option<u64>) -> Option<u64>
    ensures { result ≡ last_stated block (with_sums first sums.now) before }
{
    let mut last = before;
    let mut place = u64::from(first);
    for sum in sums {
        last = stated_at(place, *sum, block, last);
        place += 1;
    }
    last
}

fn stated_at(place: u64, sum: u64, block: u32, before: Option<u64>) -> Option<u64>
    ensures { result ≡ (if place == block then Some sum else before) }
{
    if place == u64::from(block) {
        return Some(sum);
    }
    before
}

fn frees(item: &Item, block: u32) -> bool
    ensures { result ≡ is_freed_under block (key_of item.now.key) (value_of item.now.value) }
{
    match (&item.key, &item.value) {
        (Key::Allocation { start, end }, Value::Gone) => *start <= block && block < *end,
        _ => false,
    }
}

fn takes(item: &Item, block: u32) -> bool
    ensures { result ≡ is_taken_under block (key_of item.now.key) (value_of item.now.value) }
{
    match (&item.key, &item.value) {
        (Key::Allocation { start, end }, Value::Taken) => *start <= block && block < *end,
        _ => false,
    }
}
