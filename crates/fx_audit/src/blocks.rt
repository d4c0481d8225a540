//! The least unsound block.
ghost use Rattle.std.specs.Prelude.{◌≡◌, ◌++◌, ◌==◌, ◌||◌, ◌<◌, if◌then◌else◌, ◌∷◌, [], ℕ, false, true, nat_le, nat_lt, not, get_or, length, map, IfNone, IfOk, IfSome, OnOk};
ghost use Rattle.fx_item.specs.Item.{item_of, items_of, key_of, value_of};
ghost use Rattle.fx_sound.specs.Faults.{HasNoUnsoundBlock, IsLeastUnsound};
ghost use Rattle.fx_sound.specs.Image.{AreStanding};
ghost use Rattle.fx_audit.specs.Audited.{plain_image};
ghost use Rattle.fx_audit.specs.Claims.{AreClaims, FindsFirst, claimed, file_range, file_ranges, is_bad_block, is_reserved, is_unsound_count, one_more, single_ranges, taken_range, taken_ranges};

use crate::image::Audited;
use fx_item::{Item, Key, MAX_DEVICE_BLOCKS, Value};
use std::alloc::{AllocError, Global};

/// The least block at which allocations, files, layers and the system disagree; none where they
/// agree everywhere.
pub(crate) fn unsound_block(alloc: Global, image: &Audited) -> Result<Option<u32>, AllocError>
    requires { AreStanding (items_of image.now.items.now) }
    ensures none { IfOk result (λ found. IfNone found (HasNoUnsoundBlock (plain_image image.now))) }
    ensures least { IfOk result (λ found. IfSome found (IsLeastUnsound (plain_image image.now))) }
{
    let files = file_claims(alloc, image.items)?;
    let taken = taken_claims(alloc, image.items)?;
    let layers = single_claims(alloc, image.layers)?;
    Ok(first_bad(image, &files, &taken, &layers))
}

/// The first block that is bad by these tables.
fn first_bad(image: &Audited, files: &[u8], taken: &[u8], layers: &[u8]) -> Option<u32>
    requires files { length files.now ≡ MAX_DEVICE_BLOCKS }
    requires taken { length taken.now ≡ MAX_DEVICE_BLOCKS }
    requires layers { length layers.now ≡ MAX_DEVICE_BLOCKS }
    ensures { FindsFirst
        (is_bad_block image.now.ring image.now.disk files.now taken.now layers.now) result }
{
    for block in 0..MAX_DEVICE_BLOCKS {
        if is_bad_block(image, files, taken, layers, block) {
            return Some(block);
        }
    }
    None
}

fn is_bad_block(image: &Audited, files: &[u8], taken: &[u8], layers: &[u8], block: u32) -> bool
    requires files { block < length files.now }
    requires taken { block < length taken.now }
    requires layers { block < length layers.now }
    ensures { result
        ≡ is_bad_block image.now.ring image.now.disk files.now taken.now layers.now block }
{
    let at = block as usize;
    is_unsound_count(files[at], taken[at], is_reserved(image, layers[at], block))
}

fn is_unsound_count(files: u8, taken: u8, reserved: bool) -> bool
    ensures { result ≡ is_unsound_count files taken reserved }
{
    if taken == 0 {
        return 0 < files;
    }
    !(files == 1) || reserved
}

fn is_reserved(image: &Audited, layers: u8, block: u32) -> bool
    ensures { result ≡ is_reserved image.now.ring image.now.disk layers block }
{
    u64::from(block) < u64::from(image.ring) + 2 || 0 < layers || image.disk <= block
}

/// How many extents have each block of the device, up to two.
fn file_claims(alloc: Global, items: &[Item]) -> Result<Vec<u8>, AllocError>
    ensures len { IfOk result (λ table. length table.items ≡ MAX_DEVICE_BLOCKS) }
    ensures counts { IfOk result
        (λ table. AreClaims (file_ranges (items_of items.now)) table.items) }
{
    let ranges = file_ranges(alloc, items)?;
    claims(alloc, &ranges)
}

/// How many allocations take each block.
fn taken_claims(alloc: Global, items: &[Item]) -> Result<Vec<u8>, AllocError>
    ensures len { IfOk result (λ table. length table.items ≡ MAX_DEVICE_BLOCKS) }
    ensures counts { IfOk result
        (λ table. AreClaims (taken_ranges (items_of items.now)) table.items) }
{
    let ranges = taken_ranges(alloc, items)?;
    claims(alloc, &ranges)
}

/// How often a list names each block.
fn single_claims(alloc: Global, blocks: &[u32]) -> Result<Vec<u8>, AllocError>
    ensures len { IfOk result (λ table. length table.items ≡ MAX_DEVICE_BLOCKS) }
    ensures counts { IfOk result (λ table. AreClaims (single_ranges blocks.now) table.items) }
{
    let ranges = single_ranges(alloc, blocks)?;
    claims(alloc, &ranges)
}

/// How many of the ranges have each block, up to two.
fn claims(alloc: Global, ranges: &[(u64, u64)]) -> Result<Vec<u8>, AllocError>
    ensures len { IfOk result (λ table. length table.items ≡ MAX_DEVICE_BLOCKS) }
    ensures counts { IfOk result (λ table. AreClaims ranges.now table.items) }
{
    let mut table = no_claims(alloc, MAX_DEVICE_BLOCKS as usize)?;
    for range in ranges {
        claim(table.as_mut_slice(), range.0, range.1);
    }
    Ok(table)
}

/// A table of so many blocks, none of which is claimed.
fn no_claims(alloc: Global, blocks: usize) -> Result<Vec<u8>, AllocError>
    ensures len { IfOk result (λ table. length table.items ≡ blocks) }
    ensures none { IfOk result (λ table. (block : ℕ) → get_or table.items block 0 ≡ 0) }
{
    vec![in alloc; 0u8; blocks]
}

/// One more range: each of its blocks in the table counts one more.
fn claim(table: &mut [u8], start: u64, end: u64)
    ensures len { length table.new ≡ length table.old }
    ensures counts { (block : ℕ) → block < length table.old
        → get_or table.new block 0 ≡ claimed block (get_or table.old block 0) (start, end) }
{
    let end = end.min(table.len() as u64);
    if end <= start {
        return;
    }
    for at in start..end {
        count_one(table, at as usize);
    }
}

fn count_one(table: &mut [u8], at: usize)
    requires { at < length table.old }
    ensures len { length table.new ≡ length table.old }
    ensures counts { (block : ℕ) → block < length table.old → get_or table.new block 0
        ≡ (if block == at then one_more (get_or table.old block 0) else get_or table.old block 0) }
{
    table[at] = one_more(table[at]);
}

fn one_more(count: u8) -> u8
    ensures { result ≡ one_more count }
{
    if count < 2 { count + 1 } else { count }
}

/// The blocks of the device that extents have.
fn file_ranges(alloc: Global, items: &[Item]) -> Result<Vec<(u64, u64)>, AllocError>
    ensures { IfOk result (λ ranges. ranges.items ≡ file_ranges (items_of items.now)) }
{
    let mut ranges = Vec::new(alloc);
    for item in items {
        push_file_range(item, &mut ranges)?;
    }
    Ok(ranges)
}

fn push_file_range(item: &Item, ranges: &mut Vec<(u64, u64)>) -> Result<(), AllocError>
    ensures { OnOk result (ranges.new.items
        ≡ ranges.old.items ++ file_range (key_of item.now.key) (value_of item.now.value)) }
{
    if let (Key::Extent { start, end, .. }, Value::Extent { block, .. }) = (
        &item.key,
        &item.value,
    ) {
        let first = u64::from(*block);
        ranges.push((first, first + u64::from(end.saturating_sub(*start))))?;
    }
    Ok(())
}

/// The blocks of the device that are taken.
fn taken_ranges(alloc: Global, items: &[Item]) -> Result<Vec<(u64, u64)>, AllocError>
    ensures { IfOk result (λ ranges. ranges.items ≡ taken_ranges (items_of items.now)) }
{
    let mut ranges = Vec::new(alloc);
    for item in items {
        push_taken_range(item, &mut ranges)?;
    }
    Ok(ranges)
}

fn push_taken_range(item: &Item, ranges: &mut Vec<(u64, u64)>) -> Result<(), AllocError>
    ensures { OnOk result (ranges.new.items
        ≡ ranges.old.items ++ taken_range (key_of item.now.key) (value_of item.now.value)) }
{
    if let (Key::Allocation { start, end }, Value::Taken) = (&item.key, &item.value) {
        ranges.push((u64::from(*start), u64::from(*end)))?;
    }
    Ok(())
}

/// Each block as a range of its own.
fn single_ranges(alloc: Global, blocks: &[u32]) -> Result<Vec<(u64, u64)>, AllocError>
    ensures { IfOk result (λ ranges. ranges.items ≡ single_ranges blocks.now) }
{
    let mut ranges = Vec::new(alloc);
    for block in blocks {
        ranges.push((u64::from(*block), u64::from(*block) + 1))?;
    }
    Ok(ranges)
}
