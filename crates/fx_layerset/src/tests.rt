//! Ranges of a file and of the device over batches, over tidied batches and over layers.
ghost use Rattle.std.specs.Prelude.{◌≡◌, All, IfOk, take, length};
ghost use Rattle.std.specs.Arc.{arc_value};
ghost use Rattle.fx_item.specs.Item.{IsItem, item_of, items_of};
ghost use Rattle.fx_layerset.specs.Alike.{IsMergeOf};

use super::*;
use fx_batch::Batch;
use fx_item::{Item, Items, Key, LookFault, Value, decode};
use std::alloc::{AllocError, Global};
use std::sync::Arc;
use std::test::Fail;

/// Ranges of a file, the oldest first, and what they say together. `2-5@200` are blocks 2 to 5 of the
/// file at blocks 200 to 203 of the device, `2-5` is a tombstone.
const FILE: &str = "0-10@100 2-5@200 3-4@300 => 0-2@100 2-3@200 3-4@300 4-5@202 5-10@105
0-10@100 0-1 => 0-1 1-10@101
0-10@100 9-10 => 0-9@100 9-10
0-10@100 4-5@300 => 0-4@100 4-5@300 5-10@105
0-10@100 0-10@300 => 0-10@300
5-10@100 0-4096 => 0-4096
0-4096 4064-4096@200 => 0-4064 4064-4096@200
0-4096 0-32@65504 => 0-32@65504 32-4096
0-32@65504 31-32 => 0-31@65504 31-32
0-32@100 16-48@500 => 0-16@100 16-48@500
16-48@500 0-32@100 => 0-32@100 32-48@516
0-1@7 1-2@8 => 0-1@7 1-2@8
4095-4096@9 0-4095 => 0-4095 4095-4096@9";

/// The same of the device, where `@1` are blocks that are taken.
const DEVICE: &str = "0-65536@1 5-6 => 0-5@1 5-6 6-65536@1
0-65536@1 0-1 => 0-1 1-65536@1
0-65536@1 65535-65536 => 0-65535@1 65535-65536
0-65536 65535-65536@1 => 0-65535 65535-65536@1
9-12@1 0-65536 => 0-65536
0-4096@1 4096-65536 0-32 => 0-32 32-4096@1 4096-65536";

fn may_be_shared<T: Send + Sync>(_value: &T) {}

fn push_all(bytes: &mut Vec<u8>, more: &[u8]) -> Result<(), AllocError> {
    for byte in more {
        bytes.push(*byte)?;
    }
    Ok(())
}

/// The item that these bytes spell.
pub(crate) fn spelled(alloc: Global, bytes: &[u8]) -> Result<Item, AllocError>
    ensures { IfOk result (λ item. IsItem (item_of item)) }
{
    match decode(alloc, bytes) {
        Ok((item, _)) => Ok(item),
        Err(_) => Err(AllocError),
    }
}

fn list_of_one(alloc: Global, bytes: &[u8]) -> Result<Items, AllocError>
    ensures { IfOk result (λ items. All IsItem (items_of items)) }
{
    let mut items = Vec::new(alloc);
    let item = spelled(alloc, bytes)?;
    items.push(item)?;
    Ok(Items::new(items))
}

/// A batch of the item that these bytes spell.
fn batch_of_one(alloc: Global, bytes: &[u8]) -> Result<Arc<Batch>, AllocError> {
    let items = list_of_one(alloc, bytes)?;
    if items.len() >= 1 << 32 {
        return Err(AllocError);
    }
    let Ok(batch) = Batch::build(items) else {
        return Err(AllocError);
    };
    let batch = Arc::new(alloc, batch)?;
    Ok(batch)
}

/// One more batch, of the item that these bytes spell.
pub(crate) fn push_spelled(
    alloc: Global,
    set: &mut LayerSet<Batch>,
    bytes: &[u8],
) -> Result<(), AllocError> {
    let batch = batch_of_one(alloc, bytes)?;
    set.reserve(1)?;
    set.push(batch);
    Ok(())
}

/// A set with no level.
pub(crate) fn empty_set(alloc: Global) -> LayerSet<Batch> {
    LayerSet::new(
        alloc,
        Layers {
            objects: LevelList::new(Vec::new(alloc)),
            allocs: LevelList::new(Vec::new(alloc)),
        },
    )
}

/// One batch in the place of all.
pub(crate) fn tidy_all(alloc: Global, set: &mut LayerSet<Batch>) -> Result<(), LookFault> {
    let below = set.batch_count();
    if below == 0 {
        return Ok(());
    }
    let batch = set.merged_batches(alloc)?;
    let batch = Arc::new(alloc, batch)?;
    set.tidy(below, batch);
    Ok(())
}

/// Layers of the batches alone: all of them as one layer, over what stays.
pub(crate) fn install_all(alloc: Global, set: &mut LayerSet<Batch>) -> Result<(), LookFault> {
    let below = set.batch_count();
    let batch = set.merged_batches(alloc)?;
    let layer = Arc::new(alloc, batch)?;
    let mut objects = Vec::with_capacity(alloc, 1)?;
    objects.push_reserved(Layered::Layer(layer));
    set.reserve_layers(1)?;
    set.install(
        below,
        0,
        Layers {
            objects: LevelList::new(objects),
            allocs: LevelList::new(Vec::new(alloc)),
        },
    );
    Ok(())
}

/// Start, end, and the block that stands at the start, or 0.
fn range_of(word: &str) -> (u32, u32, u32) {
    let (range, block) = match word.split_once('@') {
        Some((range, block)) => (range, block.parse::<u32>().unwrap_or(0)),
        None => (word, 0),
    };
    let Some((start, end)) = range.split_once('-') else {
        return (0, 0, 0);
    };
    let start = start.parse::<u32>().unwrap_or(0);
    let end = end.parse::<u32>().unwrap_or(0);
    (start, end, block)
}

/// The bytes of blocks of a file: the sum of each is its block on the device.
fn file_bytes(alloc: Global, (start, end, block): (u32, u32, u32)) -> Result<Vec<u8>, AllocError> {
    let mut bytes = [3, 1, 0, 0, 0, 1, 0, 0, 0, 0, 0, 0, 0].to_vec(alloc)?;
    push_all(&mut bytes, &start.to_le_bytes())?;
    push_all(&mut bytes, &end.to_le_bytes())?;
    if block == 0 {
        bytes.push(0)?;
        return Ok(bytes);
    }
    bytes.push(6)?;
    push_all(&mut bytes, &block.to_le_bytes())?;
    let mut sum = u64::from(block);
    for _ in start..end {
        push_all(&mut bytes, &sum.to_le_bytes())?;
        sum = sum.wrapping_add(1);
    }
    Ok(bytes)
}

fn device_bytes(
    alloc: Global,
    (start, end, block): (u32, u32, u32),
) -> Result<Vec<u8>, AllocError> {
    let mut bytes = [6].to_vec(alloc)?;
    push_all(&mut bytes, &start.to_le_bytes())?;
    push_all(&mut bytes, &end.to_le_bytes())?;
    bytes.push(if block == 0 { 0 } else { 7 })?;
    Ok(bytes)
}

fn are_in_turn(block: u32, sums: &[u64]) -> bool {
    let mut wanted = u64::from(block);
    for sum in sums {
        if *sum != wanted {
            return false;
        }
        wanted = wanted.wrapping_add(1);
    }
    true
}

fn block_of(value: &Value) -> u32 {
    match value {
        Value::Extent { block, sums } if are_in_turn(*block, sums.as_slice()) => *block,
        Value::Taken => 1,
        Value::Gone => 0,
        _ => 99_999,
    }
}

fn range_in(item: &Item) -> (u32, u32, u32) {
    match item.key {
        Key::Extent { start, end, .. } => (start, end, block_of(&item.value)),
        Key::Allocation { start, end } => (start, end, block_of(&item.value)),
        _ => (0, 0, 0),
    }
}

/// Whether all levels together say just these ranges.
fn says(alloc: Global, set: &LayerSet<Batch>, ranges: &str) -> Result<bool, LookFault> {
    let from = Key::Object { store: 0, id: 0 };
    let mut merge = set.upper(alloc, usize::MAX, from)?;
    for word in ranges.split(' ') {
        let Some(item) = merge.next(alloc)? else {
            return Ok(false);
        };
        if range_in(&item) != range_of(word) {
            return Ok(false);
        }
    }
    Ok(merge.next(alloc)?.is_none())
}

fn push_words(
    alloc: Global,
    set: &mut LayerSet<Batch>,
    is_file: bool,
    words: &str,
) -> Result<(), AllocError> {
    for word in words.split(' ') {
        let range = range_of(word);
        let bytes = if is_file {
            file_bytes(alloc, range)?
        } else {
            device_bytes(alloc, range)?
        };
        push_spelled(alloc, set, bytes.as_slice())?;
    }
    Ok(())
}

/// Whether a row holds over batches, over one batch, and over a layer.
fn holds(alloc: Global, is_file: bool, row: &str) -> Result<bool, LookFault> {
    let Some((words, ranges)) = row.split_once(" => ") else {
        return Ok(false);
    };
    let mut set = empty_set(alloc);
    push_words(alloc, &mut set, is_file, words)?;
    if !says(alloc, &set, ranges)? {
        return Ok(false);
    }
    tidy_all(alloc, &mut set)?;
    if set.batch_count() != 1 || !says(alloc, &set, ranges)? {
        return Ok(false);
    }
    install_all(alloc, &mut set)?;
    Ok(set.batch_count() == 0 && says(alloc, &set, ranges)?)
}

#[test]
fn ranges_of_a_file(rt: HostRuntime) -> Result<(), Fail> {
    for row in FILE.lines() {
        let held = holds(rt.alloc(), true, row).ok().ok_or("no memory")?;
        assert!(rt; held, "at {row}");
    }
    Ok(())
}

#[test]
fn ranges_of_the_device(rt: HostRuntime) -> Result<(), Fail> {
    for row in DEVICE.lines() {
        let held = holds(rt.alloc(), false, row).ok().ok_or("no memory")?;
        assert!(rt; held, "at {row}");
    }
    Ok(())
}

#[test]
fn sets_are_shared_between_threads(rt: HostRuntime) -> Result<(), Fail> {
    let set = empty_set(rt.alloc());
    may_be_shared(&set);
    let snapshot = set.snapshot(rt.alloc())?;
    may_be_shared(&snapshot);
    assert_eq!(rt; snapshot.batch_count(), 0);
    assert_eq!(rt; snapshot.object_count(), 0);
    assert_eq!(rt; snapshot.alloc_count(), 0);
    Ok(())
}
