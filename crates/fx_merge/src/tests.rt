//! A merge of many levels, each of one block of the device that is taken.
ghost use Rattle.std.specs.Prelude.{◌≡◌, ◌≤◌, All, IfOk};
ghost use Rattle.fx_item.specs.Item.{IsItem, item_of, items_of};

use super::*;
use fx_batch::Batch;
use fx_extmerge::AllocMerger;
use fx_item::{Item, Items, Key, LookFault, decode};
use std::alloc::{AllocError, Global};
use std::test::Fail;

const LEVELS: u32 = 10_000;

fn push_u32(bytes: &mut Vec<u8>, value: u32) -> Result<(), AllocError> {
    for byte in value.to_le_bytes() {
        bytes.push(byte)?;
    }
    Ok(())
}

/// A block of the device, taken.
fn taken(alloc: Global, block: u32) -> Result<Item, AllocError>
    ensures { IfOk result (λ item. IsItem (item_of item)) }
{
    let mut bytes = Vec::new(alloc);
    bytes.push(6)?;
    push_u32(&mut bytes, block)?;
    push_u32(&mut bytes, block.saturating_add(1))?;
    bytes.push(7)?;
    match decode(alloc, bytes.as_slice()) {
        Ok((item, _)) => Ok(item),
        Err(_) => Err(AllocError),
    }
}

fn one(alloc: Global, block: u32) -> Result<Items, AllocError>
    ensures { IfOk result (λ items. All IsItem (items_of items)) }
{
    let mut items = Vec::new(alloc);
    let item = taken(alloc, block)?;
    items.push(item)?;
    Ok(Items::new(items))
}

fn batch(alloc: Global, block: u32) -> Result<Batch, AllocError> {
    let items = one(alloc, block)?;
    if items.len() >= 1 << 32 {
        return Err(AllocError);
    }
    match Batch::build(items) {
        Ok(batch) => Ok(batch),
        Err(_) => Err(AllocError),
    }
}

/// Levels that do not overlap, in no order.
fn levels(alloc: Global) -> Result<Vec<Batch>, AllocError> {
    let mut levels = Vec::new(alloc);
    for i in 0..LEVELS {
        let level = batch(alloc, i * 7_919 % LEVELS)?;
        levels.push(level)?;
    }
    Ok(levels)
}

fn refs(alloc: Global, levels: &[Batch]) -> Result<LayerRefs<'_, Batch>, AllocError> {
    let mut refs = Vec::new(alloc);
    for level in levels {
        refs.push(level)?;
    }
    Ok(LayerRefs::new(refs))
}

/// How many items a merge gives, and how many pairs it compares for them.
fn counted(alloc: Global, levels: &[Batch]) -> Result<(u64, u64), LookFault> {
    let from = Key::Object { store: 0, id: 0 };
    let refs = refs(alloc, levels)?;
    let mut merge: Merge<'_, AllocMerger, Batch> = Merge::new(alloc, refs, from)?;
    let mut items: u64 = 0;
    let mut pairs: u64 = 0;
    for _ in 0..=LEVELS {
        pairs = pairs.saturating_add(merge.pairs_to_compare());
        if merge.next(alloc)?.is_none() {
            return Ok((items, pairs));
        }
        items = items.saturating_add(1);
    }
    Ok((items, pairs))
}

#[test]
fn each_item_costs_the_logarithm_of_the_levels(rt: HostRuntime) -> Result<(), Fail> {
    let levels = levels(rt.alloc())?;
    let counts = counted(rt.alloc(), levels.as_slice());
    let (items, pairs) = counts.ok().ok_or("no memory")?;
    assert_eq!(rt; items, 10_000);
    assert!(rt; pairs <= 150_000, "{pairs}");
    Ok(())
}
