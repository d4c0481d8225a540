//! Ranges of a file over one another, point by point.
use crate::{Spot, Told, said_at};
use fx_base::List;
use fx_item::{Item, Items, Key, Value};
use std::alloc::{AllocError, Global};

/// A list of one extent of a file: the blocks `start` to `end` at the device's blocks from `block` on,
/// each with its number on the device as its sum; a tombstone where `block` is 0.
fn level(alloc: Global, start: u32, end: u32, block: u32) -> Result<Items, AllocError> {
    let mut sums = Vec::new(alloc);
    for place in start..end {
        sums.push(u64::from(block.wrapping_add(place.wrapping_sub(start))))?;
    }
    let key = Key::Extent {
        store: 1,
        id: 1,
        start,
        end,
    };
    let sums = List::new(sums);
    let value = if block == 0 {
        Value::Gone
    } else {
        Value::Extent { block, sums }
    };
    let mut items = Vec::new(alloc);
    items.push(Item { key, value })?;
    Ok(Items::new(items))
}

/// The block that stands at a place: 0 where a tombstone does, 1 where nothing is said, 2 where the sum
/// is another one.
fn block_at(levels: &[Items], place: u32) -> u64 {
    let spot = Spot::FileBlock {
        store: 1,
        id: 1,
        place,
    };
    match said_at(levels, spot) {
        None => 1,
        Some(None) => 0,
        Some(Some(Told::Block { block, sum })) if block == sum => block,
        Some(Some(_)) => 2,
    }
}

/// The blocks at the first eleven places.
fn blocks(alloc: Global, levels: &[Items]) -> Result<Vec<u64>, AllocError> {
    let mut blocks = Vec::new(alloc);
    for place in 0..11 {
        blocks.push(block_at(levels, place))?;
    }
    Ok(blocks)
}

/// Ten blocks, in them three others, and in these one.
fn nested(alloc: Global) -> Result<Vec<Items>, AllocError> {
    let mut levels = Vec::new(alloc);
    levels.push(level(alloc, 3, 4, 300)?)?;
    levels.push(level(alloc, 2, 5, 200)?)?;
    levels.push(level(alloc, 0, 10, 100)?)?;
    Ok(levels)
}

#[test]
fn the_newest_stands_at_each_place(rt: HostRuntime) -> Result<(), AllocError> {
    let levels = nested(rt.alloc())?;
    let found = blocks(rt.alloc(), &levels)?;
    let wanted = [100, 101, 200, 300, 202, 105, 106, 107, 108, 109, 1];
    assert_eq!(rt; found.as_slice(), wanted.as_slice());
    Ok(())
}

#[test]
fn a_tombstone_hides_what_is_older(rt: HostRuntime) -> Result<(), AllocError> {
    let mut levels = Vec::new(rt.alloc());
    levels.push(level(rt.alloc(), 8, 11, 0)?)?;
    for older in nested(rt.alloc())? {
        levels.push(older)?;
    }
    let found = blocks(rt.alloc(), &levels)?;
    let wanted = [100, 101, 200, 300, 202, 105, 106, 107, 0, 0, 0];
    assert_eq!(rt; found.as_slice(), wanted.as_slice());
    Ok(())
}
