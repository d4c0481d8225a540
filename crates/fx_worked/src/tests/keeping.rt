//! Blocks that are lost, and the number up to which transactions are kept.
use crate::kept_from_top;
use fx_base::List;
use fx_item::{Item, Items, Key, Value};
use fx_verify::kept;
use std::alloc::{AllocError, Global};

/// A transaction that frees the block `freed` and writes the block `block`, where they are not 0. The
/// sum of a block is its number.
fn txn(alloc: Global, number: u64, freed: u32, block: u32) -> Result<(u64, Items), AllocError> {
    let mut items = Vec::new(alloc);
    if freed != 0 {
        items.push(range(freed, Value::Gone))?;
    }
    if block != 0 {
        items.push(extent(alloc, block)?)?;
        items.push(range(block, Value::Taken))?;
    }
    Ok((number, Items::new(items)))
}

fn extent(alloc: Global, block: u32) -> Result<Item, AllocError> {
    let mut sums = Vec::new(alloc);
    sums.push(u64::from(block))?;
    let key = Key::Extent {
        store: 1,
        id: 7,
        start: 0,
        end: 1,
    };
    let sums = List::new(sums);
    Ok(Item {
        key,
        value: Value::Extent { block, sums },
    })
}

fn range(block: u32, value: Value) -> Item {
    let key = Key::Allocation {
        start: block,
        end: block.saturating_add(1),
    };
    Item { key, value }
}

/// What both ways answer, if they answer the same.
fn both(alloc: Global, txns: &[(u64, Items)], blocks: &[u32]) -> Result<Option<u64>, AllocError> {
    let mut found = Vec::new(alloc);
    for block in blocks {
        found.push((*block, u64::from(*block)))?;
    }
    if txns.len() > 100 {
        return Ok(None);
    }
    let number = kept_from_top(alloc, 0, txns, &found)?;
    if kept(alloc, 0, txns, &found)? != number {
        return Ok(None);
    }
    Ok(Some(number))
}

/// A directory, a file in it, and a text in block 300; then two more texts over it, in `second` and in
/// `third`, each of which frees the block before.
fn three_texts(alloc: Global, second: u32, third: u32) -> Result<Vec<(u64, Items)>, AllocError> {
    let mut txns = Vec::new(alloc);
    txns.push(txn(alloc, 1, 0, 0)?)?;
    txns.push(txn(alloc, 2, 0, 0)?)?;
    txns.push(txn(alloc, 3, 0, 300)?)?;
    txns.push(txn(alloc, 4, 300, second)?)?;
    txns.push(txn(alloc, 5, second, third)?)?;
    Ok(txns)
}

#[test]
fn what_was_flushed_is_kept_with_each_later_block_torn(rt: HostRuntime) -> Result<(), AllocError> {
    let txns = three_texts(rt.alloc(), 301, 302)?;
    assert_eq!(rt; both(rt.alloc(), &txns, &[300])?, Some(3));
    assert_eq!(rt; both(rt.alloc(), &txns, &[300, 301])?, Some(4));
    // The second text is torn, and the third one frees its block.
    assert_eq!(rt; both(rt.alloc(), &txns, &[300, 302])?, Some(5));
    assert_eq!(rt; both(rt.alloc(), &txns, &[300, 301, 302])?, Some(5));
    Ok(())
}

#[test]
fn a_flushed_block_that_is_drawn_again_loses_what_was_flushed(
    rt: HostRuntime,
) -> Result<(), AllocError> {
    // The third text was to go where the first one stood, and is torn.
    let mut txns = three_texts(rt.alloc(), 301, 300)?;
    assert_eq!(rt; both(rt.alloc(), &txns, &[])?, Some(2));
    txns.truncate(3);
    assert_eq!(rt; both(rt.alloc(), &txns, &[301])?, Some(2));
    Ok(())
}

#[test]
fn a_block_of_zeros_where_a_text_was_written(rt: HostRuntime) -> Result<(), AllocError> {
    let mut txns = three_texts(rt.alloc(), 301, 302)?;
    txns.truncate(3);
    assert_eq!(rt; both(rt.alloc(), &txns, &[])?, Some(2));
    assert_eq!(rt; both(rt.alloc(), &txns, &[300])?, Some(3));
    Ok(())
}

#[test]
fn a_lost_block_of_a_file_that_upkeep_freed(rt: HostRuntime) -> Result<(), AllocError> {
    let mut txns = three_texts(rt.alloc(), 301, 302)?;
    txns.truncate(3);
    // The file is removed: its block is not freed yet.
    txns.push(txn(rt.alloc(), 4, 0, 0)?)?;
    assert_eq!(rt; both(rt.alloc(), &txns, &[])?, Some(2));
    txns.push(txn(rt.alloc(), 5, 300, 0)?)?;
    assert_eq!(rt; both(rt.alloc(), &txns, &[])?, Some(5));
    Ok(())
}
