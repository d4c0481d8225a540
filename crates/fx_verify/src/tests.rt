use super::*;
use fx_base::List;
use fx_item::{Item, Items, Key, Value};
use std::alloc::{AllocError, Global};

/// The sums of three blocks in a row.
const SUMS: [u64; 3] = [10, 11, 12];

/// A transaction that frees some blocks, and writes neighbouring ones with these sums.
fn txn(
    alloc: Global,
    number: u64,
    freed: (u32, u32),
    block: u32,
    sums: &[u64],
) -> Result<(u64, Items), AllocError> {
    let mut items = Vec::new(alloc);
    items.push(extent(alloc, block, sums)?)?;
    items.push(allocation(freed.0, freed.1, Value::Gone))?;
    items.push(allocation(block, block.saturating_add(3), Value::Taken))?;
    Ok((number, Items::new(items)))
}

fn extent(alloc: Global, block: u32, sums: &[u64]) -> Result<Item, AllocError> {
    let mut copied = Vec::new(alloc);
    copied.extend_from_slice(sums)?;
    let sums = List::new(copied);
    Ok(Item {
        key: Key::Extent {
            store: 1,
            id: 7,
            start: 0,
            end: 3,
        },
        value: Value::Extent { block, sums },
    })
}

fn allocation(start: u32, end: u32, value: Value) -> Item {
    Item {
        key: Key::Allocation { start, end },
        value,
    }
}

#[test]
fn a_number_that_fails_between_two_that_pass(rt: HostRuntime) -> Result<(), AllocError> {
    let mut txns = Vec::new(rt.alloc());
    txns.push(txn(rt.alloc(), 6, (0, 0), 300, &SUMS[..1])?)?;
    txns.push(txn(rt.alloc(), 7, (0, 0), 310, &SUMS[1..2])?)?;
    txns.push(txn(rt.alloc(), 8, (305, 311), 320, &SUMS[2..])?)?;
    // The second block is torn, and the third transaction frees it.
    let found = [(300, 10), (310, 99), (320, 12)];
    assert_eq!(rt; kept(rt.alloc(), 5, &txns, &found)?, 8);
    assert_eq!(rt; kept(rt.alloc(), 5, &txns[..2], &found)?, 6);
    // The last one is torn: two of three do not help.
    assert_eq!(rt; kept(rt.alloc(), 5, &txns, &[(300, 10), (310, 11)])?, 7);
    assert_eq!(rt; kept(rt.alloc(), 5, &txns, &[])?, 5);
    Ok(())
}

#[test]
fn a_block_that_is_written_twice(rt: HostRuntime) -> Result<(), AllocError> {
    let mut txns = Vec::new(rt.alloc());
    txns.push(txn(rt.alloc(), 1, (0, 0), 300, &[10])?)?;
    txns.push(txn(rt.alloc(), 2, (0, 0), 300, &[20])?)?;
    assert_eq!(rt; kept(rt.alloc(), 0, &txns, &[(300, 10)])?, 1);
    assert_eq!(rt; kept(rt.alloc(), 0, &txns, &[(300, 20)])?, 2);
    // Freed, and taken again by a later one.
    txns.push(txn(rt.alloc(), 3, (300, 301), 400, &[])?)?;
    txns.push(txn(rt.alloc(), 4, (0, 0), 300, &[30])?)?;
    assert_eq!(rt; kept(rt.alloc(), 0, &txns, &[(300, 10)])?, 3);
    assert_eq!(rt; kept(rt.alloc(), 0, &txns, &[(300, 30)])?, 4);
    Ok(())
}

#[test]
fn blocks_that_are_written(rt: HostRuntime) -> Result<(), AllocError> {
    let mut txns = Vec::new(rt.alloc());
    txns.push(txn(rt.alloc(), 1, (0, 0), 310, &SUMS)?)?;
    // Three of four sums lie in blocks that are taken, and three of these were written before.
    txns.push(txn(rt.alloc(), 2, (310, 311), 309, &[1, 2, 3, 4])?)?;
    // The last block that there is a number for, past any disk.
    txns.push(txn(rt.alloc(), 3, (0, 0), u32::MAX - 1, &SUMS)?)?;
    let blocks = blocks_of(rt.alloc(), &txns)?;
    assert_eq!(rt;
        blocks.as_slice(),
        [309, 310, 311, 312, u32::MAX - 1].as_slice()
    );
    let found = [(309, 1), (310, 2), (311, 3), (312, 12)];
    assert_eq!(rt; kept(rt.alloc(), 0, &txns, &found)?, 2);
    Ok(())
}

/// The sum of a block that begins with `x`, the rest of it zeros.
const X_SUM: u64 = 527_765_581_332_600;

/// A directory, a file in it, and the text `x` in block 300: the transactions 1 to 3.
fn three_lines(alloc: Global) -> Result<Vec<(u64, Items)>, AllocError> {
    let mut txns = Vec::new(alloc);
    txns.push((1, Items::new(Vec::new(alloc))))?;
    txns.push((2, Items::new(Vec::new(alloc))))?;
    txns.push(txn(alloc, 3, (0, 0), 300, &[X_SUM])?)?;
    Ok(txns)
}

#[test]
fn a_written_block_that_was_lost(rt: HostRuntime) -> Result<(), AllocError> {
    let txns = three_lines(rt.alloc())?;
    // The disk has zeros there.
    assert_eq!(rt; kept(rt.alloc(), 0, &txns, &[(300, 0)])?, 2);
    assert_eq!(rt; kept(rt.alloc(), 0, &txns, &[(300, X_SUM)])?, 3);
    Ok(())
}

#[test]
fn a_lost_block_of_a_file_that_is_gone(rt: HostRuntime) -> Result<(), AllocError> {
    let mut txns = three_lines(rt.alloc())?;
    // The file is removed, and then upkeep frees its block.
    txns.push((4, Items::new(Vec::new(rt.alloc()))))?;
    assert_eq!(rt; kept(rt.alloc(), 0, &txns, &[(300, 0)])?, 2);
    txns.push(txn(rt.alloc(), 5, (300, 301), 310, &[])?)?;
    assert_eq!(rt; kept(rt.alloc(), 0, &txns, &[(300, 0)])?, 5);
    Ok(())
}
