//! Batches of blocks of the device that are taken.
ghost use Rattle.std.specs.Prelude.{◌≡◌, All, IfOk};
ghost use Rattle.fx_item.specs.Item.{IsItem, item_of, items_of};

use super::*;
use fx_item::{Edge, Item, Items, Key, Level, decode};
use std::alloc::{AllocError, Global};
use std::test::Fail;

fn may_be_shared<T: Send + Sync>(_value: &T) {}

/// These blocks of the device, taken.
fn taken(alloc: Global, start: u8, end: u8) -> Result<Item, AllocError>
    ensures { IfOk result (λ item. IsItem (item_of item)) }
{
    match decode(alloc, &[6, start, 0, 0, 0, end, 0, 0, 0, 7]) {
        Ok((item, _)) => Ok(item),
        Err(_) => Err(AllocError),
    }
}

/// Three ranges of the device.
fn ranges(alloc: Global, ends: [(u8, u8); 3]) -> Result<Items, AllocError>
    ensures { IfOk result (λ items. All IsItem (items_of items)) }
{
    let [(a, b), (c, d), (e, f)] = ends;
    let first = taken(alloc, a, b)?;
    let second = taken(alloc, c, d)?;
    let third = taken(alloc, e, f)?;
    let mut items = Vec::with_capacity(alloc, 3)?;
    items.push_reserved(first);
    items.push_reserved(second);
    items.push_reserved(third);
    Ok(Items::new(items))
}

/// The batch of these ranges, or where they are out of order.
fn built(alloc: Global, ends: [(u8, u8); 3]) -> Result<Result<Batch, BuildFault>, AllocError> {
    let items = ranges(alloc, ends)?;
    if items.len() >= 1 << 32 {
        return Err(AllocError);
    }
    Ok(Batch::build(items))
}

/// The range that is found from a block on, or behind it.
fn found(alloc: Global, batch: &Batch, edge: Edge, block: u32) -> Result<(u32, u32), Fail> {
    let key = Key::Allocation {
        start: block,
        end: block.saturating_add(1),
    };
    let found = batch.next(alloc, edge, &key);
    let Ok(Some(item)) = found else {
        return Ok((0, 0));
    };
    match item.key {
        Key::Allocation { start, end } => Ok((start, end)),
        _ => Ok((1, 0)),
    }
}

#[test]
fn a_look(rt: HostRuntime) -> Result<(), Fail> {
    let built = built(rt.alloc(), [(2, 5), (5, 6), (8, 9)])?;
    let batch = built.ok().ok_or("out of order")?;
    may_be_shared(&batch);
    assert_eq!(rt; found(rt.alloc(), &batch, Edge::Begin, 4)?, (2, 5));
    assert_eq!(rt; found(rt.alloc(), &batch, Edge::End, 4)?, (5, 6));
    assert_eq!(rt; found(rt.alloc(), &batch, Edge::Begin, 6)?, (8, 9));
    assert_eq!(rt; found(rt.alloc(), &batch, Edge::Begin, 9)?, (0, 0));
    Ok(())
}

#[test]
fn items_out_of_order(rt: HostRuntime) -> Result<(), Fail> {
    let overlapping = built(rt.alloc(), [(2, 5), (4, 6), (3, 4)])?;
    assert!(rt; matches!(overlapping, Err(BuildFault::Order(1))));
    let none = Batch::build(Items::new(Vec::new(rt.alloc())));
    assert!(rt; none.is_ok());
    Ok(())
}
