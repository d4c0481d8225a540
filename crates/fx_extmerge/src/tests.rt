//! How two ranges of blocks of the device meet, and a part of one.
ghost use Rattle.std.specs.Prelude.{◌≡◌, IfOk};
ghost use Rattle.fx_item.specs.Item.{AllocationKey, IsItem, item_of, key_of};

use super::*;
use fx_item::{Item, Key, Meet, Merger, decode};
use std::alloc::{AllocError, Global};
use std::test::Fail;

/// These blocks of the device, taken.
fn taken(alloc: Global, start: u8, end: u8) -> Result<Item, AllocError>
    ensures { IfOk result (λ item. IsItem (item_of item)) }
{
    match decode(alloc, &[6, start, 0, 0, 0, end, 0, 0, 0, 7]) {
        Ok((item, _)) => Ok(item),
        Err(_) => Err(AllocError),
    }
}

fn range(item: &Option<Item>) -> (u32, u32) {
    let Some(item) = item else {
        return (0, 0);
    };
    match item.key {
        Key::Allocation { start, end } => (start, end),
        _ => (1, 0),
    }
}

/// What is left of blocks 10 to 20 before and behind newer ones; 2 where they are apart.
fn left_of<M: Merger>(
    alloc: Global,
    start: u8,
    end: u8,
) -> Result<((u32, u32), (u32, u32)), AllocError> {
    let newer = taken(alloc, start, end)?;
    let older = taken(alloc, 10, 20)?;
    match M::meet(alloc, &newer, &older) {
        Err(fault) => Err(fault),
        Ok(Meet::Apart) => Ok(((2, 2), (2, 2))),
        Ok(Meet::Hidden) => Ok(((0, 0), (0, 0))),
        Ok(Meet::Cut { left, right }) => Ok((range(&left), range(&right))),
    }
}

#[test]
fn ranges_meet(rt: HostRuntime) -> Result<(), Fail> {
    let cut = left_of::<AllocMerger>(rt.alloc(), 12, 15)?;
    assert_eq!(rt; cut, ((10, 12), (15, 20)));
    let cut = left_of::<ExtentMerger>(rt.alloc(), 5, 11)?;
    assert_eq!(rt; cut, ((0, 0), (11, 20)));
    let cut = left_of::<ObjectMerger>(rt.alloc(), 19, 30)?;
    assert_eq!(rt; cut, ((10, 19), (0, 0)));
    assert_eq!(rt;
        left_of::<AllocMerger>(rt.alloc(), 10, 20)?,
        ((0, 0), (0, 0))
    );
    assert_eq!(rt;
        left_of::<AllocMerger>(rt.alloc(), 5, 10)?,
        ((2, 2), (2, 2))
    );
    assert_eq!(rt;
        left_of::<AllocMerger>(rt.alloc(), 20, 21)?,
        ((2, 2), (2, 2))
    );
    Ok(())
}
