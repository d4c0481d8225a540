//! Looking blocks of files up.
ghost use Rattle.std.specs.Prelude.{◌≡◌, false, IfOk, IfErr, option_map};
ghost use Rattle.fx_item.specs.Item.{IsItem, item_of};
ghost use Rattle.fx_item.specs.Look.{MayFail, is_gone};
ghost use Rattle.fx_item.specs.Overlay.{AtFileBlock, live_in};
ghost use Rattle.fx_item.specs.Place.{Below, ends, file_place};
ghost use Rattle.fx_extent.specs.Blocks.{entry_by, ref_entry};

use fx_item::{BlockRef, Item, Key, LockKey, Look, LookFault, Value};
use std::alloc::Global;

/// The block of the device that holds block `index` of a file, and the sum of its bytes; a hole has none.
/// One look.
pub fn block_of<L: Look>(
    alloc: Global,
    look: &L,
    at: LockKey,
    index: u32,
) -> Result<Option<BlockRef>, LookFault>
    ensures found { IfOk result (λ found. option_map ref_entry found
        ≡ live_in (L.said look.now) (AtFileBlock at.store at.id index)) }
    ensures fault { IfErr result (MayFail (L.lacks look.now)) }
{
    let key = Key::Extent {
        store: at.store,
        id: at.id,
        start: index,
        end: index,
    };
    match look.next_from(alloc, &key) {
        Ok(Some(item)) => Ok(part_of(&item, at, index)),
        Ok(None) => Ok(None),
        Err(fault) => Err(fault),
    }
}

/// What an item that ends past a block of a file says of it.
fn part_of(item: &Item, at: LockKey, index: u32) -> Option<BlockRef>
    requires good { IsItem (item_of item.now) }
    requires alive { is_gone (item_of item.now).value ≡ false }
    requires reaches { Below (file_place at.store at.id index) (ends (item_of item.now).key) }
    ensures { option_map ref_entry result
        ≡ entry_by (item_of item.now) (AtFileBlock at.store at.id index) }
{
    let (
        Key::Extent {
            store,
            id,
            start,
            ..
        },
        Value::Extent { block, sums },
    ) = (&item.key, &item.value)
    else {
        return None;
    };
    if *store != at.store || *id != at.id || index < *start {
        return None;
    }
    let place = index - *start;
    let sum = sums.as_slice().get(place as usize)?;
    Some(BlockRef {
        block: *block + place,
        sum: *sum,
    })
}
