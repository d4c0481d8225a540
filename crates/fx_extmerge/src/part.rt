//! Parts of items.
ghost use Rattle.std.specs.Prelude.{◌≡◌, IfOk};
ghost use Rattle.fx_item.specs.Item.{item_of, key_of, value_of, IsItem};
ghost use Rattle.fx_item.specs.Meeting.{IsPart, cut_item, cut_value};
ghost use Rattle.fx_extmerge.specs.Part.{HasPart};

use fx_base::List;
use fx_item::{Item, Key, Value};
use std::alloc::{AllocError, Global};

/// What the value says of `count` numbers of its range, behind the first `skip` ones.
fn value_part(alloc: Global, value: &Value, skip: u32, count: u32) -> Result<Value, AllocError>
    requires { HasPart (value_of value.now) skip count }
    ensures { IfOk result (λ v. value_of v ≡ cut_value (value_of value.now) skip count) }
{
    match value {
        Value::Extent { block, sums } => {
            let (_, rest) = sums.as_slice().split_at(skip as usize);
            let (kept, _) = rest.split_at(count as usize);
            let sums = List::new(kept.to_vec(alloc)?);
            Ok(Value::Extent {
                block: *block + skip,
                sums,
            })
        }
        other => other.clone(),
    }
}

/// The part of an item from one number of its range to another: an extent's first block and sums move
/// with the cut. Costs the sums of the part.
pub fn cut(alloc: Global, item: &Item, start: u32, end: u32) -> Result<Item, AllocError>
    requires good { IsItem (item_of item.now) }
    requires part { IsPart (key_of item.now.key) start end }
    ensures { IfOk result (λ part. item_of part ≡ cut_item (item_of item.now) start end) }
{
    match &item.key {
        Key::Extent {
            store,
            id,
            start: first,
            end: _,
        } => {
            let value = value_part(alloc, &item.value, start - *first, end - start)?;
            let key = Key::Extent {
                store: *store,
                id: *id,
                start,
                end,
            };
            Ok(Item { key, value })
        }
        Key::Allocation { start: first, .. } => {
            let value = value_part(alloc, &item.value, start - *first, end - start)?;
            let key = Key::Allocation { start, end };
            Ok(Item { key, value })
        }
        _ => unreachable!(),
    }
}
