//! The items that stand in an image.
ghost use Rattle.std.specs.Prelude.{◌≡◌, ◌<◌, ◌^◌, ℕ, IfOk, filter, length, not};
ghost use Rattle.fx_item.specs.Item.{items_of};
ghost use Rattle.fx_item.specs.Look.{is_gone};
ghost use Rattle.fx_found.specs.Image.{StandInLevels};

use fx_item::{Item, Items, Key};
use fx_layerset::LayerSet;
use fx_layfile::Layer;
use fx_merge::drain;
use std::alloc::{AllocError, Global};

/// What the levels say together, in order and without tombstones. Costs the items, and for each the
/// logarithm of the levels. 2^32 or more of them are told as want of memory.
pub(crate) fn standing(alloc: Global, set: &LayerSet<Layer>) -> Result<Items, AllocError>
    ensures items { IfOk result (λ items. StandInLevels set.now.levels (items_of items)) }
    ensures few { IfOk result (λ items. length items < 2 ^ 32) }
{
    let newest = set.object_count().max(set.alloc_count());
    let mut merge = set.upper(alloc, newest, Key::Object { store: 0, id: 0 })?;
    let Ok(items) = drain(alloc, &mut merge) else {
        return Err(AllocError);
    };
    let items = without_tombstones(items);
    if items.len() > u32::MAX as usize {
        return Err(AllocError);
    }
    Ok(items)
}

/// The items that are no tombstones.
fn without_tombstones(items: Items) -> Items
    ensures { items_of result ≡ filter (λ x. not (is_gone x.value)) (items_of items) }
{
    let mut items = items.into_vec();
    items.retain(|item| !item.value.is_gone());
    Items::new(items)
}
