//! The first id and the first store that no item of an image uses.
ghost use Rattle.std.specs.Prelude.{◌≡◌, ◌∷◌, []};
ghost use Rattle.fx_item.specs.Item.{item_of, items_of, key_of, value_of};
ghost use Rattle.fx_item.specs.Look.{key_id, key_store, value_id, value_store};
ghost use Rattle.fx_record.specs.Txns.{txns_of};
ghost use Rattle.fx_found.specs.Image.{lists_of_layers, lists_of_txns};
ghost use Rattle.fx_found.specs.Reading.{MovesOver};

use fx_item::{Item, Items, Key, Value};
use fx_layfile::Layer;

/// The next id and the next store. They stand still at their types' ends.
#[derive(Clone, Copy)]
pub(crate) struct NextNumbers {
    pub(crate) id: u64,
    pub(crate) store: u32,
}

/// The numbers above those that the items of layers use.
pub(crate) fn past_layers(next: NextNumbers, layers: &[Layer]) -> NextNumbers
    ensures { MovesOver next result (lists_of_layers layers.now) }
{
    let mut next = next;
    for layer in layers {
        next = past_items(next, layer.items());
    }
    next
}

/// The numbers above those that the items of transactions use.
pub(crate) fn past_txns(next: NextNumbers, txns: &[(u64, Items)]) -> NextNumbers
    ensures { MovesOver next result (lists_of_txns (txns_of txns.now)) }
{
    let mut next = next;
    for (_, items) in txns {
        next = past_items(next, items.as_slice());
    }
    next
}

/// The numbers above those that these items use.
fn past_items(next: NextNumbers, items: &[Item]) -> NextNumbers
    ensures { MovesOver next result (items_of items.now ∷ []) }
{
    let mut next = next;
    for item in items {
        next = past_item(next, item);
    }
    next
}

/// The numbers above those that an item uses.
fn past_item(next: NextNumbers, item: &Item) -> NextNumbers
    ensures { MovesOver next result ((item_of item.now ∷ []) ∷ []) }
{
    let (key_store, key_id) = key_node(&item.key);
    let (store, id) = value_node(&item.value);
    NextNumbers {
        id: next.id.max(key_id.max(id).saturating_add(1)),
        store: next.store.max(key_store.max(store).saturating_add(1)),
    }
}

/// The store and the id of a key's node; zeros for a range of the device.
fn key_node(key: &Key) -> (u32, u64)
    ensures store { result.0 ≡ key_store (key_of key.now) }
    ensures id { result.1 ≡ key_id (key_of key.now) }
{
    match key {
        Key::Object { store, id } => (*store, *id),
        Key::Attribute { store, id, .. } => (*store, *id),
        Key::Extent { store, id, .. } => (*store, *id),
        Key::Child { store, id, .. } => (*store, *id),
        Key::Grave { store, id } => (*store, *id),
        Key::Allocation { .. } => (0, 0),
    }
}

/// The store and the id of the node that a value leads to; zeros for all but a child.
fn value_node(value: &Value) -> (u32, u64)
    ensures store { result.0 ≡ value_store (value_of value.now) }
    ensures id { result.1 ≡ value_id (value_of value.now) }
{
    match value {
        Value::Child { store, id } => (*store, *id),
        _ => (0, 0),
    }
}
