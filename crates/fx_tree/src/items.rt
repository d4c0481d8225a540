//! The items of steps.
ghost use Rattle.std.specs.Prelude.{◌≡◌, ◌≢◌, ◌∷◌, [], true, All, IfOk, IsTrue};
ghost use Rattle.fx_item.specs.Item.{AttributeKey, ChildKey, GraveKey, IsItem, ObjectKey, WaitingValue, item_of, items_of, key_of, value_of};
ghost use Rattle.fx_item.specs.Look.{is_point_key};
ghost use Rattle.fx_item.specs.Overlay.{says};
ghost use Rattle.fx_namespace.specs.Commits.{new_value};
ghost use Rattle.fx_tree.specs.Planned.{AreInKeyOrder, next_node};

use fx_dir::ROOT;
use fx_item::{Item, Items, Key, LockKey, Name, Value};
use fx_plain::Kind;
use std::alloc::{AllocError, Global};

/// Two items in order, whose keys are of single points, and differ.
pub(crate) fn two_items(alloc: Global, one: Item, other: Item) -> Result<Items, AllocError>
    requires one { IsItem (item_of one) }
    requires other { IsItem (item_of other) }
    requires points { (is_point_key (key_of one.key) ≡ true)
        × (is_point_key (key_of other.key) ≡ true) }
    requires apart { key_of one.key ≢ key_of other.key }
    ensures said { IfOk result
        (λ items. says (items_of items) ≡ says (item_of one ∷ item_of other ∷ [])) }
    ensures ordered { IfOk result (λ items. AreInKeyOrder (items_of items)) }
{
    if one.key.may_precede(&other.key) {
        return list_of(alloc, one, other);
    }
    list_of(alloc, other, one)
}

/// Two items, one after the other.
fn list_of(alloc: Global, one: Item, other: Item) -> Result<Items, AllocError>
    ensures { IfOk result (λ items. items_of items ≡ item_of one ∷ item_of other ∷ []) }
{
    let mut items = Vec::with_capacity(alloc, 2)?;
    items.push(one)?;
    items.push(other)?;
    Ok(Items::new(items))
}

/// One item.
pub(crate) fn one_item(alloc: Global, item: Item) -> Result<Items, AllocError>
    ensures { IfOk result (λ items. items_of items ≡ item_of item ∷ []) }
{
    let mut items = Vec::with_capacity(alloc, 1)?;
    items.push(item)?;
    Ok(Items::new(items))
}

/// The entry of a name in a directory.
pub(crate) fn entry(at: LockKey, name: &Name, value: Value) -> Result<Item, AllocError>
    ensures { IfOk result (λ item. item_of item
        ≡ record { key = ChildKey at.store at.id name.now; value = value_of value }) }
{
    let key = Key::Child {
        store: at.store,
        id: at.id,
        name: name.clone()?,
    };
    Ok(Item { key, value })
}

/// The Object of a new node.
pub(crate) fn new_object(at: LockKey, kind: Kind) -> Item
    ensures { item_of result
        ≡ record { key = ObjectKey at.store at.id; value = new_value kind } }
{
    let value = match kind {
        Kind::Dir => Value::Dir,
        Kind::File => Value::File { length: 0 },
    };
    Item {
        key: Key::Object {
            store: at.store,
            id: at.id,
        },
        value,
    }
}

/// The node that comes next in a directory: in the root a volume.
pub(crate) fn node_below(parent: LockKey, id: u64, store: u32) -> LockKey
    ensures { result ≡ next_node parent id store }
{
    if parent == ROOT {
        return LockKey { store, id: 0 };
    }
    LockKey {
        store: parent.store,
        id,
    }
}

/// The item of an attribute.
pub(crate) fn attribute(at: LockKey, name: &Name, value: Value) -> Result<Item, AllocError>
    ensures { IfOk result (λ item. item_of item
        ≡ record { key = AttributeKey at.store at.id name.now; value = value_of value }) }
{
    let key = Key::Attribute {
        store: at.store,
        id: at.id,
        name: name.clone()?,
    };
    Ok(Item { key, value })
}

/// The Grave of a node that waits in the graveyard.
pub(crate) fn grave(at: LockKey) -> Item
    ensures { item_of result ≡ record { key = GraveKey at.store at.id; value = WaitingValue } }
{
    Item {
        key: Key::Grave {
            store: at.store,
            id: at.id,
        },
        value: Value::Waiting,
    }
}
