//! Items in memory.
ghost use Rattle.std.specs.Prelude.{◌≡◌, ◌∷◌, [], ℕ, All, IfOk, IsTrue, OnOk, option_copied, option_map};
ghost use Rattle.fx_item.specs.Item.{PlainKey, IsNameItem, item_of, items_of, key_of, value_of};
ghost use Rattle.fx_item.specs.Look.{after, key_id, key_store, next_id, next_store, value_id, value_in, value_store};
ghost use Rattle.fx_item.specs.Order.{is_ascending};
ghost use Rattle.fx_namespace.specs.Nodes.{object_kind, told_kind};
ghost use Rattle.fx_nodes.specs.Links.{link_at, link_of, links_in, links_of, objects_of};
ghost use Rattle.fx_nodes.specs.Table.{AreKept, MovesOn, items_in};

use crate::graph::Child;
use fx_item::{Item, Key, LockKey, Value};
use fx_plain::Kind;
use std::alloc::{AllocError, Global};
use std::collections::BTreeMap;
use std::marker::Model;

/// What stands after lists of items, in the order of the keys, and the first id and store that no
/// item has used. Tombstones are not kept.
#[derive(Debug, Drop)]
pub struct ItemTable {
    items: BTreeMap<Key, Value>,
    next_id: u64,
    next_store: u32,
}

impl Model for ItemTable {
    ghost use Rattle.fx_nodes.specs.Table.{PlainTable, AreKept, items_in};

    ghost Value = { PlainTable };

    ghost view = { λ t. record {
      items = items_in t.items.entries;
      next_id = t.next_id;
      next_store = t.next_store;
    } };

    ghost invariant = { λ t. AreKept (items_in t.items.entries) };
}

impl ItemTable {
    /// Nothing stands.
    pub fn new(alloc: Global, next_id: u64, next_store: u32) -> ItemTable
        ensures items { result.items ≡ [] }
        ensures next_id { result.next_id ≡ next_id }
        ensures next_store { result.next_store ≡ next_store }
    {
        ItemTable {
            items: BTreeMap::new(alloc),
            next_id,
            next_store,
        }
    }

    /// The first id that no item has used, or the greatest there is.
    pub fn next_id(&self) -> u64
        ensures next_id { result ≡ self.now.next_id }
        ensures kept { AreKept self.now.items }
    {
        self.next_id
    }

    /// The first store that no item has used, or the greatest there is.
    pub fn next_store(&self) -> u32
        ensures next_store { result ≡ self.now.next_store }
        ensures kept { AreKept self.now.items }
    {
        self.next_store
    }

    /// Adds a list of items: each stands in place of what stood under its key, and a tombstone
    /// takes that away. Both numbers rise above all that the items use, as far as their types go.
    /// Costs the logarithm of the number of items for each. On `Err` a front of the list may have
    /// been added.
    pub fn put(&mut self, items: &[Item]) -> Result<(), AllocError>
        requires each { All IsNameItem (items_of items.now) }
        requires ascending { IsTrue (is_ascending (items_of items.now)) }
        ensures items { OnOk result ((key : PlainKey)
            → value_in self.new.items key ≡ after (value_in self.old.items)
            (items_of items.now) key) }
        ensures next_id { OnOk result
            (MovesOn u64.MAX self.old.next_id self.new.next_id
            (λ n. next_id n (items_of items.now))) }
        ensures next_store { OnOk result
            (MovesOn u32.MAX self.old.next_store self.new.next_store
            (λ n. next_store n (items_of items.now))) }
    {
        for item in items {
            self.put_one(item)?;
        }
        Ok(())
    }

    fn put_one(&mut self, item: &Item) -> Result<(), AllocError>
        requires { IsNameItem (item_of item.now) }
        ensures items { OnOk result ((key : PlainKey)
            → value_in self.new.items key ≡ after (value_in self.old.items)
            (item_of item.now ∷ []) key) }
        ensures next_id { OnOk result
            (MovesOn u64.MAX self.old.next_id self.new.next_id
            (λ n. next_id n (item_of item.now ∷ []))) }
        ensures next_store { OnOk result
            (MovesOn u32.MAX self.old.next_store self.new.next_store
            (λ n. next_store n (item_of item.now ∷ []))) }
    {
        apply(&mut self.items, item)?;
        let (key_store, key_id) = node_of(&item.key);
        let (store, id) = led_to(&item.value);
        let id = key_id.max(id).saturating_add(1);
        let store = key_store.max(store).saturating_add(1);
        self.next_id = self.next_id.max(id);
        self.next_store = self.next_store.max(store);
        Ok(())
    }

    /// The kind that the Object of a node tells. Costs the logarithm of the number of items.
    pub(crate) fn kind(&self, node: LockKey) -> Option<Kind>
        ensures { result ≡ object_kind (value_in self.now.items) node }
    {
        let key = Key::Object {
            store: node.store,
            id: node.id,
        };
        told_kind(self.items.get(&key))
    }

    /// All children, in the order of their keys. One pass over the items.
    pub(crate) fn children(&self, alloc: Global) -> Result<Vec<Child<'_>>, AllocError>
        ensures children { IfOk result (λ children. links_in children.items
            ≡ links_of self.now.items) }
        ensures kept { AreKept self.now.items }
    {
        let mut children = Vec::new(alloc);
        for (key, value) in &self.items {
            if let Some(child) = child_at(key, value) {
                children.push(child)?;
            }
        }
        Ok(children)
    }

    /// The nodes that have an Object, in order. One pass over the items.
    pub(crate) fn objects(&self, alloc: Global) -> Result<Vec<LockKey>, AllocError>
        ensures { IfOk result (λ nodes. nodes.items ≡ objects_of self.now.items) }
    {
        let mut nodes = Vec::new(alloc);
        for (key, _) in &self.items {
            if let Key::Object { store, id } = key {
                nodes.push(LockKey {
                    store: *store,
                    id: *id,
                })?;
            }
        }
        Ok(nodes)
    }
}

/// Adds an item to those in memory.
fn apply(items: &mut BTreeMap<Key, Value>, item: &Item) -> Result<(), AllocError>
    requires kept { AreKept (items_in items.old.entries) }
    requires item { IsNameItem (item_of item.now) }
    ensures kept { AreKept (items_in items.new.entries) }
    ensures items { OnOk result ((key : PlainKey)
        → value_in (items_in items.new.entries) key
        ≡ after (value_in (items_in items.old.entries)) (item_of item.now ∷ []) key) }
{
    if let Value::Gone = item.value {
        items.remove(&item.key);
        return Ok(());
    }
    items.insert(item.key.clone()?, item.value.clone()?)?;
    Ok(())
}

/// The kind that an Object's value tells.
fn told_kind(value: Option<&Value>) -> Option<Kind>
    ensures { result ≡ told_kind (option_map value_of (option_copied value.entry)) }
{
    match value {
        Some(Value::Dir) => Some(Kind::Dir),
        Some(Value::File { .. }) => Some(Kind::File),
        _ => None,
    }
}

/// The child that an item tells, if it tells one.
fn child_at<'a>(key: &'a Key, value: &Value) -> Option<Child<'a>>
    ensures { option_map link_of result ≡ link_at (key_of key.now) (value_of value.now) }
{
    let Key::Child { store, id, name } = key else {
        return None;
    };
    let Value::Child {
        store: to_store,
        id: to_id,
    } = value
    else {
        return None;
    };
    Some(Child {
        parent: LockKey {
            store: *store,
            id: *id,
        },
        name,
        node: LockKey {
            store: *to_store,
            id: *to_id,
        },
    })
}

/// The store and the id of a key, or zeros.
fn node_of(key: &Key) -> (u32, u64)
    ensures store { result.0 ≡ key_store (key_of key.now) }
    ensures id { result.1 ≡ key_id (key_of key.now) }
{
    match key {
        Key::Object { store, id } => (*store, *id),
        Key::Attribute { store, id, .. } => (*store, *id),
        Key::Extent { store, id, .. } => (*store, *id),
        Key::Child { store, id, .. } => (*store, *id),
        Key::Grave { store, id } => (*store, *id),
        Key::Allocation { .. } => (0, 0),
    }
}

/// The store and the id that a value names, or zeros.
fn led_to(value: &Value) -> (u32, u64)
    ensures store { result.0 ≡ value_store (value_of value.now) }
    ensures id { result.1 ≡ value_id (value_of value.now) }
{
    match value {
        Value::Child { store, id } => (*store, *id),
        _ => (0, 0),
    }
}
