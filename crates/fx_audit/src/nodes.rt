//! The least node at which something is amiss.
ghost use Rattle.std.specs.Prelude.{◌≡◌, ◌++◌, ◌==◌, ◌&&◌, ◌<◌, ◌∷◌, [], not, is_none, IsTrue, Some, IfNone, IfOk, IfSome, OnOk, length, option_copied, option_map};
ghost use Rattle.std.specs.List.{flat_map, slice_get};
ghost use Rattle.fx_item.specs.Item.{GraveKey, ObjectKey, PlainItem, PlainKey, is_name_key, item_of, items_of, key_of, value_of};
ghost use Rattle.fx_item.specs.Look.{after, value_in};
ghost use Rattle.fx_nodes.specs.Faults.{IsLeastNode};
ghost use Rattle.fx_contents.specs.Amiss.{IsLeastAmiss};
ghost use Rattle.fx_contents.specs.Points.{value_under};
ghost use Rattle.fx_sound.specs.Faults.{HasNoBadNode};
ghost use Rattle.fx_sound.specs.Image.{AreStanding, points_in};
ghost use Rattle.fx_audit.specs.Audited.{plain_image};
ghost use Rattle.fx_audit.specs.Nodes.{AreSeen, LeadBadNodes, amiss_by, is_item_amiss, is_kind, is_off_disk, is_past_end, is_seen, node_under, one_or_none};

use crate::image::Audited;
use crate::search::value_at;
use fx_base::BLOCK_BYTES;
use fx_item::{Item, Key, LockKey, Value};
use fx_nodes::{ItemTable, check};
use std::alloc::{AllocError, Global};

/// The least node, by store and id, at which something is amiss; none where nothing is.
pub(crate) fn bad_node(alloc: Global, image: &Audited) -> Result<Option<LockKey>, AllocError>
    requires { AreStanding (items_of image.now.items.now) }
    ensures none { IfOk result (λ found. IfNone found (HasNoBadNode (plain_image image.now))) }
    ensures least { IfOk result (λ found. IfSome found (λ node.
        IsLeastAmiss image.now.ring image.now.disk
        (points_in (items_of image.now.items.now)) node)) }
{
    let bad = leading(alloc, image)?;
    Ok(least(&bad))
}

/// Bad nodes, the least of all among them.
fn leading(alloc: Global, image: &Audited) -> Result<Vec<LockKey>, AllocError>
    requires { AreStanding (items_of image.now.items.now) }
    ensures { IfOk result (λ bad. LeadBadNodes (plain_image image.now) bad.items) }
{
    let mut bad = items_amiss(alloc, image)?;
    let names = names_of(alloc, image.items)?;
    let wrong = check(alloc, &names)?;
    push_found(&mut bad, wrong)?;
    Ok(bad)
}

fn push_found(nodes: &mut Vec<LockKey>, found: Option<LockKey>) -> Result<(), AllocError>
    ensures { OnOk result (nodes.new.items ≡ nodes.old.items ++ one_or_none found) }
{
    if let Some(node) = found {
        nodes.push(node)?;
    }
    Ok(())
}

/// The least of some nodes, by store and id.
fn least(nodes: &[LockKey]) -> Option<LockKey>
    ensures { IsLeastNode nodes.now result }
{
    nodes.iter().copied().min()
}

/// The nodes at which something is amiss by one item: an attribute, a grave, or blocks.
fn items_amiss(alloc: Global, image: &Audited) -> Result<Vec<LockKey>, AllocError>
    requires { AreStanding (items_of image.now.items.now) }
    ensures { IfOk result (λ bad. bad.items ≡ flat_map
        (λ item. amiss_by image.now.ring image.now.disk
        (points_in (items_of image.now.items.now)) (item_of item)) image.now.items.now) }
{
    let mut bad = Vec::new(alloc);
    for item in image.items {
        push_amiss(image, item, &mut bad)?;
    }
    Ok(bad)
}

fn push_amiss(image: &Audited, item: &Item, bad: &mut Vec<LockKey>) -> Result<(), AllocError>
    requires { AreStanding (items_of image.now.items.now) }
    ensures { OnOk result (bad.new.items ≡ bad.old.items ++ amiss_by image.now.ring image.now.disk
        (points_in (items_of image.now.items.now)) (item_of item.now)) }
{
    if is_item_amiss(image, item) {
        bad.push(node_under(&item.key))?;
    }
    Ok(())
}

/// The node of a key; of a range of the device, the root.
fn node_under(key: &Key) -> LockKey
    ensures { result ≡ node_under (key_of key.now) }
{
    let (store, id) = match key {
        Key::Object { store, id } => (*store, *id),
        Key::Attribute { store, id, .. } => (*store, *id),
        Key::Extent { store, id, .. } => (*store, *id),
        Key::Child { store, id, .. } => (*store, *id),
        Key::Grave { store, id } => (*store, *id),
        Key::Allocation { .. } => (0, 0),
    };
    LockKey { store, id }
}

/// Whether something is amiss at the node of an item, by that item.
fn is_item_amiss(image: &Audited, item: &Item) -> bool
    requires { AreStanding (items_of image.now.items.now) }
    ensures { result ≡ is_item_amiss image.now.ring image.now.disk
        (points_in (items_of image.now.items.now)) (key_of item.now.key) (value_of item.now.value) }
{
    match (&item.key, &item.value) {
        (Key::Grave { store, id }, _) => is_root(*store, *id)
            || has_no_kind(image.items, *store, *id),
        (Key::Attribute { store, id, .. }, _) => has_no_kind(image.items, *store, *id),
        (
            Key::Extent {
                store,
                id,
                start,
                end,
            },
            Value::Extent { block, .. },
        ) => {
            is_past_end(object_of(image.items, *store, *id), end.saturating_sub(1))
                || is_off_disk(image, *block, end.saturating_sub(*start))
        }
        _ => false,
    }
}

fn is_root(store: u32, id: u64) -> bool
    ensures { result ≡ (store == 0 && id == 0) }
{
    store == 0 && id == 0
}

/// The value of a node's Object.
fn object_of(items: &[Item], store: u32, id: u64) -> Option<&Value>
    requires { AreStanding (items_of items.now) }
    ensures { option_map value_of (option_copied result)
        ≡ value_under (points_in (items_of items.now)) (ObjectKey store id) }
{
    value_at(items, &Key::Object { store, id })
}

/// Whether a node has no Object.
fn has_no_kind(items: &[Item], store: u32, id: u64) -> bool
    requires { AreStanding (items_of items.now) }
    ensures { result ≡ not
        (is_kind (value_under (points_in (items_of items.now)) (ObjectKey store id))) }
{
    !is_kind(object_of(items, store, id))
}

fn is_kind(value: Option<&Value>) -> bool
    ensures { result ≡ is_kind (option_map value_of (option_copied value.entry)) }
{
    match value {
        Some(Value::Dir) => true,
        Some(Value::File { .. }) => true,
        _ => false,
    }
}

/// Whether a block is past the end of the file with that Object, or it is no file.
fn is_past_end(value: Option<&Value>, place: u32) -> bool
    ensures { result ≡ is_past_end (option_map value_of (option_copied value.entry)) place }
{
    let Some(Value::File { length }) = value else {
        return true;
    };
    u64::from(*length) <= u64::from(place) * BLOCK_BYTES as u64
}

/// Whether so many blocks from one on do not all lie on the disk past the ring.
fn is_off_disk(image: &Audited, first: u32, count: u32) -> bool
    ensures { result ≡ is_off_disk image.now.ring image.now.disk first count }
{
    u64::from(first) < u64::from(image.ring) + 2
        || u64::from(image.disk) < u64::from(first) + u64::from(count)
}

/// The items that the names see: children, and Objects that do not wait in the graveyard.
fn names_of(alloc: Global, items: &[Item]) -> Result<ItemTable, AllocError>
    requires { AreStanding (items_of items.now) }
    ensures { IfOk result (λ table. AreSeen (points_in (items_of items.now)) (items_of items.now)
        (value_in table.items)) }
{
    let mut table = ItemTable::new(alloc, 0, 0);
    for at in 0..items.len() {
        if is_seen(items, &items[at].key) {
            put_at(&mut table, items, at)?;
        }
    }
    Ok(table)
}

/// Adds one of the items to a table.
fn put_at(table: &mut ItemTable, items: &[Item], at: usize) -> Result<(), AllocError>
    requires standing { AreStanding (items_of items.now) }
    requires within { at < length items.now }
    requires seen { (x : PlainItem) → slice_get (items_of items.now) at ≡ Some x
        → IsTrue (is_name_key x.key) }
    ensures { OnOk result ((x : PlainItem) → slice_get (items_of items.now) at ≡ Some x
        → (key : PlainKey) → value_in table.new.items key
        ≡ after (value_in table.old.items) (x ∷ []) key) }
{
    table.put(&items[at..at + 1])
}

/// Whether the names see an item of this key.
fn is_seen(items: &[Item], key: &Key) -> bool
    requires { AreStanding (items_of items.now) }
    ensures { result ≡ is_seen (points_in (items_of items.now)) (key_of key.now) }
{
    match key {
        Key::Object { store, id } => is_not_waiting(items, *store, *id),
        Key::Child { .. } => true,
        _ => false,
    }
}

fn is_not_waiting(items: &[Item], store: u32, id: u64) -> bool
    requires { AreStanding (items_of items.now) }
    ensures { result ≡ is_none (value_under (points_in (items_of items.now)) (GraveKey store id)) }
{
    value_at(items, &Key::Grave { store, id }).is_none()
}
