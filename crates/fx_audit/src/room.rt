//! Whether an image has room.
ghost use Rattle.std.specs.Prelude.{◌≡◌, ◌↔◌, ◌+◌, ◌<◌, ◌≤◌, ◌^◌, ℕ, IfNone, IfSome, IsTrue, length};
ghost use Rattle.fx_item.specs.Item.{IsKey, items_of, key_of};
ghost use Rattle.fx_sound.specs.Faults.{IsCrampedBy};
ghost use Rattle.fx_sound.specs.Image.{AreStanding, attribute_total, block_total, blocks_under, free_blocks, is_attribute, is_object, layers_wanted, node_total};
ghost use Rattle.fx_sound.specs.Parts.{HasDropRoom, HasLayerRoom, HasNumbersLeft};
ghost use Rattle.fx_audit.specs.Audited.{plain_image};

use crate::image::Audited;
use fx_item::{Item, Key, layer_bound};
use fx_sound::ImageNumbers;

/// How many blocks are free where the image has too little room, or 0 where a number is too near to
/// its bound; nothing where it is not cramped.
pub(crate) fn cramped(image: &Audited) -> Option<u32>
    requires standing { AreStanding (items_of image.now.items.now) }
    requires items { length image.now.items.now < 2 ^ 32 }
    requires layers { length image.now.layers.now < 2 ^ 32 }
    ensures none { IfNone result ((n : ℕ) → IsCrampedBy (plain_image image.now) n → ⊥) }
    ensures told { IfSome result (IsCrampedBy (plain_image image.now)) }
{
    if !has_numbers_left(&image.numbers) {
        return Some(0);
    }
    let blocks = block_total(image.items);
    if has_layer_room(image, blocks) && has_drop_room(image) {
        return None;
    }
    Some(free_blocks(image, blocks))
}

/// Whether each number is far from its bound.
fn has_numbers_left(n: &ImageNumbers) -> bool
    ensures { IsTrue result ↔ HasNumbersLeft n.now }
{
    const COUNTS: u64 = 1 << 40;
    const IDS: u64 = 1 << 23;
    if n.generation > (1 << 63) - COUNTS {
        return false;
    }
    if n.sequence > (1 << 62) - COUNTS {
        return false;
    }
    if n.base > (1 << 62) - COUNTS {
        return false;
    }
    if n.kept > (1 << 62) - COUNTS {
        return false;
    }
    if n.next_id > (1 << 62) - IDS {
        return false;
    }
    u64::from(n.next_store) <= (1 << 31) - IDS
}

/// Whether the layers have place, and two whole new sets of them.
fn has_layer_room(image: &Audited, blocks: u64) -> bool
    requires items { length image.now.items.now < 2 ^ 32 }
    requires layers { length image.now.layers.now < 2 ^ 32 }
    requires blocks { blocks ≡ block_total (items_of image.now.items.now) }
    requires few { blocks < 2 ^ 48 }
    ensures { IsTrue result ↔ HasLayerRoom (plain_image image.now) }
{
    let nodes = node_total(image.items);
    let attributes = attribute_total(image.items);
    let wanted = layer_bound(nodes, attributes, blocks);
    let system = u64::from(image.ring) + 2;
    if blocks + image.layers.len() as u64 + wanted + system > u64::from(image.disk) {
        return false;
    }
    blocks + 2 * wanted + system <= u64::from(image.disk)
}

/// Whether the ring has place for the block that drops transactions, where some are to be dropped.
fn has_drop_room(image: &Audited) -> bool
    ensures { IsTrue result ↔ HasDropRoom (plain_image image.now) }
{
    !image.drops || image.stream < image.ring
}

/// Blocks that are neither the system's, nor live, nor a layer's.
fn free_blocks(image: &Audited, blocks: u64) -> u32
    requires layers { length image.now.layers.now < 2 ^ 32 }
    requires blocks { blocks ≡ block_total (items_of image.now.items.now) }
    requires few { blocks < 2 ^ 48 }
    ensures { result ≡ free_blocks (plain_image image.now) }
{
    let used = u64::from(image.ring) + 2 + blocks + image.layers.len() as u64;
    u64::from(image.disk).saturating_sub(used) as u32
}

/// How many nodes have an Object.
fn node_total(items: &[Item]) -> u64
    requires { length items.now < 2 ^ 32 }
    ensures is { result ≡ node_total (items_of items.now) }
    ensures few { result < 2 ^ 32 }
{
    let mut count = 0;
    for item in items {
        count += u64::from(is_object(&item.key));
    }
    count
}

fn is_object(key: &Key) -> bool
    ensures { result ≡ is_object (key_of key.now) }
{
    matches!(key, Key::Object { .. })
}

/// How many attributes there are.
fn attribute_total(items: &[Item]) -> u64
    requires { length items.now < 2 ^ 32 }
    ensures is { result ≡ attribute_total (items_of items.now) }
    ensures few { result < 2 ^ 32 }
{
    let mut count = 0;
    for item in items {
        count += u64::from(is_attribute(&item.key));
    }
    count
}

fn is_attribute(key: &Key) -> bool
    ensures { result ≡ is_attribute (key_of key.now) }
{
    matches!(key, Key::Attribute { .. })
}

/// How many blocks files have.
fn block_total(items: &[Item]) -> u64
    requires standing { AreStanding (items_of items.now) }
    requires few { length items.now < 2 ^ 32 }
    ensures is { result ≡ block_total (items_of items.now) }
    ensures few { result < 2 ^ 48 }
{
    let mut sum = 0;
    for item in items {
        sum += blocks_under(&item.key);
    }
    sum
}

/// How many blocks of a file a key covers.
fn blocks_under(key: &Key) -> u64
    requires { IsKey (key_of key.now) }
    ensures is { result ≡ blocks_under (key_of key.now) }
    ensures few { result ≤ 4096 }
{
    match key {
        Key::Extent { start, end, .. } => u64::from(end.saturating_sub(*start)),
        _ => 0,
    }
}
