//! Items from bytes.
ghost use Rattle.std.specs.Prelude.{◌≡◌, ◌≤◌, ◌*◌, ◌++◌, ℕ, List, length, take, drop, IfOk};
ghost use Rattle.fx_item.specs.Item.{key_of, value_of, item_of, PlainItem, IsItem, IsNameItem, item_bytes};
ghost use Rattle.fx_item.specs.Item.{WaitingValue, TakenValue};
ghost use Rattle.fx_item.specs.Reading.{Finds, IsReadAs, number_at, pair_at, name_at, range_at, text_at, sums_at, numbers_in, extent_at, key_at};
ghost use Rattle.fx_item.specs.Reading.{object_value_at, attribute_value_at, extent_value_at, child_value_at, plain_value_at, value_at, item_at, name_item_at};

use crate::bytes::Bytes;
use crate::item::{
    Checksums, Item, ItemFault, Key, MAX_DEVICE_BLOCKS, MAX_EXTENT_BLOCKS, MAX_FILE_BLOCKS,
    MAX_TEXT, Value,
};
use crate::name::{Name, is_name};
use crate::writing::{
    ALLOCATION, ATTRIBUTE, BLOCKS, CHILD, DIRECTORY, EXTENT, FILE, GONE, GRAVE, NODE, OBJECT,
    TAKEN, TEXT, WAITING,
};
use byteorder::{ByteOrder, LittleEndian};
use std::alloc::Global;

/// The item at the front of the bytes, and how many bytes it takes. Each item has one spelling, so
/// there is at most one. Takes no memory beyond the item's name, text or sums.
pub fn decode(alloc: Global, bytes: &[u8]) -> Result<(Item, usize), ItemFault>
    // What is read is an item, and these bytes are its bytes.
    ensures found { IfOk result (λ r. IsItem (item_of r.0) × (r.1 ≤ length bytes.now)
        × (take r.1 bytes.now ≡ item_bytes (item_of r.0))) }
    // What begins with an item's bytes is read as that item, unless memory runs out.
    ensures only { (x : PlainItem) (rest : List ℕ) → IsItem x
        → bytes.now ≡ item_bytes x ++ rest → IsReadAs result x }
    ensures exact { Finds (λ r. (item_of r.0, drop r.1 bytes.now)) result (item_at bytes.now) }
{
    let (item, rest) = item_of_front(alloc, bytes)?;
    Ok((item, bytes.len() - rest.len()))
}

/// As `decode`, for items of the kinds Object and Child alone: one of any other kind is `Bad`.
#[tactic(auto, unfolding(crate::specs::Reading::name_item_at))]
pub fn decode_name(alloc: Global, bytes: &[u8]) -> Result<(Item, usize), ItemFault>
    ensures found { IfOk result (λ r. IsNameItem (item_of r.0) × (r.1 ≤ length bytes.now)
        × (take r.1 bytes.now ≡ item_bytes (item_of r.0))) }
    ensures only { (x : PlainItem) (rest : List ℕ) → IsNameItem x
        → bytes.now ≡ item_bytes x ++ rest → IsReadAs result x }
    ensures exact { Finds (λ r. (item_of r.0, drop r.1 bytes.now)) result
        (name_item_at bytes.now) }
{
    let (item, len) = match decode(alloc, bytes) {
        Ok(found) => found,
        Err(fault) => return Err(fault),
    };
    if !item.key.is_name() {
        return Err(ItemFault::Bad);
    }
    Ok((item, len))
}

#[tactic(auto, unfolding(crate::specs::Reading::item_at))]
fn item_of_front(alloc: Global, bytes: &[u8]) -> Result<(Item, &[u8]), ItemFault>
    ensures { Finds (λ r. (item_of r.0, r.1.now)) result (item_at bytes.now) }
{
    let (key, rest) = read_key(alloc, bytes)?;
    let (value, rest) = read_value(alloc, &key, rest)?;
    Ok((Item { key, value }, rest))
}

#[tactic(auto, unfolding(crate::specs::Reading::key_at))]
fn read_key(alloc: Global, bytes: &[u8]) -> Result<(Key, &[u8]), ItemFault>
    ensures { Finds (λ r. (key_of r.0, r.1.now)) result (key_at bytes.now) }
{
    let Some((kind, rest)) = bytes.split_first() else {
        return Err(ItemFault::Bad);
    };
    match *kind {
        OBJECT => {
            let ((store, id), rest) = read_node(rest)?;
            Ok((Key::Object { store, id }, rest))
        }
        ATTRIBUTE => {
            let ((store, id), rest) = read_node(rest)?;
            let (name, rest) = read_name(alloc, rest)?;
            Ok((Key::Attribute { store, id, name }, rest))
        }
        EXTENT => {
            let ((store, id), rest) = read_node(rest)?;
            let ((start, end), rest) = read_range(MAX_FILE_BLOCKS, rest)?;
            let key = Key::Extent {
                store,
                id,
                start,
                end,
            };
            Ok((key, rest))
        }
        CHILD => {
            let ((store, id), rest) = read_node(rest)?;
            let (name, rest) = read_name(alloc, rest)?;
            Ok((Key::Child { store, id, name }, rest))
        }
        GRAVE => {
            let ((store, id), rest) = read_node(rest)?;
            Ok((Key::Grave { store, id }, rest))
        }
        ALLOCATION => {
            let ((start, end), rest) = read_range(MAX_DEVICE_BLOCKS, rest)?;
            Ok((Key::Allocation { start, end }, rest))
        }
        _ => Err(ItemFault::Bad),
    }
}

fn read_value<'a>(alloc: Global, key: &Key, bytes: &'a [u8]) -> Result<(Value, &'a [u8]), ItemFault>
    ensures { Finds (λ r. (value_of r.0, r.1.now)) result (value_at (key_of key.now) bytes.now) }
{
    match key {
        Key::Object { .. } => read_object_value(bytes),
        Key::Attribute { .. } => read_attribute_value(alloc, bytes),
        Key::Extent { start, end, .. } => {
            let count = end.saturating_sub(*start);
            read_extent_value(alloc, count as usize, bytes)
        }
        Key::Child { .. } => read_child_value(bytes),
        Key::Grave { .. } => read_grave_value(bytes),
        Key::Allocation { .. } => read_allocation_value(bytes),
    }
}

#[tactic(auto, unfolding(crate::specs::Reading::object_value_at))]
fn read_object_value(bytes: &[u8]) -> Result<(Value, &[u8]), ItemFault>
    ensures { Finds (λ r. (value_of r.0, r.1.now)) result (object_value_at bytes.now) }
{
    let Some((tag, rest)) = bytes.split_first() else {
        return Err(ItemFault::Bad);
    };
    match *tag {
        GONE => Ok((Value::Gone, rest)),
        DIRECTORY => Ok((Value::Dir, rest)),
        FILE => {
            let (length, rest) = read_u32(rest)?;
            Ok((Value::File { length }, rest))
        }
        _ => Err(ItemFault::Bad),
    }
}

#[tactic(auto, unfolding(crate::specs::Reading::attribute_value_at))]
fn read_attribute_value(alloc: Global, bytes: &[u8]) -> Result<(Value, &[u8]), ItemFault>
    ensures { Finds (λ r. (value_of r.0, r.1.now)) result (attribute_value_at bytes.now) }
{
    let Some((tag, rest)) = bytes.split_first() else {
        return Err(ItemFault::Bad);
    };
    match *tag {
        GONE => Ok((Value::Gone, rest)),
        TEXT => {
            let (text, rest) = read_text(alloc, rest)?;
            Ok((Value::Attribute { text }, rest))
        }
        _ => Err(ItemFault::Bad),
    }
}

/// The value of an extent of `count` blocks.
#[tactic(auto, unfolding(crate::specs::Reading::extent_value_at))]
fn read_extent_value(alloc: Global, count: usize, bytes: &[u8]) -> Result<(Value, &[u8]), ItemFault>
    ensures { Finds (λ r. (value_of r.0, r.1.now)) result (extent_value_at count bytes.now) }
{
    let Some((tag, rest)) = bytes.split_first() else {
        return Err(ItemFault::Bad);
    };
    match *tag {
        GONE => Ok((Value::Gone, rest)),
        BLOCKS => {
            let ((block, sums), rest) = read_extent(alloc, count, rest)?;
            Ok((Value::Extent { block, sums }, rest))
        }
        _ => Err(ItemFault::Bad),
    }
}

#[tactic(auto, unfolding(crate::specs::Reading::child_value_at))]
fn read_child_value(bytes: &[u8]) -> Result<(Value, &[u8]), ItemFault>
    ensures { Finds (λ r. (value_of r.0, r.1.now)) result (child_value_at bytes.now) }
{
    let Some((tag, rest)) = bytes.split_first() else {
        return Err(ItemFault::Bad);
    };
    match *tag {
        GONE => Ok((Value::Gone, rest)),
        NODE => {
            let ((store, id), rest) = read_node(rest)?;
            Ok((Value::Child { store, id }, rest))
        }
        _ => Err(ItemFault::Bad),
    }
}

#[tactic(auto, unfolding(crate::specs::Reading::plain_value_at))]
fn read_grave_value(bytes: &[u8]) -> Result<(Value, &[u8]), ItemFault>
    ensures { Finds (λ r. (value_of r.0, r.1.now)) result
        (plain_value_at WAITING WaitingValue bytes.now) }
{
    let Some((tag, rest)) = bytes.split_first() else {
        return Err(ItemFault::Bad);
    };
    match *tag {
        GONE => Ok((Value::Gone, rest)),
        WAITING => Ok((Value::Waiting, rest)),
        _ => Err(ItemFault::Bad),
    }
}

#[tactic(auto, unfolding(crate::specs::Reading::plain_value_at))]
fn read_allocation_value(bytes: &[u8]) -> Result<(Value, &[u8]), ItemFault>
    ensures { Finds (λ r. (value_of r.0, r.1.now)) result
        (plain_value_at TAKEN TakenValue bytes.now) }
{
    let Some((tag, rest)) = bytes.split_first() else {
        return Err(ItemFault::Bad);
    };
    match *tag {
        GONE => Ok((Value::Gone, rest)),
        TAKEN => Ok((Value::Taken, rest)),
        _ => Err(ItemFault::Bad),
    }
}

#[tactic(auto, unfolding(crate::specs::Reading::name_at))]
fn read_name(alloc: Global, bytes: &[u8]) -> Result<(Name, &[u8]), ItemFault>
    ensures { Finds (λ r. (r.0, r.1.now)) result (name_at bytes.now) }
{
    let Some((len, rest)) = bytes.split_first() else {
        return Err(ItemFault::Bad);
    };
    let len = *len as usize;
    if rest.len() < len {
        return Err(ItemFault::Bad);
    }
    let (letters, rest) = rest.split_at(len);
    if !is_name(letters) {
        return Err(ItemFault::Bad);
    }
    let letters = Vec::from_slice(alloc, letters)?;
    Ok((Name::new(letters), rest))
}

#[tactic(auto, unfolding(crate::specs::Reading::text_at))]
fn read_text(alloc: Global, bytes: &[u8]) -> Result<(Bytes, &[u8]), ItemFault>
    ensures { Finds (λ r. (r.0, r.1.now)) result (text_at bytes.now) }
{
    let (len, rest) = read_u16(bytes)?;
    let len = len as usize;
    if len == 0 || len > MAX_TEXT || len > rest.len() {
        return Err(ItemFault::Bad);
    }
    let (text, rest) = rest.split_at(len);
    let text = Vec::from_slice(alloc, text)?;
    Ok((Bytes::new(text), rest))
}

/// A range that is not empty and ends at `most` or before it.
#[tactic(auto, unfolding(crate::specs::Reading::range_at))]
fn read_range(most: u32, bytes: &[u8]) -> Result<((u32, u32), &[u8]), ItemFault>
    ensures { Finds (λ r. (r.0, r.1.now)) result (range_at most bytes.now) }
{
    let (start, rest) = read_u32(bytes)?;
    let (end, rest) = read_u32(rest)?;
    if start >= end || end > most {
        return Err(ItemFault::Bad);
    }
    Ok(((start, end), rest))
}

/// The first block of an extent of `count` blocks, and their sums.
#[tactic(auto, unfolding(crate::specs::Reading::extent_at))]
fn read_extent(
    alloc: Global,
    count: usize,
    bytes: &[u8],
) -> Result<((u32, Checksums), &[u8]), ItemFault>
    ensures { Finds (λ r. ((r.0.0, r.0.1), r.1.now)) result (extent_at count bytes.now) }
{
    let (block, rest) = read_u32(bytes)?;
    if count > MAX_EXTENT_BLOCKS || block as usize + count > MAX_DEVICE_BLOCKS as usize {
        return Err(ItemFault::Bad);
    }
    let (sums, rest) = read_sums(alloc, count, rest)?;
    Ok(((block, sums), rest))
}

/// So many sums, one after another.
#[tactic(auto, unfolding(crate::specs::Reading::sums_at))]
fn read_sums(alloc: Global, count: usize, bytes: &[u8]) -> Result<(Checksums, &[u8]), ItemFault>
    requires { count ≤ MAX_EXTENT_BLOCKS }
    ensures { Finds (λ r. (r.0, r.1.now)) result (sums_at count bytes.now) }
{
    let len = 8 * count;
    if bytes.len() < len {
        return Err(ItemFault::Bad);
    }
    let (front, rest) = bytes.split_at(len);
    let mut sums = vec![in alloc; 0; count]?;
    fill_sums(front, &mut sums);
    Ok((Checksums::new(sums), rest))
}

/// Sets the sums to those that stand in the bytes.
fn fill_sums(bytes: &[u8], sums: &mut [u64])
    requires { length bytes.now ≡ 8 * length sums.old }
    ensures { sums.new ≡ numbers_in (length sums.old) bytes.now }
{
    LittleEndian::read_u64_into(bytes, sums);
}

#[tactic(auto, unfolding(crate::specs::Reading::pair_at))]
fn read_node(bytes: &[u8]) -> Result<((u32, u64), &[u8]), ItemFault>
    ensures { Finds (λ r. (r.0, r.1.now)) result (pair_at bytes.now) }
{
    let (store, rest) = read_u32(bytes)?;
    let (id, rest) = read_u64(rest)?;
    Ok(((store, id), rest))
}

fn read_u16(bytes: &[u8]) -> Result<(u16, &[u8]), ItemFault>
    ensures { Finds (λ r. (r.0, r.1.now)) result (number_at 2 bytes.now) }
{
    if bytes.len() < 2 {
        return Err(ItemFault::Bad);
    }
    let (_, rest) = bytes.split_at(2);
    Ok((LittleEndian::read_u16(bytes), rest))
}

fn read_u32(bytes: &[u8]) -> Result<(u32, &[u8]), ItemFault>
    ensures { Finds (λ r. (r.0, r.1.now)) result (number_at 4 bytes.now) }
{
    if bytes.len() < 4 {
        return Err(ItemFault::Bad);
    }
    let (_, rest) = bytes.split_at(4);
    Ok((LittleEndian::read_u32(bytes), rest))
}

fn read_u64(bytes: &[u8]) -> Result<(u64, &[u8]), ItemFault>
    ensures { Finds (λ r. (r.0, r.1.now)) result (number_at 8 bytes.now) }
{
    if bytes.len() < 8 {
        return Err(ItemFault::Bad);
    }
    let (_, rest) = bytes.split_at(8);
    Ok((LittleEndian::read_u64(bytes), rest))
}
