//! Items as bytes.
ghost use Rattle.std.specs.Prelude.{◌≡◌, ◌<◌, ◌≤◌, ◌+◌, ◌*◌, ◌++◌, ◌∷◌, [], length, OnOk, OnErr};
ghost use Rattle.byteorder.specs.Endian.{little_bytes};
ghost use Rattle.fx_item.specs.Item.{key_of, value_of, item_of, IsKey, IsItem, node_bytes, name_bytes, range_bytes, text_bytes, sums_bytes, key_bytes, value_bytes, item_bytes};
ghost use Rattle.fx_item.specs.Writing.{IsShort};

use crate::item::{Item, Key, MAX_ITEM, Value};
use byteorder::{ByteOrder, LittleEndian};
use std::alloc::AllocError;

/// The bytes of a kind or tag with a store and an id.
pub(crate) const NODE_BYTES: usize = 13;

/// The bytes of a range.
const RANGE_BYTES: usize = 8;

/// The first byte of a key.
pub(crate) const OBJECT: u8 = 1;

pub(crate) const ATTRIBUTE: u8 = 2;

pub(crate) const EXTENT: u8 = 3;

pub(crate) const CHILD: u8 = 4;

pub(crate) const GRAVE: u8 = 5;

pub(crate) const ALLOCATION: u8 = 6;

/// The first byte of a value.
pub(crate) const GONE: u8 = 0;

pub(crate) const DIRECTORY: u8 = 1;

pub(crate) const FILE: u8 = 2;

pub(crate) const TEXT: u8 = 3;

pub(crate) const NODE: u8 = 4;

pub(crate) const WAITING: u8 = 5;

pub(crate) const BLOCKS: u8 = 6;

pub(crate) const TAKEN: u8 = 7;

/// Appends the bytes of an item, at most 528. The item keeps the rules of items: names are names,
/// ranges are not empty and lie within their bounds, and the value suits the key. Where memory is
/// refused `into` is as before.
pub fn encode(item: &Item, into: &mut Vec<u8>) -> Result<(), AllocError>
    requires { IsItem (item_of item.now) }
    ensures ok { OnOk result (into.new.items
        ≡ into.old.items ++ item_bytes (item_of item.now)) }
    ensures err { OnErr result (into.new.items ≡ into.old.items) }
{
    let before = into.len();
    into.resize(before + encoded_len(item), 0)?;
    fill_item(item, &mut into[before..]);
    Ok(())
}

/// How many bytes an item has: at most 528.
pub fn encoded_len(item: &Item) -> usize
    requires { IsItem (item_of item.now) }
    ensures len { result ≡ length (item_bytes (item_of item.now)) }
    ensures most { result ≤ MAX_ITEM }
{
    key_len(&item.key) + value_len(&item.value)
}

fn key_len(key: &Key) -> usize
    requires { IsKey (key_of key.now) }
    ensures len { result ≡ length (key_bytes (key_of key.now)) }
    ensures most { result ≤ 269 }
{
    match key {
        Key::Object { .. } | Key::Grave { .. } => NODE_BYTES,
        Key::Attribute { name, .. } | Key::Child { name, .. } => {
            NODE_BYTES + 1 + name.as_slice().len()
        }
        Key::Extent { .. } => NODE_BYTES + RANGE_BYTES,
        Key::Allocation { .. } => 1 + RANGE_BYTES,
    }
}

#[tactic(auto, using(crate::proofs::Sums::sums_len))]
fn value_len(value: &Value) -> usize
    requires { IsShort (value_of value.now) }
    ensures len { result ≡ length (value_bytes (value_of value.now)) }
    ensures most { result < 270 }
{
    match value {
        Value::Gone | Value::Dir | Value::Waiting | Value::Taken => 1,
        Value::File { .. } => 5,
        Value::Attribute { text } => 3 + text.len(),
        Value::Child { .. } => NODE_BYTES,
        Value::Extent { sums, .. } => 5 + 8 * sums.len(),
    }
}

fn fill_item(item: &Item, into: &mut [u8])
    requires item { IsItem (item_of item.now) }
    requires room { length into.old ≡ length (item_bytes (item_of item.now)) }
    ensures { into.new ≡ item_bytes (item_of item.now) }
{
    let (key, value) = into.split_at_mut(key_len(&item.key));
    fill_key(&item.key, key);
    fill_value(&item.value, value);
}

fn fill_key(key: &Key, into: &mut [u8])
    requires key { IsKey (key_of key.now) }
    requires room { length into.old ≡ length (key_bytes (key_of key.now)) }
    ensures { into.new ≡ key_bytes (key_of key.now) }
{
    match key {
        Key::Object { store, id } => fill_node(OBJECT, *store, *id, into),
        Key::Attribute { store, id, name } => {
            let (node, rest) = into.split_at_mut(NODE_BYTES);
            fill_node(ATTRIBUTE, *store, *id, node);
            fill_name(name.as_slice(), rest);
        }
        Key::Extent {
            store,
            id,
            start,
            end,
        } => {
            let (node, rest) = into.split_at_mut(NODE_BYTES);
            fill_node(EXTENT, *store, *id, node);
            fill_range(*start, *end, rest);
        }
        Key::Child { store, id, name } => {
            let (node, rest) = into.split_at_mut(NODE_BYTES);
            fill_node(CHILD, *store, *id, node);
            fill_name(name.as_slice(), rest);
        }
        Key::Grave { store, id } => fill_node(GRAVE, *store, *id, into),
        Key::Allocation { start, end } => {
            let (first, rest) = into.split_at_mut(1);
            first[0] = ALLOCATION;
            fill_range(*start, *end, rest);
        }
    }
}

fn fill_name(name: &[u8], into: &mut [u8])
    requires name { length name.now < 256 }
    requires room { length into.old ≡ length (name_bytes name.now) }
    ensures { into.new ≡ name_bytes name.now }
{
    let (len, letters) = into.split_at_mut(1);
    len[0] = name.len() as u8;
    letters.copy_from_slice(name);
}

fn fill_range(start: u32, end: u32, into: &mut [u8])
    requires { length into.old ≡ RANGE_BYTES }
    ensures { into.new ≡ range_bytes start end }
{
    let (first, last) = into.split_at_mut(4);
    LittleEndian::write_u32(first, start);
    LittleEndian::write_u32(last, end);
}

#[tactic(auto, using(crate::proofs::Sums::sums_len))]
fn fill_value(value: &Value, into: &mut [u8])
    requires value { IsShort (value_of value.now) }
    requires room { length into.old ≡ length (value_bytes (value_of value.now)) }
    ensures { into.new ≡ value_bytes (value_of value.now) }
{
    match value {
        Value::Gone => fill_tag(GONE, into),
        Value::Dir => fill_tag(DIRECTORY, into),
        Value::File { length } => fill_number(FILE, *length, into),
        Value::Attribute { text } => fill_text(text.as_slice(), into),
        Value::Child { store, id } => fill_node(NODE, *store, *id, into),
        Value::Waiting => fill_tag(WAITING, into),
        Value::Extent { block, sums } => fill_extent(*block, sums.as_slice(), into),
        Value::Taken => fill_tag(TAKEN, into),
    }
}

fn fill_tag(tag: u8, into: &mut [u8])
    requires { length into.old ≡ 1 }
    ensures { into.new ≡ tag ∷ [] }
{
    into[0] = tag;
}

fn fill_number(tag: u8, number: u32, into: &mut [u8])
    requires { length into.old ≡ 5 }
    ensures { into.new ≡ tag ∷ little_bytes 4 number }
{
    let (first, rest) = into.split_at_mut(1);
    first[0] = tag;
    LittleEndian::write_u32(rest, number);
}

fn fill_text(text: &[u8], into: &mut [u8])
    requires text { length text.now < 65536 }
    requires room { length into.old ≡ 3 + length text.now }
    ensures { into.new ≡ TEXT ∷ text_bytes text.now }
{
    let (first, rest) = into.split_at_mut(1);
    first[0] = TEXT;
    let (len, bytes) = rest.split_at_mut(2);
    LittleEndian::write_u16(len, text.len() as u16);
    bytes.copy_from_slice(text);
}

fn fill_extent(block: u32, sums: &[u64], into: &mut [u8])
    requires { length into.old ≡ 5 + 8 * length sums.now }
    ensures { into.new ≡ BLOCKS ∷ (little_bytes 4 block ++ sums_bytes sums.now) }
{
    let (first, rest) = into.split_at_mut(5);
    fill_number(BLOCKS, block, first);
    LittleEndian::write_u64_into(sums, rest);
}

fn fill_node(kind: u8, store: u32, id: u64, into: &mut [u8])
    requires { length into.old ≡ NODE_BYTES }
    ensures { into.new ≡ node_bytes kind store id }
{
    let (first, rest) = into.split_at_mut(1);
    first[0] = kind;
    let (stores, ids) = rest.split_at_mut(4);
    LittleEndian::write_u32(stores, store);
    LittleEndian::write_u64(ids, id);
}
