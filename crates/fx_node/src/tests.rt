//! Nodes and the graveyard over many batches, over one batch, and over a layer.
ghost use Rattle.std.specs.Prelude.{◌≡◌, All, IfOk, IfSome};
ghost use Rattle.fx_item.specs.Item.{IsItem, item_of, items_of};

use super::*;
use fx_batch::Batch;
use fx_item::{Bytes, Item, Items, Key, LockKey, Look, LookFault, Name, decode};
use fx_layerset::{LayerSet, Layered, Layers, LevelList};
use fx_plain::Kind;
use std::alloc::{AllocError, Global};
use std::sync::Arc;
use std::test::Fail;

/// Items, the oldest first. The node (1, 7) was removed, and an attribute and a block were taken
/// away; the node (1, 8) is an empty file.
const ITEMS: &str = "child 1 0 a 1 7
file 1 7 24000
file 1 8 0
dir 1 9
attr 1 7 color red
attr 1 7 size big
attr 1 9 color blue
ext 1 7 0 3 400
ext 1 7 4 5 300
ext 1 7 1 2 200
attr 1 7 color
ext 1 7 2 3
child 1 0 a
grave 1 9
grave 1 7";

const FILE: LockKey = LockKey { store: 1, id: 7 };

fn put_u32(bytes: &mut Vec<u8>, word: &str) -> Result<(), Fail> {
    bytes.extend_from_slice(&word.parse::<u32>()?.to_le_bytes())?;
    Ok(())
}

fn put_node(bytes: &mut Vec<u8>, store: &str, id: &str) -> Result<(), Fail> {
    put_u32(bytes, store)?;
    bytes.extend_from_slice(&id.parse::<u64>()?.to_le_bytes())?;
    Ok(())
}

fn put_name(bytes: &mut Vec<u8>, name: &str) -> Result<(), Fail> {
    bytes.push(u8::try_from(name.len())?)?;
    bytes.extend_from_slice(name.as_bytes())?;
    Ok(())
}

/// A word, and what stands behind it.
fn first_word(words: &str) -> (&str, &str) {
    match words.split_once(' ') {
        Some((word, rest)) => (word, rest),
        None => (words, ""),
    }
}

/// A name, and a text; without one a tombstone.
fn put_attribute(bytes: &mut Vec<u8>, words: &str) -> Result<(), Fail> {
    let (name, text) = first_word(words);
    put_name(bytes, name)?;
    if text.is_empty() {
        bytes.push(0)?;
        return Ok(());
    }
    bytes.push(3)?;
    bytes.extend_from_slice(&u16::try_from(text.len())?.to_le_bytes())?;
    bytes.extend_from_slice(text.as_bytes())?;
    Ok(())
}

/// Places of a file, and the block from which on they lie; without one a tombstone.
fn put_extent(bytes: &mut Vec<u8>, words: &str) -> Result<(), Fail> {
    let (start, words) = first_word(words);
    let (end, block) = first_word(words);
    put_u32(bytes, start)?;
    put_u32(bytes, end)?;
    if block.is_empty() {
        bytes.push(0)?;
        return Ok(());
    }
    bytes.push(6)?;
    put_u32(bytes, block)?;
    put_sums(bytes, start.parse::<u64>()?, end.parse::<u64>()?)
}

fn put_sums(bytes: &mut Vec<u8>, start: u64, end: u64) -> Result<(), Fail> {
    for place in start..end {
        bytes.extend_from_slice(&place.to_le_bytes())?;
    }
    Ok(())
}

/// A name, and a node; without one a tombstone.
fn put_child(bytes: &mut Vec<u8>, words: &str) -> Result<(), Fail> {
    let (name, node) = first_word(words);
    put_name(bytes, name)?;
    if node.is_empty() {
        bytes.push(0)?;
        return Ok(());
    }
    let (store, id) = first_word(node);
    bytes.push(4)?;
    put_node(bytes, store, id)
}

fn put_file(bytes: &mut Vec<u8>, length: &str) -> Result<(), Fail> {
    bytes.push(2)?;
    put_u32(bytes, length)
}

/// The number of a kind of items.
fn number_of(kind: &str) -> u8 {
    match kind {
        "dir" | "file" => 1,
        "attr" => 2,
        "ext" => 3,
        "child" => 4,
        _ => 5,
    }
}

/// What stands behind the node of a key.
fn put_rest(bytes: &mut Vec<u8>, kind: &str, words: &str) -> Result<(), Fail> {
    match kind {
        "file" => put_file(bytes, words),
        "attr" => put_attribute(bytes, words),
        "ext" => put_extent(bytes, words),
        "child" => put_child(bytes, words),
        "dir" => Ok(bytes.push(1)?),
        _ => Ok(bytes.push(5)?),
    }
}

/// The bytes of the item that a row names.
fn bytes_of(alloc: Global, row: &str) -> Result<Vec<u8>, Fail> {
    let (kind, words) = first_word(row);
    let (store, words) = first_word(words);
    let (id, words) = first_word(words);
    let mut bytes = Vec::new(alloc);
    bytes.push(number_of(kind))?;
    put_node(&mut bytes, store, id)?;
    put_rest(&mut bytes, kind, words)?;
    Ok(bytes)
}

fn spelled(alloc: Global, bytes: &[u8]) -> Result<Item, AllocError>
    ensures { IfOk result (λ item. IsItem (item_of item)) }
{
    match decode(alloc, bytes) {
        Ok((item, _)) => Ok(item),
        Err(_) => Err(AllocError),
    }
}

fn list_of_one(alloc: Global, bytes: &[u8]) -> Result<Items, AllocError>
    ensures { IfOk result (λ items. All IsItem (items_of items)) }
{
    let mut items = Vec::new(alloc);
    let item = spelled(alloc, bytes)?;
    items.push(item)?;
    Ok(Items::new(items))
}

/// One more batch, of these items.
fn push_batch(alloc: Global, set: &mut LayerSet<Batch>, items: Items) -> Result<(), Fail>
    requires { All IsItem (items_of items) }
{
    if items.len() >= 1 << 32 {
        return Err(Fail::from("too many"));
    }
    let batch = Batch::build(items).ok().ok_or("out of order")?;
    let batch = Arc::new(alloc, batch)?;
    set.reserve(1)?;
    set.push(batch);
    Ok(())
}

/// A batch for each row.
fn set_of(alloc: Global, rows: &str) -> Result<LayerSet<Batch>, Fail> {
    let layers = Layers {
        objects: LevelList::new(Vec::new(alloc)),
        allocs: LevelList::new(Vec::new(alloc)),
    };
    let mut set = LayerSet::new(alloc, layers);
    for row in rows.lines() {
        let items = list_of_one(alloc, bytes_of(alloc, row)?.as_slice())?;
        push_batch(alloc, &mut set, items)?;
    }
    Ok(set)
}

/// One batch in the place of all.
fn tidy_all(alloc: Global, set: &mut LayerSet<Batch>) -> Result<(), LookFault> {
    let below = set.batch_count();
    if below == 0 {
        return Ok(());
    }
    let batch = set.merged_batches(alloc)?;
    let batch = Arc::new(alloc, batch)?;
    set.tidy(below, batch);
    Ok(())
}

/// One layer in the place of all batches.
fn install_all(alloc: Global, set: &mut LayerSet<Batch>) -> Result<(), LookFault> {
    let below = set.batch_count();
    let batch = set.merged_batches(alloc)?;
    let layer = Arc::new(alloc, batch)?;
    let mut objects = Vec::with_capacity(alloc, 1)?;
    objects.push_reserved(Layered::Layer(layer));
    set.reserve_layers(1)?;
    set.install(
        below,
        0,
        Layers {
            objects: LevelList::new(objects),
            allocs: LevelList::new(Vec::new(alloc)),
        },
    );
    Ok(())
}

/// The next portion of a node, where it waits in the graveyard.
fn next_portion(
    alloc: Global,
    look: &LayerSet<Batch>,
    at: LockKey,
) -> Result<Option<Portion>, LookFault>
    ensures { IfOk result (λ portion. IfSome portion
        (λ portion. All IsItem (items_of portion.items))) }
{
    let key = Key::Grave {
        store: at.store,
        id: at.id,
    };
    let Some(_) = look.get(alloc, &key)? else {
        return Ok(None);
    };
    match reap_plan(alloc, look, at) {
        Ok(portion) => Ok(Some(portion)),
        Err(fault) => Err(fault),
    }
}

/// A key in words.
fn key_text(alloc: Global, key: &Key) -> Result<String, Fail> {
    let text = match key {
        Key::Object { store, id } => format!(in alloc; "object {store} {id}")?,
        Key::Attribute { name, .. } => {
            let letters = Vec::from_slice(alloc, name.as_slice())?;
            let name = String::from_utf8(letters).ok().ok_or("no text")?;
            format!(in alloc; "attr {name}")?
        }
        Key::Extent { start, end, .. } => format!(in alloc; "ext {start} {end}")?,
        Key::Grave { store, id } => format!(in alloc; "grave {store} {id}")?,
        _ => format!(in alloc; "other")?,
    };
    Ok(text)
}

/// What a portion takes, in words.
fn portion_text(alloc: Global, portion: &Portion) -> Result<String, Fail> {
    let mut text = String::new(alloc);
    for item in portion.items.as_slice() {
        text.push_str(key_text(alloc, &item.key)?.as_str())?;
        text.push_str(", ")?;
    }
    for block in portion.frees.as_slice() {
        text.push_str(format!(in alloc; "{block} ")?.as_str())?;
    }
    Ok(text)
}

/// What lies in the graveyard, and what a portion of the file takes, in words.
fn seen(alloc: Global, look: &LayerSet<Batch>) -> Result<String, Fail> {
    let mut text = String::new(alloc);
    for node in graves(alloc, look).ok().ok_or("no memory")?.as_slice() {
        text.push_str(format!(in alloc; "({}, {}) ", node.store, node.id)?.as_str())?;
    }
    let portion = next_portion(alloc, look, FILE).ok().ok_or("no memory")?;
    let portion = portion.ok_or("no grave")?;
    text.push_str(portion_text(alloc, &portion)?.as_str())?;
    Ok(text)
}

#[test]
fn the_graveyard(rt: HostRuntime) -> Result<(), Fail> {
    let wanted =
        "(1, 7) (1, 9) object 1 7, attr size, ext 0 1, ext 1 2, ext 4 5, grave 1 7, 200 300 400 ";
    let mut set = set_of(rt.alloc(), ITEMS)?;
    assert_eq!(rt; seen(rt.alloc(), &set)?.as_str(), wanted);
    tidy_all(rt.alloc(), &mut set).ok().ok_or("no memory")?;
    assert_eq!(rt; seen(rt.alloc(), &set)?.as_str(), wanted);
    install_all(rt.alloc(), &mut set).ok().ok_or("no memory")?;
    assert_eq!(rt; seen(rt.alloc(), &set)?.as_str(), wanted);
    Ok(())
}

fn name_of(alloc: Global, text: &str) -> Result<Name, AllocError> {
    Ok(Name::new(Vec::from_slice(alloc, text.as_bytes())?))
}

#[test]
fn what_nodes_are(rt: HostRuntime) -> Result<(), Fail> {
    let alloc = rt.alloc();
    let set = set_of(alloc, ITEMS)?;
    let root = LockKey { store: 0, id: 0 };
    let dir = LockKey { store: 1, id: 9 };
    assert!(rt; matches!(object(alloc, &set, root), Ok(Some(Kind::Dir))));
    assert!(rt; matches!(object(alloc, &set, dir), Ok(Some(Kind::Dir))));
    assert!(rt; matches!(object(alloc, &set, FILE), Ok(Some(Kind::File))));
    assert!(rt; matches!(file_length(alloc, &set, FILE), Ok(Some(24_000))));
    assert!(rt; matches!(file_length(alloc, &set, dir), Ok(None)));
    let size = attribute(alloc, &set, FILE, &name_of(alloc, "size")?)?;
    assert!(rt; is_text(&size, b"big"));
    let gone = attribute(alloc, &set, FILE, &name_of(alloc, "color")?)?;
    assert!(rt; gone.is_none());
    Ok(())
}

fn is_text(found: &Option<Bytes>, wanted: &[u8]) -> bool {
    match found {
        Some(text) => text.as_slice() == wanted,
        None => false,
    }
}

/// A file in the graveyard with 300 attributes and two blocks.
fn large_set(alloc: Global) -> Result<LayerSet<Batch>, Fail> {
    let rows = "file 1 7 9000\next 1 7 0 1 500\next 1 7 1 2 400\ngrave 1 7";
    let mut set = set_of(alloc, rows)?;
    for number in 0..300_u32 {
        let row = format!(in alloc; "attr 1 7 name{number} x")?;
        let items = list_of_one(alloc, bytes_of(alloc, row.as_str())?.as_slice())?;
        push_batch(alloc, &mut set, items)?;
    }
    tidy_all(alloc, &mut set).ok().ok_or("no memory")?;
    Ok(set)
}

fn is_first(portion: &Portion) -> bool {
    let reaped = portion.delta.reaped;
    !portion.last && portion.frees.is_empty() && reaped.attributes == 256 && reaped.nodes == 0
}

fn is_second(portion: &Portion) -> bool {
    let reaped = portion.delta.reaped;
    portion.last && reaped.attributes == 44 && reaped.blocks == 2 && reaped.nodes == 1
}

/// Whether nothing is left of the file.
fn is_gone(alloc: Global, set: &LayerSet<Batch>) -> Result<bool, LookFault> {
    Ok(graves(alloc, set)?.is_empty() && object(alloc, set, FILE)?.is_none())
}

#[test]
fn two_portions(rt: HostRuntime) -> Result<(), Fail> {
    let alloc = rt.alloc();
    let mut set = large_set(alloc)?;
    let first = next_portion(alloc, &set, FILE)?.ok_or("no grave")?;
    assert_eq!(rt; first.items.len(), 256);
    assert!(rt; is_first(&first));
    push_batch(alloc, &mut set, first.items)?;
    let second = next_portion(alloc, &set, FILE)?.ok_or("no grave")?;
    assert_eq!(rt; second.items.len(), 48);
    assert_eq!(rt; second.frees.as_slice(), [400, 500].as_slice());
    assert!(rt; is_second(&second));
    push_batch(alloc, &mut set, second.items)?;
    assert!(rt; is_gone(alloc, &set)?);
    Ok(())
}
