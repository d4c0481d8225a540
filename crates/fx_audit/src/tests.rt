//! Images given as rows of items, with the fault that is told.
ghost use Rattle.std.specs.Prelude.{◌<◌, ◌^◌, All, IfOk, IfSome, IsTrue, length};
ghost use Rattle.fx_item.specs.Item.{IsItem, IsObjectValue, item_of, items_of, value_of};
ghost use Rattle.fx_item.specs.Look.{AllApart};
ghost use Rattle.fx_item.specs.Name.{is_name};
ghost use Rattle.fx_sound.specs.Image.{AreStanding};

use crate::{Audited, audit, has_no_tombstone};
use fx_batch::Batch;
use fx_item::{Bytes, Checksums, Item, Items, Key, LockKey, Name, Value, is_name};
use fx_sound::{ImageFault, ImageNumbers};
use std::alloc::{AllocError, Global};
use std::process::Abort;
use std::test::Fail;

/// Items with a comma between, an arrow, and the first fault on a disk of 1,088 blocks with a ring
/// of 256 and a layer block 400. A node is `STORE.ID`; a child `NODE/NAME=NODE`, an Object
/// `NODE=dir` or `NODE=LENGTH`, an attribute `NODE#NAME`, a grave `NODE!`, block N of a file, on
/// block B of the device, `NODE:N@B`, and a taken block `+B`.
const FAULTS: &str = "-> none
0.0/v=1.0,1.0=dir -> none
0.0/v=1.0,1.0=dir,1.0/a=1.7,1.7#n,1.7=5000 -> order
0.0/v=1.0,1.0=dir,1.0/a=1.7,1.7=5000,1.7#n,1.7:1@900,+900 -> none
0.0/v=1.0,1.0=dir,1.0/a=1.7,1.7=5000,1.7:1@900,+901 -> unsound 900
0.0/v=1.0,1.0=dir,1.0/a=1.7,1.7=5000,1.7:1@900,+899,+900 -> unsound 899
0.0/v=1.0,1.0=dir,1.0/a=1.7,1.7=5000,1.7:0@900,1.7:1@900,+900 -> unsound 900
0.0/v=1.0,1.0=dir,1.0/a=1.7,1.7=5000,1.7:1@400,+400 -> unsound 400
0.0/v=1.0,1.0=dir,+3 -> unsound 3
0.0/v=1.0,1.0=dir,+1088 -> unsound 1088
0.0/v=1.0,1.0=dir,1.0/a=1.7,1.7=5000,1.7:1@257,+257 -> tree 1.7
0.0/v=1.0,1.0=dir,1.0/a=1.7,1.7=5000,1.7:1@1088,+1088 -> tree 1.7
0.0/v=1.0,1.0=dir,1.0/a=1.7,1.7=4096,1.7:1@900,+900 -> tree 1.7
0.0/v=1.0,1.0=dir,1.0:0@900,+900 -> tree 1.0
0.0/v=1.0,1.0=dir,1.7:0@900,+900 -> tree 1.7
0.0/v=1.0,1.0=dir,1.7#n -> tree 1.7
0.0/v=1.0,1.0=dir,1.7! -> tree 1.7
0.0/v=1.0,1.0=dir,1.7=5000,1.7:1@900,1.7!,+900 -> none
0.0/v=1.0,1.0=dir,1.7=dir,1.7! -> none
0.0/v=1.0,1.0=dir,1.0/a=1.7,1.7=dir,1.7! -> tree 1.7
0.0/v=1.0,1.0=dir,1.7=dir,1.7/b=1.8,1.7!,1.8=0 -> tree 1.7
0.0/v=1.0,1.0=dir,1.7=0 -> tree 1.7
0.0! -> tree 0.0
0.0/v=1.0,1.0=dir,1.6#n,1.7=0 -> tree 1.6
0.0/v=1.0,1.0=dir,1.6=0,1.7#n -> tree 1.6
0.0/v=1.0,1.0=dir,1.7#n,+3 -> tree 1.7";

fn node_of(text: &str) -> Result<LockKey, Fail> {
    let (store, id) = text.split_once(".").ok_or("no dot")?;
    let store = store.parse::<u32>()?;
    let id = id.parse::<u64>()?;
    Ok(LockKey { store, id })
}

/// A name that may stand in an item.
fn name_of(alloc: Global, text: &str) -> Result<Option<Name>, AllocError>
    ensures { IfOk result (λ found. IfSome found (λ name. IsTrue (is_name name))) }
{
    let name = Name::new(Vec::from_slice(alloc, text.as_bytes())?);
    if is_name(name.as_slice()) {
        return Ok(Some(name));
    }
    Ok(None)
}

fn object_value(text: &str) -> Result<Value, Fail>
    ensures { IfOk result (λ value. IsObjectValue (value_of value)) }
{
    if text == "dir" {
        return Ok(Value::Dir);
    }
    let length = text.parse::<u32>()?;
    Ok(Value::File { length })
}

fn child(alloc: Global, parent: &str, name: &str, node: &str) -> Result<Item, Fail>
    ensures { IfOk result (λ item. IsItem (item_of item)) }
{
    let parent = node_of(parent)?;
    let LockKey {
        store: to_store,
        id: to_id,
    } = node_of(node)?;
    let Some(name) = name_of(alloc, name)? else {
        return Err(Fail::from("no name"));
    };
    let key = Key::Child {
        store: parent.store,
        id: parent.id,
        name,
    };
    let value = Value::Child {
        store: to_store,
        id: to_id,
    };
    Ok(Item { key, value })
}

fn object(node: &str, text: &str) -> Result<Item, Fail>
    ensures { IfOk result (λ item. IsItem (item_of item)) }
{
    let node = node_of(node)?;
    let value = object_value(text)?;
    let key = Key::Object {
        store: node.store,
        id: node.id,
    };
    Ok(Item { key, value })
}

fn attribute(alloc: Global, node: &str, name: &str) -> Result<Item, Fail>
    ensures { IfOk result (λ item. IsItem (item_of item)) }
{
    let node = node_of(node)?;
    let Some(name) = name_of(alloc, name)? else {
        return Err(Fail::from("no name"));
    };
    let text = Bytes::new(Vec::from_slice(alloc, b"x")?);
    let key = Key::Attribute {
        store: node.store,
        id: node.id,
        name,
    };
    Ok(Item {
        key,
        value: Value::Attribute { text },
    })
}

fn extent(alloc: Global, node: &str, place: &str) -> Result<Item, Fail>
    ensures { IfOk result (λ item. IsItem (item_of item)) }
{
    let node = node_of(node)?;
    let (place, block) = place.split_once("@").ok_or("no block")?;
    let start = u32::from(place.parse::<u8>()?);
    let block = u32::from(block.parse::<u16>()?);
    let sums = Checksums::new(Vec::from_slice(alloc, &[7])?);
    let key = Key::Extent {
        store: node.store,
        id: node.id,
        start,
        end: start + 1,
    };
    Ok(Item {
        key,
        value: Value::Extent { block, sums },
    })
}

fn taken(block: &str) -> Result<Item, Fail>
    ensures { IfOk result (λ item. IsItem (item_of item)) }
{
    let start = u32::from(block.parse::<u16>()?);
    Ok(Item {
        key: Key::Allocation {
            start,
            end: start + 1,
        },
        value: Value::Taken,
    })
}

fn grave(node: &str) -> Result<Item, Fail>
    ensures { IfOk result (λ item. IsItem (item_of item)) }
{
    let node = node_of(node)?;
    Ok(Item {
        key: Key::Grave {
            store: node.store,
            id: node.id,
        },
        value: Value::Waiting,
    })
}

fn item_in(alloc: Global, row: &str) -> Result<Item, Fail>
    ensures { IfOk result (λ item. IsItem (item_of item)) }
{
    if let Some((_, block)) = row.split_once("+") {
        return taken(block);
    }
    if let Some((node, _)) = row.split_once("!") {
        return grave(node);
    }
    if let Some((node, place)) = row.split_once(":") {
        return extent(alloc, node, place);
    }
    if let Some((node, name)) = row.split_once("#") {
        return attribute(alloc, node, name);
    }
    let (place, text) = row.split_once("=").ok_or("no value")?;
    if let Some((parent, name)) = place.split_once("/") {
        return child(alloc, parent, name, text);
    }
    object(place, text)
}

fn items_in(alloc: Global, rows: &str) -> Result<Vec<Item>, Fail>
    ensures { IfOk result (λ items. All IsItem (items_of items.items)) }
{
    let mut items = Vec::new(alloc);
    for row in rows.split(',') {
        if !row.is_empty() {
            items.push(item_in(alloc, row)?)?;
        }
    }
    Ok(items)
}

const NUMBERS: ImageNumbers = ImageNumbers {
    generation: 1,
    sequence: 0,
    base: 0,
    kept: 2,
    next_id: 9,
    next_store: 2,
};

/// An image on a disk, before its items are known.
#[derive(Clone, Copy)]
struct Around {
    disk: u32,
    stream: u32,
    drops: bool,
    numbers: ImageNumbers,
}

const AROUND: Around = Around {
    disk: 1_088,
    stream: 1,
    drops: false,
    numbers: NUMBERS,
};

fn told(alloc: Global, fault: Option<ImageFault>) -> Result<String, AllocError> {
    match fault {
        None => format!(in alloc; "none"),
        Some(ImageFault::BadTree { store, id }) => format!(in alloc; "tree {store}.{id}"),
        Some(ImageFault::Unsound(block)) => format!(in alloc; "unsound {block}"),
        Some(ImageFault::Cramped(free)) => format!(in alloc; "cramped {free}"),
    }
}

fn live_fault(alloc: Global, around: Around, items: &[Item]) -> Result<String, AllocError>
    requires standing { AreStanding (items_of items.now) }
    requires few { length items.now < 2 ^ 32 }
{
    let image = Audited {
        disk: around.disk,
        ring: 256,
        layers: &[400],
        items,
        stream: around.stream,
        drops: around.drops,
        numbers: around.numbers,
    };
    told(alloc, audit(alloc, &image)?)
}

fn audited(alloc: Global, around: Around, batch: &Batch) -> Result<String, Fail>
    requires { AllApart batch.now }
{
    let items = batch.as_slice();
    if items.len() >= 1 << 32 {
        return Err(Fail::from("too many"));
    }
    if has_no_tombstone(items) {
        return Ok(live_fault(alloc, around, items)?);
    }
    Err(Fail::from("not live"))
}

/// The fault of an image of these items, or that they are out of order.
fn fault_of(alloc: Global, around: Around, rows: &str) -> Result<String, Fail> {
    let items = items_in(alloc, rows)?;
    if items.len() >= 1 << 32 {
        return Err(Fail::from("too many"));
    }
    match Batch::build(Items::new(items)) {
        Ok(batch) => audited(alloc, around, &batch),
        Err(_) => Ok(format!(in alloc; "order")?),
    }
}

fn row(rt: &impl Abort, alloc: Global, row: &str) -> Result<(), Fail> {
    let (rows, wanted) = row.split_once("-> ").ok_or("no arrow")?;
    let found = fault_of(alloc, AROUND, rows.trim())?;
    assert_eq!(rt; found.as_str(), wanted, "at {row}");
    Ok(())
}

#[test]
fn first_faults(rt: HostRuntime) -> Result<(), Fail> {
    for line in FAULTS.lines() {
        row(&rt, rt.alloc(), line)?;
    }
    Ok(())
}

/// One node: its layers may take 9 blocks.
const ONE: &str = "0.0/v=1.0,1.0=dir";

fn is_told(rt: &impl Abort, alloc: Global, around: Around, wanted: &str) -> Result<(), Fail> {
    assert_eq!(rt; fault_of(alloc, around, ONE)?.as_str(), wanted);
    Ok(())
}

#[test]
fn room(rt: HostRuntime) -> Result<(), Fail> {
    is_told(
        &rt,
        rt.alloc(),
        Around {
            disk: 276,
            ..AROUND
        },
        "none",
    )?;
    is_told(
        &rt,
        rt.alloc(),
        Around {
            disk: 275,
            ..AROUND
        },
        "cramped 16",
    )?;
    is_told(
        &rt,
        rt.alloc(),
        Around {
            drops: true,
            stream: 255,
            ..AROUND
        },
        "none",
    )?;
    is_told(
        &rt,
        rt.alloc(),
        Around {
            drops: true,
            stream: 256,
            ..AROUND
        },
        "cramped 829",
    )
}

#[test]
fn numbers(rt: HostRuntime) -> Result<(), Fail> {
    let far = ImageNumbers {
        generation: (1 << 63) - (1 << 40),
        ..NUMBERS
    };
    is_told(
        &rt,
        rt.alloc(),
        Around {
            numbers: far,
            ..AROUND
        },
        "none",
    )?;
    let near = ImageNumbers {
        generation: (1 << 63) - (1 << 40) + 1,
        ..NUMBERS
    };
    is_told(
        &rt,
        rt.alloc(),
        Around {
            numbers: near,
            disk: 275,
            ..AROUND
        },
        "cramped 0",
    )
}
