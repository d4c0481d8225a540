//! Items given as rows: what is wrong first, and the nodes of a tree.
ghost use Rattle.std.specs.Prelude.{IfOk, IfSome, IsTrue};
ghost use Rattle.fx_item.specs.Item.{IsNameItem, IsChildValue, IsObjectValue, item_of, value_of};
ghost use Rattle.fx_item.specs.Name.{is_name};

use crate::{ItemTable, TreeNode, check, tree_nodes};
use fx_item::{Item, Key, LockKey, Name, Value, is_name};
use fx_plain::Kind;
use std::alloc::{AllocError, Global};
use std::process::Abort;
use std::test::Fail;

/// Items with a comma between, an arrow, and the least node at which something is wrong. A node is
/// `STORE.ID`, a child `NODE/NAME=NODE`, an Object `NODE=dir` or `NODE=file`; `=x` takes an item
/// away.
const WRONG: &str = "-> none
0.0/v=1.0,1.0=dir -> none
0.0/v=1.0,1.0=dir,1.0/a=1.1,1.1=file,1.0/b=1.2,1.2=dir,1.2/c=1.3,1.3=dir -> none
0.0/v=1.0,1.0=dir,0.0/v=x,1.0=x -> none
0.0/v=1.0,1.0=file,1.0=dir -> none
0.0/v=1.1,1.1=dir -> 1.1
0.0/v=0.0,0.0=dir -> 0.0
0.0/v=1.0,1.0=dir,1.0/a=2.1,2.1=file -> 2.1
0.0/v=1.0,1.0=dir,1.0/a=1.0 -> 1.0
0.0/v=1.0 -> 1.0
0.0/v=1.0,1.0=dir,1.0/a=1.1 -> 1.1
0.0/v=1.0,1.0=file -> 1.0
0.0/v=1.0,1.0=dir,1.0/a=1.1,1.0/b=1.1,1.1=file -> 1.1
0.0/v=1.0,1.0=dir,1.0/a=1.1,1.1=file,1.1/b=1.2,1.2=file -> 1.1
1.1/b=1.2 -> 1.1
0.0/v=1.0,1.0=dir,1.7=file -> 1.7
0.0=dir -> 0.0
0.0/v=1.0,1.0=dir,1.0/a=1.1,1.1=dir,1.1/b=1.2,1.2=dir,1.2/c=1.1 -> 1.1
0.0/v=1.0,1.0=dir,1.5=dir,1.5/b=1.6,1.6=dir,1.6/c=1.5 -> 1.5
0.0/v=1.0,1.0=dir,1.0/a=1.3,1.3=dir,1.3/b=1.2,1.2=dir,1.2/c=1.3 -> 1.2
0.0/v=1.0,1.0=dir,1.0/a=1.9,1.8=file -> 1.8
0.0/v=1.0,1.0=dir,1.0/a=1.8,1.9=file -> 1.8
0.0/v=1.0,1.0=dir,1.0/a=2.5,2.4=file,1.9=file -> 1.9";

const TREE: &str =
    "0.0/v=1.0,0.0/u=2.0,1.0=dir,2.0=dir,1.0/b=1.1,1.1=dir,1.1/c=1.2,1.2=file,1.0/a=1.5,1.5=file";

/// The nodes of that tree, a line each.
const NODES: &str = "/u 2.0 dir
/v 1.0 dir
/v/a 1.5 file
/v/b 1.1 dir
/v/b/c 1.2 file
";

fn node_of(text: &str) -> Result<LockKey, Fail> {
    let (store, id) = text.split_once(".").ok_or("no dot")?;
    let store = store.parse::<u32>()?;
    let id = id.parse::<u64>()?;
    Ok(LockKey { store, id })
}

/// A name that may stand in an item.
fn name_of(alloc: Global, text: &str) -> Result<Option<Name>, AllocError>
    ensures { IfOk result (λ found. IfSome found (λ name. IsTrue (is_name name))) }
{
    let name = Name::new(Vec::from_slice(alloc, text.as_bytes())?);
    if is_name(name.as_slice()) {
        return Ok(Some(name));
    }
    Ok(None)
}

fn object_value(text: &str) -> Value
    ensures { IsObjectValue (value_of result) }
{
    if text == "dir" {
        return Value::Dir;
    }
    if text == "file" {
        return Value::File { length: 3 };
    }
    Value::Gone
}

fn child_value(text: &str) -> Result<Value, Fail>
    ensures { IfOk result (λ value. IsChildValue (value_of value)) }
{
    if text == "x" {
        return Ok(Value::Gone);
    }
    let node = node_of(text)?;
    Ok(Value::Child {
        store: node.store,
        id: node.id,
    })
}

fn child_item(alloc: Global, parent: &str, name: &str, text: &str) -> Result<Item, Fail>
    ensures { IfOk result (λ item. IsNameItem (item_of item)) }
{
    let parent = node_of(parent)?;
    let value = child_value(text)?;
    let Some(name) = name_of(alloc, name)? else {
        return Err(Fail::from("no name"));
    };
    let key = Key::Child {
        store: parent.store,
        id: parent.id,
        name,
    };
    Ok(Item { key, value })
}

fn item_in(alloc: Global, row: &str) -> Result<Item, Fail>
    ensures { IfOk result (λ item. IsNameItem (item_of item)) }
{
    let (place, text) = row.split_once("=").ok_or("no value")?;
    if let Some((parent, name)) = place.split_once("/") {
        return child_item(alloc, parent, name, text);
    }
    let node = node_of(place)?;
    let key = Key::Object {
        store: node.store,
        id: node.id,
    };
    let value = object_value(text);
    Ok(Item { key, value })
}

fn put(table: &mut ItemTable, item: Item) -> Result<(), AllocError>
    requires { IsNameItem (item_of item) }
{
    table.put(&[item])
}

fn put_row(alloc: Global, table: &mut ItemTable, row: &str) -> Result<(), Fail> {
    let item = item_in(alloc, row)?;
    put(table, item)?;
    Ok(())
}

fn table_of(alloc: Global, rows: &str) -> Result<ItemTable, Fail> {
    let mut table = ItemTable::new(alloc, 0, 0);
    for row in rows.split(',') {
        if !row.is_empty() {
            put_row(alloc, &mut table, row)?;
        }
    }
    Ok(table)
}

/// A volume, and directories in one another, as many as the names of the longest path.
fn chain_of(alloc: Global, names: u64) -> Result<ItemTable, Fail> {
    let mut table = table_of(alloc, "0.0/v=1.0,1.0=dir")?;
    for id in 1..names {
        let row = format!(in alloc; "1.{}/n=1.{id}", id - 1)?;
        put_row(alloc, &mut table, row.as_str())?;
        let row = format!(in alloc; "1.{id}=dir")?;
        put_row(alloc, &mut table, row.as_str())?;
    }
    Ok(table)
}

fn found_in(alloc: Global, table: &ItemTable) -> Result<String, AllocError> {
    match check(alloc, table)? {
        None => format!(in alloc; "none"),
        Some(node) => format!(in alloc; "{}.{}", node.store, node.id),
    }
}

fn wrong_row(rt: &impl Abort, alloc: Global, row: &str) -> Result<(), Fail> {
    let (rows, wanted) = row.split_once("-> ").ok_or("no arrow")?;
    let table = table_of(alloc, rows.trim())?;
    assert_eq!(rt; found_in(alloc, &table)?.as_str(), wanted, "at {row}");
    Ok(())
}

#[test]
fn least_wrong_node(rt: HostRuntime) -> Result<(), Fail> {
    for row in WRONG.lines() {
        wrong_row(&rt, rt.alloc(), row)?;
    }
    Ok(())
}

#[test]
fn long_paths(rt: HostRuntime) -> Result<(), Fail> {
    let table = chain_of(rt.alloc(), 64)?;
    assert_eq!(&rt; found_in(rt.alloc(), &table)?.as_str(), "none");
    let table = chain_of(rt.alloc(), 65)?;
    assert_eq!(&rt; found_in(rt.alloc(), &table)?.as_str(), "1.64");
    let table = chain_of(rt.alloc(), 80)?;
    assert_eq!(&rt; found_in(rt.alloc(), &table)?.as_str(), "1.64");
    Ok(())
}

fn push_node(alloc: Global, into: &mut String, node: &TreeNode) -> Result<(), Fail> {
    for name in node.path.as_slice() {
        into.push_str("/")?;
        into.push_str(std::str::from_utf8(name.as_slice())?)?;
    }
    let kind = match node.kind {
        Kind::Dir => "dir",
        Kind::File => "file",
    };
    let rest = format!(in alloc; " {}.{} {kind}\n", node.node.store, node.node.id)?;
    into.push_str(rest.as_str())?;
    Ok(())
}

#[test]
fn nodes_of_a_tree(rt: HostRuntime) -> Result<(), Fail> {
    let table = table_of(rt.alloc(), TREE)?;
    let None = check(rt.alloc(), &table)? else {
        return Err(Fail::from("wrong"));
    };
    let mut text = String::new(rt.alloc());
    for node in tree_nodes(rt.alloc(), &table)?.as_slice() {
        push_node(rt.alloc(), &mut text, node)?;
    }
    assert_eq!(&rt; text.as_str(), NODES);
    Ok(())
}

#[test]
fn numbers(rt: HostRuntime) -> Result<(), Fail> {
    let mut table = ItemTable::new(rt.alloc(), 3, 2);
    put_row(rt.alloc(), &mut table, "1.1=file")?;
    assert_eq!(&rt; (table.next_id(), table.next_store()), (3, 2));
    put_row(rt.alloc(), &mut table, "1.1/a=7.9")?;
    assert_eq!(&rt; (table.next_id(), table.next_store()), (10, 8));
    put_row(
        rt.alloc(),
        &mut table,
        "4294967295.18446744073709551615=dir",
    )?;
    assert_eq!(&rt; (table.next_id(), table.next_store()), (u64::MAX, u32::MAX));
    Ok(())
}
