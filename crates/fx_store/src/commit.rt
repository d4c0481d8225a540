//! What a line that changes the tree puts into the history and the journal.
ghost use Rattle.std.specs.Prelude.{◌≡◌, ◌+◌, ◌<◌, ◌^◌, [], IfOk, vec_capacity, vec_len, if◌then◌else◌};
ghost use Rattle.fx_item.specs.Item.{items_of, value_of};
ghost use Rattle.fx_record.specs.Record.{TransactionRecord, IsRecord, record_bytes};
ghost use Rattle.fx_namespace.specs.Nodes.{is_root};
ghost use Rattle.fx_namespace.specs.Commits.{id_then, new_items, new_value, store_then, written_items};
ghost use Rattle.fx_store.specs.Line.{change_entry};

use fx_history::Entry;
use fx_item::{Item, Items, Key, LockKey, Name, Value};
use fx_plain::{Kind, Step, Steps};
use fx_record::{Record, encode_record};
use std::alloc::{AllocError, Global};

/// The most bytes of a record of one or two items: 317 for a name of 255 bytes.
const MAX_RECORD: usize = 320;

/// The next id, and the next store.
#[derive(Clone, Copy)]
pub(crate) struct Numbers {
    pub(crate) id: u64,
    pub(crate) store: u32,
}

/// The items of a commit, and the next numbers after it.
#[derive(Drop)]
pub(crate) struct Plan {
    pub(crate) items: Items,
    pub(crate) next: Numbers,
}

/// A line whose one step changes the tree, and who sent it.
#[derive(Drop)]
pub(crate) struct Change {
    pub(crate) client: u32,
    /// The number of the line.
    pub(crate) line: u32,
    pub(crate) step: Step,
}

/// A commit that is ready: its number, room for its step in its entry, its record's bytes, and the
/// next numbers after it.
#[derive(Drop)]
pub(crate) struct Commit {
    pub(crate) number: u64,
    pub(crate) room: Vec<Step>,
    pub(crate) record: Vec<u8>,
    pub(crate) next: Numbers,
}

impl Change {
    /// The entry of the history, which takes the step over into the room for it.
    pub(crate) fn entry(self, number: u64, room: Vec<Step>) -> Entry
        requires empty { room.items ≡ [] }
        requires room { vec_len room < vec_capacity room }
        ensures { result ≡ change_entry number self }
    {
        let mut steps = room;
        steps.push_reserved(self.step);
        Entry {
            number,
            who: self.client,
            line: self.line,
            steps: Steps::new(steps),
            settled: 0,
        }
    }
}

/// Whether the node is the root.
fn is_root(node: LockKey) -> bool
    ensures { result ≡ is_root node }
{
    node.store == 0 && node.id == 0
}

impl Numbers {
    /// The node that a new child of this directory is: in the root a store of its own, elsewhere
    /// the next id.
    pub(crate) fn child_of(self, parent: LockKey) -> LockKey
        ensures { result ≡ (if is_root parent then record { store = self.store; id = 0 }
            else record { store = parent.store; id = self.id }) }
    {
        if is_root(parent) {
            return LockKey {
                store: self.store,
                id: 0,
            };
        }
        LockKey {
            store: parent.store,
            id: self.id,
        }
    }

    /// The next numbers after that child.
    pub(crate) fn after_child_of(self, parent: LockKey) -> Numbers
        requires id { self.id < 2 ^ 63 }
        requires store { self.store + 1 < 2 ^ 32 }
        ensures id { result.id ≡ id_then parent self.id }
        ensures store { result.store ≡ store_then parent self.store }
    {
        if is_root(parent) {
            return Numbers {
                id: self.id,
                store: self.store + 1,
            };
        }
        Numbers {
            id: self.id + 1,
            store: self.store,
        }
    }
}

/// What the Object of a new node says.
fn new_value(kind: Kind) -> Value
    ensures { value_of result ≡ new_value kind }
{
    match kind {
        Kind::Dir => Value::Dir,
        Kind::File => Value::File { length: 0 },
    }
}

/// The items of a new node: its entry in the directory, and its Object.
pub(crate) fn new_node(
    alloc: Global,
    parent: LockKey,
    name: &Name,
    node: LockKey,
    kind: Kind,
) -> Result<Items, AllocError>
    ensures { IfOk result (λ items. items_of items ≡ new_items parent name.now node kind) }
{
    let mut items = Vec::with_capacity(alloc, 2)?;
    items.push(Item {
        key: Key::Child {
            store: parent.store,
            id: parent.id,
            name: name.clone()?,
        },
        value: Value::Child {
            store: node.store,
            id: node.id,
        },
    })?;
    items.push(Item {
        key: Key::Object {
            store: node.store,
            id: node.id,
        },
        value: new_value(kind),
    })?;
    Ok(Items::new(items))
}

/// The items of a file that was written: its Object, whose length stays 0 while contents are not
/// kept on the disk.
pub(crate) fn same_file(alloc: Global, node: LockKey) -> Result<Items, AllocError>
    ensures { IfOk result (λ items. items_of items ≡ written_items node) }
{
    let mut items = Vec::with_capacity(alloc, 1)?;
    items.push(Item {
        key: Key::Object {
            store: node.store,
            id: node.id,
        },
        value: Value::File { length: 0 },
    })?;
    Ok(Items::new(items))
}

/// The bytes of the record of a commit.
pub(crate) fn record_of(alloc: Global, number: u64, items: Items) -> Result<Vec<u8>, AllocError>
    requires { IsRecord (TransactionRecord number (items_of items)) }
    ensures { IfOk result (λ bytes.
        bytes.items ≡ record_bytes (TransactionRecord number (items_of items))) }
{
    let mut bytes = Vec::with_capacity(alloc, MAX_RECORD)?;
    encode_record(&Record::Txn { number, items }, &mut bytes)?;
    Ok(bytes)
}
