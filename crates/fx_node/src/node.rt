//! What a node is, and its attributes.
ghost use Rattle.std.specs.Prelude.{◌≡◌, ℕ, List, Some, IfErr, IfOk, option_and_then, option_map};
ghost use Rattle.std.specs.FinMap as finite;
ghost use Rattle.fx_dir.specs.Walk.{kind_in_tree};
ghost use Rattle.fx_plain.specs.Tree.{Tree};
ghost use Rattle.fx_steps.specs.Rows.{attributes_of_node};
ghost use Rattle.fx_namespace.specs.Nodes.{kind_of, node_at};
ghost use Rattle.fx_item.specs.Item.{AttributeKey, ObjectKey, value_of};
ghost use Rattle.fx_item.specs.Look.{MayFail, map_of};
ghost use Rattle.fx_item.specs.Overlay.{live_in};
ghost use Rattle.fx_contents.specs.Points.{named, text_in};
ghost use Rattle.fx_contents.specs.Standing.{StandForTree};
ghost use Rattle.fx_node.specs.Told.{told_length, length_of_node};

use fx_dir::kind_of;
use fx_item::{Bytes, Key, LockKey, Look, LookFault, Name, Value};
use fx_plain::Kind;
use std::alloc::Global;

/// The kind that a node's Object tells, where it has one; the root is a directory. A node that waits
/// in the graveyard has its Object still. One look at most.
pub fn object<L: Look>(alloc: Global, look: &L, at: LockKey) -> Result<Option<Kind>, LookFault>
    ensures found { IfOk result (λ found. found ≡ kind_of (map_of (L.said look.now)) at) }
    // Where the items stand for a tree, it is the kind of what the tree has at the node's path.
    ensures tree { IfOk result (λ found. (f : ℕ → List ℕ) (t : Tree) (path : List (List ℕ))
        → StandForTree (live_in (L.said look.now)) f t
        → node_at (named (live_in (L.said look.now))) path ≡ Some at
        → found ≡ option_map kind_in_tree (finite.get t path)) }
    ensures fault { IfErr result (MayFail (L.lacks look.now)) }
{
    match kind_of(alloc, look, at) {
        Ok(found) => Ok(found),
        Err(fault) => Err(fault),
    }
}

/// The bytes of a file, where the node has the Object of one. One look.
pub fn file_length<L: Look>(alloc: Global, look: &L, at: LockKey) -> Result<Option<u32>, LookFault>
    ensures found { IfOk result (λ found. found
        ≡ told_length (map_of (L.said look.now) (ObjectKey at.store at.id))) }
    // Where the items stand for a tree, it is the length of the file at the node's path.
    ensures tree { IfOk result (λ found. (f : ℕ → List ℕ) (t : Tree) (path : List (List ℕ))
        → StandForTree (live_in (L.said look.now)) f t
        → node_at (named (live_in (L.said look.now))) path ≡ Some at
        → found ≡ option_and_then length_of_node (finite.get t path)) }
    ensures fault { IfErr result (MayFail (L.lacks look.now)) }
{
    let key = Key::Object {
        store: at.store,
        id: at.id,
    };
    match look.get(alloc, &key) {
        Ok(value) => Ok(length_in(value)),
        Err(fault) => Err(fault),
    }
}

/// The length that an Object's value tells.
fn length_in(value: Option<Value>) -> Option<u32>
    ensures { result ≡ told_length (option_map value_of value) }
{
    match value {
        Some(Value::File { length }) => Some(length),
        _ => None,
    }
}

/// The text of the attribute of that name of a node, where it has one. One look.
pub fn attribute<L: Look>(
    alloc: Global,
    look: &L,
    at: LockKey,
    name: &Name,
) -> Result<Option<Bytes>, LookFault>
    ensures found { IfOk result (λ found. found
        ≡ text_in (map_of (L.said look.now) (AttributeKey at.store at.id name.now))) }
    // Where the items stand for a tree, it is the one that the tree has at the node's path.
    ensures tree { IfOk result (λ found. (f : ℕ → List ℕ) (t : Tree) (path : List (List ℕ))
        → StandForTree (live_in (L.said look.now)) f t
        → node_at (named (live_in (L.said look.now))) path ≡ Some at
        → found ≡ option_and_then (λ node. finite.get (attributes_of_node node) name.now)
        (finite.get t path)) }
    ensures fault { IfErr result (MayFail (L.lacks look.now)) }
{
    let key = Key::Attribute {
        store: at.store,
        id: at.id,
        name: name.clone()?,
    };
    match look.get(alloc, &key) {
        Ok(value) => Ok(text_in(value)),
        Err(fault) => Err(fault),
    }
}

/// The text that an attribute's value holds.
fn text_in(value: Option<Value>) -> Option<Bytes>
    ensures { result ≡ text_in (option_map value_of value) }
{
    match value {
        Some(Value::Attribute { text }) => Some(text),
        _ => None,
    }
}
