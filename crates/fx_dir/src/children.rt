//! The children of a directory.
ghost use Rattle.std.specs.Prelude.{◌≡◌, ℕ, List, ◌++◌, ◌∷◌, [], Some, Contains, IfErr, IfOk, IfSome, option_map};
ghost use Rattle.fx_plain.specs.Tree.{Tree, children};
ghost use Rattle.fx_namespace.specs.Nodes.{Stands, node_at};
ghost use Rattle.fx_namespace.specs.Trees.{Holdings, IsTreeOf};
ghost use Rattle.fx_item.specs.Item.{ChildKey, item_of};
ghost use Rattle.fx_item.specs.Look.{MayFail, map_of};
ghost use Rattle.fx_dir.specs.Children.{AreChildren, IsFirstChild, child_name_at};

use fx_item::{Item, Key, LockKey, Look, LookFault, Name};
use fx_plain::Names;
use std::alloc::{AllocError, Global};

/// The names of a node's children, in the order of their bytes. One look for each, and one more.
pub fn names<L: Look>(alloc: Global, look: &L, at: LockKey) -> Result<Names, LookFault>
    ensures items { IfOk result (λ names. AreChildren (map_of (L.said look.now)) at names) }
    // Where the items stand and make a tree, these are that tree's children at each path to the
    // node.
    ensures tree { IfOk result (λ names. (path : List (List ℕ)) (h : Holdings) (t : Tree)
        → Stands (map_of (L.said look.now)) → IsTreeOf (map_of (L.said look.now)) h t
        → node_at (map_of (L.said look.now)) path ≡ Some at → names ≡ children t path) }
    ensures fault { IfErr result (MayFail (L.lacks look.now)) }
{
    let mut names = Vec::new(alloc);
    let mut from = Name::new(Vec::new(alloc));
    while let Some(name) = next_child(alloc, look, at, from)? {
        from = name_after(alloc, &name)?;
        names.push(name)?;
    }
    Ok(Names::new(names))
}

/// The first child's name from a name on. One look. No name comes before the empty one.
pub fn next_child<L: Look>(
    alloc: Global,
    look: &L,
    at: LockKey,
    from: Name,
) -> Result<Option<Name>, LookFault>
    ensures first { IfOk result (λ found. IsFirstChild (map_of (L.said look.now)) at from found) }
    ensures listed { IfOk result
        (λ found. IfSome found
        (λ name. Contains (L.keys look.now) (ChildKey at.store at.id name))) }
    ensures fault { IfErr result (MayFail (L.lacks look.now)) }
{
    let key = Key::Child {
        store: at.store,
        id: at.id,
        name: from,
    };
    Ok(child_name(at, look.next_from(alloc, &key)?))
}

/// The name under which an item is a child of a node, if it is one.
fn child_name(at: LockKey, item: Option<Item>) -> Option<Name>
    ensures { result ≡ child_name_at at (option_map item_of item) }
{
    let Some(Item { key, .. }) = item else {
        return None;
    };
    match key {
        Key::Child { store, id, name } if LockKey { store, id } == at => Some(name),
        _ => None,
    }
}

/// The least name above a name: the same with a zero behind it.
pub fn name_after(alloc: Global, name: &Name) -> Result<Name, AllocError>
    ensures { IfOk result (λ after. after ≡ name.now ++ 0 ∷ []) }
{
    let mut letters = name.as_slice().to_vec(alloc)?;
    letters.push(0)?;
    Ok(Name::new(letters))
}
