//! The nodes that wait in the graveyard.
ghost use Rattle.std.specs.Prelude.{◌≡◌, ◌<◌, ◌+◌, IfErr, IfOk, option_map};
ghost use Rattle.fx_item.specs.Item.{item_of};
ghost use Rattle.fx_item.specs.Look.{MayFail, map_of};
ghost use Rattle.fx_node.specs.Waiting.{AreGraves, IsNextNodeIn, next_node_by, node_rank, rank_from};

use fx_dir::ROOT;
use fx_item::{Item, Key, KeyList, LockKey, Look, LookFault};
use std::alloc::Global;

/// The nodes that wait in the graveyard, by store and id. Two looks at most for each node that has
/// items, and one more.
pub fn graves<L: Look>(alloc: Global, look: &L) -> Result<KeyList, LookFault>
    ensures graves { IfOk result (λ nodes. AreGraves (map_of (L.said look.now)) nodes) }
    ensures fault { IfErr result (MayFail (L.lacks look.now)) }
{
    let mut nodes = Vec::new(alloc);
    let mut from = Some(ROOT);
    'nodes: while let Some(at) = from {
        let Some(next) = next_node(alloc, look, at)? else {
            return Ok(KeyList::new(nodes));
        };
        if next.waits {
            nodes.push(next.node)?;
            from = after(next.node);
        } else {
            from = Some(next.node);
        }
    }
    Ok(KeyList::new(nodes))
}

/// A node that has items, and whether it is known to wait in the graveyard.
#[derive(Clone, Copy)]
pub(crate) struct NextNode {
    node: LockKey,
    waits: bool,
}

/// The first node from one on that waits in the graveyard, or an earlier one that has items. One
/// look.
fn next_node<L: Look>(alloc: Global, look: &L, from: LockKey) -> Result<Option<NextNode>, LookFault>
    ensures next { IfOk result (λ next. IsNextNodeIn (map_of (L.said look.now)) from next) }
    ensures fault { IfErr result (MayFail (L.lacks look.now)) }
{
    let key = Key::Grave {
        store: from.store,
        id: from.id,
    };
    match look.next_from(alloc, &key) {
        Ok(item) => Ok(node_of(item)),
        Err(fault) => Err(fault),
    }
}

/// The node of an item, and whether the item is its grave.
fn node_of(item: Option<Item>) -> Option<NextNode>
    ensures { result ≡ next_node_by (option_map item_of item) }
{
    let Some(Item { key, .. }) = item else {
        return None;
    };
    match key {
        Key::Grave { store, id } => Some(NextNode {
            node: LockKey { store, id },
            waits: true,
        }),
        Key::Object { store, id }
        | Key::Attribute { store, id, .. }
        | Key::Extent { store, id, .. }
        | Key::Child { store, id, .. } => Some(NextNode {
            node: LockKey { store, id },
            waits: false,
        }),
        Key::Allocation { .. } => None,
    }
}

/// The node behind one, unless it is the last.
fn after(at: LockKey) -> Option<LockKey>
    ensures { rank_from result ≡ node_rank at + 1 }
{
    if at.id < u64::MAX {
        return Some(LockKey {
            store: at.store,
            id: at.id + 1,
        });
    }
    if at.store < u32::MAX {
        return Some(LockKey {
            store: at.store + 1,
            id: 0,
        });
    }
    None
}
