//! Walks along paths.
ghost use Rattle.std.specs.Prelude.{◌≡◌, nat_lt, if◌then◌else◌, length, IfErr, IfOk, option_map};
ghost use Rattle.fx_plain.specs.Tree.{Tree};
ghost use Rattle.fx_namespace.specs.Nodes.{kind_of, led_to, told_kind};
ghost use Rattle.fx_namespace.specs.Trees.{Holdings, IsTreeOf};
ghost use Rattle.fx_item.specs.Item.{value_of};
ghost use Rattle.fx_item.specs.Look.{MayFail, map_of};
ghost use Rattle.fx_dir.specs.Walk.{child_with_kind, EndsAfter, EndsInTree, GoesThrough};

use fx_item::{Key, KeyList, LockKey, Look, LookFault, Name, Value};
use fx_plain::{Kind, Path, Refusal};
use std::alloc::Global;

/// The root directory.
pub const ROOT: LockKey = LockKey { store: 0, id: 0 };

/// What a walk along a path met.
#[derive(Debug, Drop)]
pub struct Walk {
    /// The directories that it went through, from the root on.
    pub dirs: KeyList,
    /// Where it ended.
    pub end: WalkEnd,
}

/// Where a walk along a path ended.
#[derive(Clone, Copy, Debug, PartialEq, Eq)]
pub enum WalkEnd {
    /// This node lies at the path.
    Node(LockKey, Kind),
    /// All that the path goes through is a directory, and nothing lies at the path.
    Missing,
    /// Something that the path goes through is missing, or a file.
    Stopped(Refusal),
}

/// Walks along a path from the root on. Two looks for each name.
pub fn walk_path<L: Look>(alloc: Global, look: &L, path: &Path) -> Result<Walk, LookFault>
    // It went through all directories on the way, up to where it ended.
    ensures through { IfOk result
        (λ walk. GoesThrough (map_of (L.said look.now)) path.now walk.dirs) }
    ensures end { IfOk result
        (λ walk. EndsAfter (map_of (L.said look.now)) path.now (length walk.dirs) walk.end) }
    // The walk of the tree that the items make meets the same.
    ensures tree { IfOk result (λ walk. (h : Holdings) (t : Tree)
        → IsTreeOf (map_of (L.said look.now)) h t → EndsInTree t path.now walk.end) }
    ensures fault { IfErr result (MayFail (L.lacks look.now)) }
{
    let names = path.as_slice();
    let mut dirs = Vec::new(alloc);
    let mut at = ROOT;
    let mut kind = Kind::Dir;
    for name in names {
        if kind == Kind::File {
            let end = WalkEnd::Stopped(Refusal::NotDir);
            return Ok(Walk {
                dirs: KeyList::new(dirs),
                end,
            });
        }
        dirs.push(at)?;
        let Some((next, next_kind)) = child(alloc, look, at, name)? else {
            let walked = KeyList::new(dirs);
            let end = nothing_after(walked.as_slice().len(), names.len());
            return Ok(Walk { dirs: walked, end });
        };
        at = next;
        kind = next_kind;
    }
    let end = WalkEnd::Node(at, kind);
    Ok(Walk {
        dirs: KeyList::new(dirs),
        end,
    })
}

/// Where a walk ends whose next node is missing.
fn nothing_after(dirs: usize, names: usize) -> WalkEnd
    ensures { result ≡ (if nat_lt dirs names then WalkEnd.Stopped Refusal.NotFound
        else WalkEnd.Missing) }
{
    if dirs < names {
        return WalkEnd::Stopped(Refusal::NotFound);
    }
    WalkEnd::Missing
}

/// The child of that name in a node, with its kind.
fn child<L: Look>(
    alloc: Global,
    look: &L,
    at: LockKey,
    name: &Name,
) -> Result<Option<(LockKey, Kind)>, LookFault>
    ensures found { IfOk result
        (λ found. found ≡ child_with_kind (map_of (L.said look.now)) at name.now) }
    ensures fault { IfErr result (MayFail (L.lacks look.now)) }
{
    let key = Key::Child {
        store: at.store,
        id: at.id,
        name: name.clone()?,
    };
    let Some(node) = led_to(look.get(alloc, &key)?) else {
        return Ok(None);
    };
    let Some(kind) = kind_of(alloc, look, node)? else {
        return Ok(None);
    };
    Ok(Some((node, kind)))
}

/// The node that a child's value names.
fn led_to(value: Option<Value>) -> Option<LockKey>
    ensures { result ≡ led_to (option_map value_of value) }
{
    match value {
        Some(Value::Child { store, id }) => Some(LockKey { store, id }),
        _ => None,
    }
}

/// The kind of a node, where it is there. The root is a directory. At most one look.
pub fn kind_of<L: Look>(alloc: Global, look: &L, at: LockKey) -> Result<Option<Kind>, LookFault>
    ensures found { IfOk result (λ found. found ≡ kind_of (map_of (L.said look.now)) at) }
    ensures fault { IfErr result (MayFail (L.lacks look.now)) }
{
    if at == ROOT {
        return Ok(Some(Kind::Dir));
    }
    let key = Key::Object {
        store: at.store,
        id: at.id,
    };
    Ok(told_kind(look.get(alloc, &key)?))
}

/// The kind that an Object's value tells.
fn told_kind(value: Option<Value>) -> Option<Kind>
    ensures { result ≡ told_kind (option_map value_of value) }
{
    match value {
        Some(Value::Dir) => Some(Kind::Dir),
        Some(Value::File { .. }) => Some(Kind::File),
        _ => None,
    }
}
