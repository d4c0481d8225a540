//! Walks along paths, to the last step of each.
ghost use Rattle.std.specs.Prelude.{◌≡◌, ◌++◌, ◌∷◌, ℕ, List, [], length, option_map, IfErr, IfOk, IfSome, None};
ghost use Rattle.fx_item.specs.Item.{AttributeKey, value_of};
ghost use Rattle.fx_item.specs.Look.{ItemMap, MayFail};
ghost use Rattle.fx_item.specs.Overlay.{live_in};
ghost use Rattle.fx_contents.specs.Points.{value_under};
ghost use Rattle.fx_dir.specs.Walk.{GoesThrough};
ghost use Rattle.fx_tree.specs.Planned.{IsLastStep, MeetsWalk};

use fx_contents::look_laws;
use fx_dir::{Walk, walk_path};
use fx_item::{Key, KeyList, LockKey, Look, LookFault, Name, Value};
use fx_plain::Path;
use std::alloc::Global;

/// Walks along a path from the root on. Two looks for each name.
pub(crate) fn walk_along<L: Look>(alloc: Global, look: &L, path: &Path) -> Result<Walk, LookFault>
    ensures met { IfOk result
        (λ walk. MeetsWalk (live_in (L.said look.now)) path.now walk.dirs walk.end) }
    ensures fault { IfErr result (MayFail (L.lacks look.now)) }
{
    look_laws();
    let walk = walk_path(alloc, look, path)?;
    Ok(walk)
}

/// The directory above what lies at a path, and the path's last name. The root has none.
pub(crate) fn last_step<'a>(dirs: &KeyList, path: &'a Path) -> Option<(LockKey, &'a Name)>
    requires { length dirs.now ≡ length path.now }
    ensures last { IfSome result (λ last. (m : ItemMap) → GoesThrough m path.now dirs.now
        → IsLastStep m path.now last.0 last.1.now) }
    ensures named { IfSome result
        (λ last. (above : List (List ℕ)) × (path.now ≡ above ++ last.1.now ∷ [])) }
    ensures root { result ≡ None → path.now ≡ [] }
{
    let Some((name, _)) = path.as_slice().split_last() else {
        return None;
    };
    let Some((parent, _)) = dirs.as_slice().split_last() else {
        return None;
    };
    let parent = *parent;
    Some((parent, name))
}

/// What stands as an attribute of a node. One look.
pub(crate) fn attribute_of<L: Look>(
    alloc: Global,
    look: &L,
    at: LockKey,
    name: &Name,
) -> Result<Option<Value>, LookFault>
    ensures found { IfOk result (λ found. option_map value_of found
        ≡ value_under (live_in (L.said look.now)) (AttributeKey at.store at.id name.now)) }
    ensures fault { IfErr result (MayFail (L.lacks look.now)) }
{
    look_laws();
    let key = Key::Attribute {
        store: at.store,
        id: at.id,
        name: name.clone()?,
    };
    let found = look.get(alloc, &key)?;
    Ok(found)
}
