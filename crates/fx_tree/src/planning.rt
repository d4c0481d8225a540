//! The plans of steps that change names and attributes.
ghost use Rattle.std.specs.Prelude.{◌≡◌, ◌⊎◌, ◌≤◌, [], true, length, ℕ, is_some, option_map, IfErr, IfOk, None, Some};
ghost use Rattle.std.specs.List.{AllByRecursion};
ghost use Rattle.fx_item.specs.Item.{IsAttributeText, items_of, value_of};
ghost use Rattle.fx_item.specs.Look.{ItemMap, MayFail};
ghost use Rattle.fx_item.specs.Name.{is_name};
ghost use Rattle.fx_item.specs.Overlay.{live_in, says};
ghost use Rattle.fx_contents.specs.Points.{text_in};
ghost use Rattle.fx_dir.specs.Walk.{GoesThrough};
ghost use Rattle.fx_plain.specs.declared.path.TheConstants.{MAX_NAMES};
ghost use Rattle.fx_tree.specs.Planned.{AreInKeyOrder, SaysAttribute, HasChild, IsFullDir, IsOrderedPlan, PlansStep, SaysLastBurial, SaysNextNode};

use crate::items::{attribute, entry, grave, new_object, node_below, one_item, two_items};
use crate::walking::{attribute_of, last_step, walk_along};
use fx_contents::look_laws;
use fx_dir::{WalkEnd, next_child};
use fx_item::{Bytes, Items, KeyList, LockKey, Look, LookFault, Name, Value};
use fx_plain::{Kind, Path, Refusal, Step};
use fx_steps::{StepRefusal, TreeStep};
use std::alloc::{AllocError, Global};

/// What a step comes to.
#[derive(Debug, Drop)]
pub enum StepPlanned {
    /// The step is refused.
    Refused(StepRefusal),
    /// These items, in order, do it.
    Fine(Items),
}

/// Plans a new directory, which gets this id, or in the root this store. Two looks for each name.
pub fn plan_mkdir<L: Look>(
    alloc: Global,
    look: &L,
    path: &Path,
    id: u64,
    store: u32,
) -> Result<StepPlanned, LookFault>
    requires few { length path.now ≤ MAX_NAMES }
    requires names { AllByRecursion (λ name. is_name name ≡ true) path.now }
    ensures planned { IfOk result (PlansStep (live_in (L.said look.now)) id store
        (TreeStep.Basic (Step.Mkdir path.now))) }
    ensures ordered { IfOk result IsOrderedPlan }
    ensures fault { IfErr result (MayFail (L.lacks look.now)) }
{
    let walk = walk_along(alloc, look, path)?;
    match walk.end {
        WalkEnd::Node(..) => Ok(StepPlanned::Refused(StepRefusal::Basic(Refusal::Exists))),
        WalkEnd::Stopped(refusal) => Ok(StepPlanned::Refused(StepRefusal::Basic(refusal))),
        WalkEnd::Missing => {
            let items = new_node(alloc, &walk.dirs, path, Kind::Dir, id, store)?;
            Ok(StepPlanned::Fine(items))
        }
    }
}

/// Plans an empty file, which gets this id. Two looks for each name.
pub fn plan_create<L: Look>(
    alloc: Global,
    look: &L,
    path: &Path,
    id: u64,
    store: u32,
) -> Result<StepPlanned, LookFault>
    requires few { length path.now ≤ MAX_NAMES }
    requires names { AllByRecursion (λ name. is_name name ≡ true) path.now }
    ensures planned { IfOk result (PlansStep (live_in (L.said look.now)) id store
        (TreeStep.Basic (Step.Create path.now))) }
    ensures ordered { IfOk result IsOrderedPlan }
    ensures fault { IfErr result (MayFail (L.lacks look.now)) }
{
    if path.len() < 2 {
        return Ok(StepPlanned::Refused(StepRefusal::Basic(Refusal::NotVolume)));
    }
    let walk = walk_along(alloc, look, path)?;
    match walk.end {
        WalkEnd::Node(..) => Ok(StepPlanned::Refused(StepRefusal::Basic(Refusal::Exists))),
        WalkEnd::Stopped(refusal) => Ok(StepPlanned::Refused(StepRefusal::Basic(refusal))),
        WalkEnd::Missing => {
            let items = new_node(alloc, &walk.dirs, path, Kind::File, id, store)?;
            Ok(StepPlanned::Fine(items))
        }
    }
}

/// The items of a new node at a path, whose walk went through these directories.
fn new_node(
    alloc: Global,
    dirs: &KeyList,
    path: &Path,
    kind: Kind,
    id: u64,
    store: u32,
) -> Result<Items, AllocError>
    requires last { length dirs.now ≡ length path.now }
    requires names { AllByRecursion (λ name. is_name name ≡ true) path.now }
    ensures made { IfOk result (λ items. (m : ItemMap) → GoesThrough m path.now dirs.now
        → (path.now ≡ []) ⊎ SaysNextNode m path.now kind id store (says (items_of items))) }
    ensures ordered { IfOk result (λ items. AreInKeyOrder (items_of items)) }
{
    let Some((parent, name)) = last_step(dirs, path) else {
        return Ok(Items::empty(alloc));
    };
    let node = node_below(parent, id, store);
    let value = Value::Child {
        store: node.store,
        id: node.id,
    };
    let child = entry(parent, name, value)?;
    two_items(alloc, child, new_object(node, kind))
}

/// Plans that a file, or a directory without children, goes into the graveyard. Two looks for each
/// name, and one at the children of a directory.
pub fn plan_remove<L: Look>(alloc: Global, look: &L, path: &Path) -> Result<StepPlanned, LookFault>
    requires names { AllByRecursion (λ name. is_name name ≡ true) path.now }
    ensures planned { (id store : ℕ) → IfOk result (PlansStep (live_in (L.said look.now)) id store
        (TreeStep.Remove path.now)) }
    ensures ordered { IfOk result IsOrderedPlan }
    ensures fault { IfErr result (MayFail (L.lacks look.now)) }
{
    if path.is_empty() {
        return Ok(StepPlanned::Refused(StepRefusal::Basic(Refusal::NotVolume)));
    }
    let walk = walk_along(alloc, look, path)?;
    match walk.end {
        WalkEnd::Stopped(refusal) => Ok(StepPlanned::Refused(StepRefusal::Basic(refusal))),
        WalkEnd::Missing => Ok(StepPlanned::Refused(StepRefusal::Basic(Refusal::NotFound))),
        WalkEnd::Node(node, kind) => {
            if is_full(alloc, look, node, kind)? {
                return Ok(StepPlanned::Refused(StepRefusal::NotEmpty));
            }
            let items = burial(alloc, &walk.dirs, path, node)?;
            Ok(StepPlanned::Fine(items))
        }
    }
}

/// Whether the node has a child. One look.
fn has_child<L: Look>(alloc: Global, look: &L, at: LockKey) -> Result<bool, LookFault>
    ensures found { IfOk result (λ found. HasChild (live_in (L.said look.now)) at found) }
    ensures fault { IfErr result (MayFail (L.lacks look.now)) }
{
    look_laws();
    let first = Name::new(Vec::new(alloc));
    let Some(_name) = next_child(alloc, look, at, first)? else {
        return Ok(false);
    };
    Ok(true)
}

/// Whether the node, which is of that kind, is a directory with a child.
fn is_full<L: Look>(alloc: Global, look: &L, at: LockKey, kind: Kind) -> Result<bool, LookFault>
    ensures found { IfOk result (λ found. IsFullDir (live_in (L.said look.now)) at kind found) }
    ensures fault { IfErr result (MayFail (L.lacks look.now)) }
{
    match kind {
        Kind::Dir => has_child(alloc, look, at),
        Kind::File => Ok(false),
    }
}

/// The items of a removal of the node at a path, whose walk went through these directories.
fn burial(alloc: Global, dirs: &KeyList, path: &Path, node: LockKey) -> Result<Items, AllocError>
    requires last { length dirs.now ≡ length path.now }
    requires names { AllByRecursion (λ name. is_name name ≡ true) path.now }
    ensures buried { IfOk result (λ items. (m : ItemMap) → GoesThrough m path.now dirs.now
        → (path.now ≡ []) ⊎ SaysLastBurial m path.now node (says (items_of items))) }
    ensures ordered { IfOk result (λ items. AreInKeyOrder (items_of items)) }
{
    let Some((parent, name)) = last_step(dirs, path) else {
        return Ok(Items::empty(alloc));
    };
    let gone = entry(parent, name, Value::Gone)?;
    two_items(alloc, gone, grave(node))
}

/// Plans that a node gets an attribute, in the place of one of that name if there is one. Two looks
/// for each name of the path.
pub fn plan_set_attr<L: Look>(
    alloc: Global,
    look: &L,
    path: &Path,
    name: &Name,
    value: &Bytes,
) -> Result<StepPlanned, LookFault>
    requires name { is_name name.now ≡ true }
    requires value { IsAttributeText value.now }
    ensures planned { (id store : ℕ) → IfOk result (PlansStep (live_in (L.said look.now)) id store
        (TreeStep.SetAttr path.now name.now value.now)) }
    ensures ordered { IfOk result IsOrderedPlan }
    ensures fault { IfErr result (MayFail (L.lacks look.now)) }
{
    if path.is_empty() {
        return Ok(StepPlanned::Refused(StepRefusal::Basic(Refusal::NotVolume)));
    }
    let walk = walk_along(alloc, look, path)?;
    match walk.end {
        WalkEnd::Stopped(refusal) => Ok(StepPlanned::Refused(StepRefusal::Basic(refusal))),
        WalkEnd::Missing => Ok(StepPlanned::Refused(StepRefusal::Basic(Refusal::NotFound))),
        WalkEnd::Node(node, _) => {
            let text = value.clone()?;
            let item = attribute(node, name, Value::Attribute { text })?;
            let items = one_item(alloc, item)?;
            Ok(StepPlanned::Fine(items))
        }
    }
}

/// Plans that an attribute is taken away from a node. Two looks for each name of the path, and one.
pub fn plan_del_attr<L: Look>(
    alloc: Global,
    look: &L,
    path: &Path,
    name: &Name,
) -> Result<StepPlanned, LookFault>
    requires name { is_name name.now ≡ true }
    ensures planned { (id store : ℕ) → IfOk result (PlansStep (live_in (L.said look.now)) id store
        (TreeStep.DelAttr path.now name.now)) }
    ensures ordered { IfOk result IsOrderedPlan }
    ensures fault { IfErr result (MayFail (L.lacks look.now)) }
{
    if path.is_empty() {
        return Ok(StepPlanned::Refused(StepRefusal::Basic(Refusal::NotVolume)));
    }
    let walk = walk_along(alloc, look, path)?;
    match walk.end {
        WalkEnd::Stopped(refusal) => Ok(StepPlanned::Refused(StepRefusal::Basic(refusal))),
        WalkEnd::Missing => Ok(StepPlanned::Refused(StepRefusal::Basic(Refusal::NotFound))),
        WalkEnd::Node(node, _) => {
            if !has_attribute(alloc, look, node, name)? {
                return Ok(StepPlanned::Refused(StepRefusal::NoAttr));
            }
            let item = attribute(node, name, Value::Gone)?;
            let items = one_item(alloc, item)?;
            Ok(StepPlanned::Fine(items))
        }
    }
}

/// Whether the node has the attribute. One look.
fn has_attribute<L: Look>(
    alloc: Global,
    look: &L,
    at: LockKey,
    name: &Name,
) -> Result<bool, LookFault>
    ensures found { IfOk result
        (λ found. SaysAttribute (live_in (L.said look.now)) at name.now found) }
    ensures fault { IfErr result (MayFail (L.lacks look.now)) }
{
    let found = attribute_of(alloc, look, at, name)?;
    Ok(is_text(&found))
}

/// Whether the value is that of an attribute.
fn is_text(value: &Option<Value>) -> bool
    ensures { result ≡ is_some (text_in (option_map value_of value.now)) }
{
    matches!(value, Some(Value::Attribute { .. }))
}
