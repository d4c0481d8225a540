//! Whether items make a tree of nodes.
ghost use Rattle.std.specs.Prelude.{◌≡◌, ◌++◌, IfNone, IfOk, IfSome, OnOk};
ghost use Rattle.std.specs.List.{flat_map};
ghost use Rattle.fx_item.specs.Look.{value_in};
ghost use Rattle.fx_namespace.specs.Nodes.{Stands, object_kind};
ghost use Rattle.fx_namespace.specs.Wrong.{IsLeastWrong};
ghost use Rattle.fx_nodes.specs.Faults.{AreDeep, AreLost, AreRepeated, IsLeastNode, is_childless, is_wrong_child, may_be, may_lead, wrong_by};
ghost use Rattle.fx_nodes.specs.Links.{link_of, links_of, objects_of, targets_in};
ghost use Rattle.fx_nodes.specs.Table.{AreKept};

use crate::graph::{Child, Graph, ROOT};
use crate::reach::{add_all, level, nodes_below, set_of, spread, those_in};
use crate::table::ItemTable;
use fx_item::LockKey;
use fx_plain::{Kind, MAX_NAMES};
use std::alloc::{AllocError, Global};
use std::collections::BTreeSet;

/// The least node, by store and id, at which the items do not make a tree of nodes; `None` where
/// they make one. Costs one pass over the items, sorting, and a look at the Object of each child;
/// where paths are too long or nodes have many parents, up to 65 times the children.
pub fn check(alloc: Global, table: &ItemTable) -> Result<Option<LockKey>, AllocError>
    ensures stands { IfOk result (λ found. IfNone found (Stands (value_in table.now.items))) }
    ensures wrong { IfOk result
        (λ found. IfSome found (λ node. IsLeastWrong (value_in table.now.items) node)) }
{
    let graph = Graph::new(alloc, table)?;
    let mut wrong = misplaced(alloc, &graph)?;
    wrong.append(&mut led_twice(alloc, &graph)?)?;
    wrong.append(&mut lost(alloc, &graph)?)?;
    wrong.append(&mut too_deep(alloc, &graph)?)?;
    Ok(least(&wrong))
}

/// The least of some nodes, by store and id.
fn least(nodes: &[LockKey]) -> Option<LockKey>
    ensures { IsLeastNode nodes.now result }
{
    nodes.iter().copied().min()
}

/// The nodes that are wrong by one child: a child leads to them that may not, or they have no
/// Object, or the root has them and they are no directory; and the nodes that have a child and are
/// no directory.
fn misplaced(alloc: Global, graph: &Graph) -> Result<Vec<LockKey>, AllocError>
    ensures { IfOk result (λ wrong. wrong.items
        ≡ flat_map (wrong_by (value_in graph.now)) (links_of graph.now)) }
{
    let mut wrong = Vec::new(alloc);
    for child in graph.children() {
        push_wrong(graph, child, &mut wrong)?;
    }
    Ok(wrong)
}

fn push_wrong(graph: &Graph, child: &Child, wrong: &mut Vec<LockKey>) -> Result<(), AllocError>
    ensures { OnOk result (wrong.new.items
        ≡ wrong.old.items ++ wrong_by (value_in graph.now) (link_of child.now)) }
{
    if is_wrong_child(graph, child) {
        wrong.push(child.node)?;
    }
    if is_childless(child.parent, graph.kind(child.parent)) {
        wrong.push(child.parent)?;
    }
    Ok(())
}

fn is_wrong_child(graph: &Graph, child: &Child) -> bool
    ensures { result ≡ is_wrong_child (value_in graph.now) (link_of child.now) }
{
    !may_lead(child.parent, child.node) || !may_be(child.parent, graph.kind(child.node))
}

/// Whether a child of one node may lead to another: one of the root to node 0 of a store, from
/// store 1 on, and any other to a node of its own store, from id 1 on.
fn may_lead(parent: LockKey, node: LockKey) -> bool
    ensures { result ≡ may_lead parent node }
{
    if parent == ROOT {
        return node.id == 0 && node.store >= 1;
    }
    node.store == parent.store && node.id >= 1
}

/// Whether what a child of that node leads to may be of that kind: one of the root a directory, and
/// any other a directory or a file.
fn may_be(parent: LockKey, kind: Option<Kind>) -> bool
    ensures { result ≡ may_be parent kind }
{
    match kind {
        None => false,
        Some(Kind::Dir) => true,
        Some(Kind::File) => parent != ROOT,
    }
}

/// Whether a node of that kind may not have a child.
fn is_childless(node: LockKey, kind: Option<Kind>) -> bool
    ensures { result ≡ is_childless node kind }
{
    match kind {
        Some(Kind::Dir) => false,
        _ => node != ROOT,
    }
}

/// The nodes that more than one child leads to.
fn led_twice(alloc: Global, graph: &Graph) -> Result<Vec<LockKey>, AllocError>
    ensures { IfOk result (λ twice. AreRepeated (targets_in (links_of graph.now)) twice.items) }
{
    let mut led = BTreeSet::new(alloc);
    let mut twice = Vec::new(alloc);
    for node in graph.targets(alloc)? {
        if !led.insert(node)? {
            twice.push(node)?;
        }
    }
    Ok(twice)
}

/// The nodes that have an Object, and that no path of one or more names leads to.
fn lost(alloc: Global, graph: &Graph) -> Result<Vec<LockKey>, AllocError>
    requires { AreKept graph.now }
    ensures { IfOk result (λ lost. AreLost (value_in graph.now) (objects_of graph.now) lost.items) }
{
    let objects = graph.objects(alloc)?;
    let mut left = set_of(alloc, &graph.targets(alloc)?)?;
    add_all(&mut left, &objects)?;
    let top = nodes_below(alloc, graph, &[ROOT])?;
    spread(alloc, graph, top, &mut left)?;
    those_in(alloc, &left, &objects)
}

/// The nodes that paths of more than 64 names lead to.
fn too_deep(alloc: Global, graph: &Graph) -> Result<Vec<LockKey>, AllocError>
    requires { AreKept graph.now }
    ensures { IfOk result (λ deep. AreDeep (value_in graph.now) deep.items) }
{
    let seeds = level(alloc, graph, MAX_NAMES + 1)?;
    if seeds.is_empty() {
        return Ok(seeds);
    }
    let mut left = set_of(alloc, &graph.targets(alloc)?)?;
    spread(alloc, graph, seeds, &mut left)
}
