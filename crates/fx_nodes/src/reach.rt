//! Which nodes children lead to.
ghost use Rattle.std.specs.Prelude.{◌≡◌, ◌+◌, ◌++◌, [], ◌∷◌, IfOk, OnOk, length, true, false};
ghost use Rattle.std.specs.BTreeSet.{btree_set_len};
ghost use Rattle.std.specs.List.{filter};
ghost use Rattle.fx_item.specs.Look.{value_in};
ghost use Rattle.fx_nodes.specs.Lists.{IsIn};
ghost use Rattle.fx_nodes.specs.Links.{links_of, nodes_below, targets_in, targets_of};
ghost use Rattle.fx_nodes.specs.Reach.{AreAdded, AreReached, AreTaken, IsLevel, has};
ghost use Rattle.fx_nodes.specs.Table.{AreKept};
ghost use Rattle.fx_namespace.specs.Nodes.{NodeId};

use crate::graph::{Graph, ROOT};
use fx_item::LockKey;
use std::alloc::{AllocError, Global};
use std::collections::BTreeSet;

/// The nodes that children of these nodes lead to, as often as they do.
pub(crate) fn nodes_below(
    alloc: Global,
    graph: &Graph,
    nodes: &[LockKey],
) -> Result<Vec<LockKey>, AllocError>
    ensures { IfOk result (λ below. below.items ≡ nodes_below (links_of graph.now) nodes.now) }
{
    let mut below = Vec::new(alloc);
    for node in nodes {
        push_targets(graph, *node, &mut below)?;
    }
    Ok(below)
}

/// Appends the nodes that a node's children lead to.
fn push_targets(graph: &Graph, node: LockKey, into: &mut Vec<LockKey>) -> Result<(), AllocError>
    ensures { OnOk result (into.new.items
        ≡ into.old.items ++ targets_of (links_of graph.now) node) }
{
    for child in graph.children_of(node) {
        into.push(child.node)?;
    }
    Ok(())
}

/// The nodes that paths of so many names lead to, each once. Costs the children of those that
/// shorter paths lead to, and sorting them.
pub(crate) fn level(alloc: Global, graph: &Graph, names: usize) -> Result<Vec<LockKey>, AllocError>
    requires { AreKept graph.now }
    ensures { IfOk result (λ level. IsLevel (value_in graph.now) names level.items) }
{
    let mut level = Vec::new(alloc);
    level.push(ROOT)?;
    for _shorter in 0..names {
        level = nodes_below(alloc, graph, &level)?;
        level.sort()?;
        level.dedup();
    }
    Ok(level)
}

/// The nodes that children lead to from some nodes on, these among them; what is left of `left` is
/// what they do not lead to. Costs the children of these nodes, and the logarithm of the number
/// left for each.
pub(crate) fn spread(
    alloc: Global,
    graph: &Graph,
    seeds: Vec<LockKey>,
    left: &mut BTreeSet<LockKey>,
) -> Result<Vec<LockKey>, AllocError>
    requires kept { AreKept graph.now }
    requires seeds { (node : NodeId) → IsIn seeds.items node → has left.old node ≡ true }
    requires targets { (node : NodeId) → IsIn (targets_in (links_of graph.now)) node
        → has left.old node ≡ true }
    ensures { IfOk result (λ all. AreReached (value_in graph.now) (has left.old)
        (has left.new) seeds.items all.items) }
{
    let mut all = Vec::new(alloc);
    let mut fresh = take_from(alloc, left, seeds)?;
    'rounds: while !fresh.is_empty() {
        let below = nodes_below(alloc, graph, &fresh)?;
        all.append(&mut fresh)?;
        fresh = take_from(alloc, left, below)?;
    }
    Ok(all)
}

/// Takes nodes out of a set: those that were in it, each once.
fn take_from(
    alloc: Global,
    left: &mut BTreeSet<LockKey>,
    nodes: Vec<LockKey>,
) -> Result<Vec<LockKey>, AllocError>
    ensures taken { IfOk result
        (λ fresh. AreTaken (has left.old) (has left.new) nodes.items fresh.items) }
    ensures count { IfOk result (λ fresh. btree_set_len left.new + length fresh.items
        ≡ btree_set_len left.old) }
{
    let mut fresh = Vec::new(alloc);
    for node in nodes {
        if left.remove(&node) {
            fresh.push(node)?;
        }
    }
    Ok(fresh)
}

/// The set of these nodes.
pub(crate) fn set_of(alloc: Global, nodes: &[LockKey]) -> Result<BTreeSet<LockKey>, AllocError>
    ensures { IfOk result (λ set. AreAdded (λ node. false) (has set) nodes.now) }
{
    let mut set = BTreeSet::new(alloc);
    add_all(&mut set, nodes)?;
    Ok(set)
}

/// Adds nodes to a set.
pub(crate) fn add_all(set: &mut BTreeSet<LockKey>, nodes: &[LockKey]) -> Result<(), AllocError>
    ensures { OnOk result (AreAdded (has set.old) (has set.new) nodes.now) }
{
    for node in nodes {
        set.insert(*node)?;
    }
    Ok(())
}

/// Those of the nodes that a set holds.
pub(crate) fn those_in(
    alloc: Global,
    set: &BTreeSet<LockKey>,
    nodes: &[LockKey],
) -> Result<Vec<LockKey>, AllocError>
    ensures { IfOk result (λ held. held.items ≡ filter (has set.now) nodes.now) }
{
    nodes
        .iter()
        .copied()
        .filter(|node| set.contains(node))
        .collect(alloc)
}
