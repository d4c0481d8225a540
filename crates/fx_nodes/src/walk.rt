//! The nodes of a tree that items make.
ghost use Rattle.std.specs.Prelude.{◌≡◌, ◌++◌, ◌∷◌, [], IfOk, OnOk};
ghost use Rattle.fx_item.specs.Look.{value_in};
ghost use Rattle.fx_namespace.specs.Nodes.{Stands};
ghost use Rattle.fx_nodes.specs.Tree.{AreTreeNodes, all_below, below, levels};

use crate::graph::{Graph, ROOT};
use crate::table::ItemTable;
use fx_base::List;
use fx_item::{LockKey, Name};
use fx_plain::{Kind, MAX_NAMES, Path};
use std::alloc::{AllocError, Global};

/// A path of one or more names, the node that it leads to, and what that is.
#[derive(Debug, Drop)]
pub struct TreeNode {
    pub path: Path,
    pub node: LockKey,
    pub kind: Kind,
}

/// Nodes of a tree, one after another.
pub type TreeNodes = List<TreeNode>;

/// The nodes of the tree that the items make, but the root: each with the path that leads to it,
/// parents before their children. Costs one pass over the items, two searches and a look at the
/// Object for each node, and the bytes of all paths.
pub fn tree_nodes(alloc: Global, table: &ItemTable) -> Result<TreeNodes, AllocError>
    requires { Stands (value_in table.now.items) }
    ensures { IfOk result (λ nodes. AreTreeNodes (value_in table.now.items) nodes) }
{
    let graph = Graph::new(alloc, table)?;
    let nodes = all_levels(alloc, &graph)?;
    Ok(TreeNodes::new(nodes))
}

/// The nodes that paths of one name and more lead to, the shorter paths first.
fn all_levels(alloc: Global, graph: &Graph) -> Result<Vec<TreeNode>, AllocError>
    ensures { IfOk result (λ nodes. nodes.items ≡ levels graph.now MAX_NAMES) }
{
    let mut all = Vec::new(alloc);
    let mut level = Vec::new(alloc);
    push_below(alloc, graph, &[], ROOT, &mut level)?;
    for _depth in 0..MAX_NAMES {
        let below = level_below(alloc, graph, &level)?;
        all.append(&mut level)?;
        level = below;
    }
    Ok(all)
}

/// The children of some nodes, parent by parent.
fn level_below(
    alloc: Global,
    graph: &Graph,
    level: &[TreeNode],
) -> Result<Vec<TreeNode>, AllocError>
    ensures { IfOk result (λ below. below.items ≡ all_below graph.now level.now) }
{
    let mut below = Vec::new(alloc);
    for parent in level {
        push_below(
            alloc,
            graph,
            parent.path.as_slice(),
            parent.node,
            &mut below,
        )?;
    }
    Ok(below)
}

/// Appends the children of the node at a path.
fn push_below(
    alloc: Global,
    graph: &Graph,
    path: &[Name],
    node: LockKey,
    into: &mut Vec<TreeNode>,
) -> Result<(), AllocError>
    ensures { OnOk result (into.new.items ≡ into.old.items ++ below graph.now path.now node) }
{
    for child in graph.children_of(node) {
        into.push(TreeNode {
            path: longer(alloc, path, child.name)?,
            node: child.node,
            kind: graph.kind(child.node).unwrap_or(Kind::Dir),
        })?;
    }
    Ok(())
}

/// A path with one more name.
fn longer(alloc: Global, path: &[Name], name: &Name) -> Result<Path, AllocError>
    ensures { IfOk result (λ longer. longer ≡ path.now ++ name.now ∷ []) }
{
    let mut names = Vec::with_capacity(alloc, path.len() + 1)?;
    for above in path {
        names.push(above.clone()?)?;
    }
    names.push(name.clone()?)?;
    Ok(Path::new(names))
}
