//! The children of nodes, found by the node that has them.
ghost use Rattle.std.specs.Prelude.{◌≡◌, IfOk, List, map};
ghost use Rattle.fx_item.specs.Look.{value_in};
ghost use Rattle.fx_namespace.specs.Nodes.{object_kind};
ghost use Rattle.fx_nodes.specs.Table.{AreKept};
ghost use Rattle.fx_nodes.specs.Links.{links_from, links_in, links_of, objects_of, targets_in};

use crate::table::ItemTable;
use fx_item::{LockKey, Name};
use fx_plain::Kind;
use std::alloc::{AllocError, Global};
use std::marker::Model;

/// A child: the node that has it, its name there, and the node that it leads to.
#[derive(Clone, Copy, Debug)]
pub(crate) struct Child<'a> {
    pub(crate) parent: LockKey,
    pub(crate) name: &'a Name,
    pub(crate) node: LockKey,
}

/// The root of the tree.
pub(crate) const ROOT: LockKey = LockKey { store: 0, id: 0 };

/// The items of a table, with their children in order.
#[derive(Drop)]
pub(crate) struct Graph<'a> {
    table: &'a ItemTable,
    children: Vec<Child<'a>>,
}

impl<'a> Model for Graph<'a> {
    ghost use Rattle.std.specs.Prelude.{◌≡◌, List};
    ghost use Rattle.fx_item.specs.Item.{PlainItem};
    ghost use Rattle.fx_nodes.specs.Table.{AreKept};
    ghost use Rattle.fx_nodes.specs.Links.{links_in, links_of};

    ghost Value = { List PlainItem };

    ghost view = { λ g. g.table.now.items };

    ghost invariant = { λ g. AreKept g.table.now.items
        × (links_in g.children.items ≡ links_of g.table.now.items) };
}

impl<'a> Graph<'a> {
    /// The items of a table. One pass over them.
    pub(crate) fn new(alloc: Global, table: &'a ItemTable) -> Result<Graph<'a>, AllocError>
        ensures items { IfOk result (λ graph. graph ≡ table.now.items) }
        ensures kept { AreKept table.now.items }
    {
        let children = table.children(alloc)?;
        Ok(Graph { table, children })
    }

    /// The kind that the Object of a node tells. Costs the logarithm of the number of items.
    pub(crate) fn kind(&self, node: LockKey) -> Option<Kind>
        ensures { result ≡ object_kind (value_in self.now) node }
    {
        self.table.kind(node)
    }

    /// The nodes that have an Object, in order. One pass over the items.
    pub(crate) fn objects(&self, alloc: Global) -> Result<Vec<LockKey>, AllocError>
        ensures { IfOk result (λ nodes. nodes.items ≡ objects_of self.now) }
    {
        self.table.objects(alloc)
    }

    /// The nodes that children lead to, as often as they do.
    pub(crate) fn targets(&self, alloc: Global) -> Result<Vec<LockKey>, AllocError>
        ensures { IfOk result (λ nodes. nodes.items ≡ targets_in (links_of self.now)) }
    {
        let mut nodes = Vec::new(alloc);
        for child in self.children() {
            nodes.push(child.node)?;
        }
        Ok(nodes)
    }

    /// All children, in the order of the nodes that have them.
    pub(crate) fn children(&self) -> &[Child<'a>]
        ensures { links_in result.now ≡ links_of self.now }
    {
        self.children.as_slice()
    }

    /// The children of a node, in the order of their names. Two searches by halves.
    pub(crate) fn children_of(&self, node: LockKey) -> &[Child<'a>]
        ensures { links_in result.now ≡ links_from (links_of self.now) node }
    {
        let children = self.children.as_slice();
        let (_, rest) = children.split_at(children.partition_point(|child| child.parent < node));
        let (found, _) = rest.split_at(rest.partition_point(|child| child.parent == node));
        found
    }
}
