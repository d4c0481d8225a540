//! The node of each path.
ghost use Rattle.std.specs.Prelude.{◌≡◌, [], IfOk, OnOk, OnErr};
ghost use Rattle.std.specs.FinMap as map;
ghost use Rattle.fx_namespace.specs.Nodes.{root_node};

use fx_item::{LockKey, Name};
use std::alloc::{AllocError, Global};
use std::collections::BTreeMap;
use std::marker::Model;

/// The node that each path leads to, in a sorted map. A path that leads nowhere may have an entry
/// too, which nobody asks for.
#[derive(Drop)]
pub struct NodeMap {
    entries: BTreeMap<Vec<Name>, LockKey>,
}

impl Model for NodeMap {
    ghost use Rattle.fx_store.specs.Nodes.{NodeTable, table_code, table_of};

    ghost Value = { NodeTable };

    ghost coded = { table_code };

    ghost view = { λ n. table_of n.entries.entries };
}

impl NodeMap {
    /// The root alone: node 0 of store 0.
    pub fn new(alloc: Global) -> Result<NodeMap, AllocError>
        ensures { IfOk result (λ nodes. nodes ≡ map.insert map.empty [] root_node) }
    {
        let mut entries = BTreeMap::new(alloc);
        entries.insert(Vec::new(alloc), LockKey { store: 0, id: 0 })?;
        Ok(NodeMap { entries })
    }

    /// The node of a path. Costs the logarithm of the number of paths.
    pub fn get(&self, path: &[Name]) -> Option<LockKey>
        ensures { result ≡ map.get self.now path.now }
    {
        self.entries.get(path).copied()
    }

    /// Puts the node of a path. Where memory is refused nothing changes.
    pub fn put(&mut self, alloc: Global, path: &[Name], node: LockKey) -> Result<(), AllocError>
        ensures ok { OnOk result (self.new ≡ map.insert self.old path.now node) }
        ensures err { OnErr result (self.new ≡ self.old) }
    {
        self.entries.insert(path.to_vec(alloc)?, node)?;
        Ok(())
    }
}
