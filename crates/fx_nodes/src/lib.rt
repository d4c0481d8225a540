//! Items in memory, as a mount reads them: whether they make a tree of nodes, and the tree's nodes.
#![tactic(auto)]

mod checking;
mod graph;
mod laws;
mod reach;
mod table;
mod walk;

pub use checking::check;
pub use laws::{table_laws, wrong_laws};
pub use table::ItemTable;
pub use walk::{TreeNode, TreeNodes, tree_nodes};

#[cfg(test)]
mod tests;
