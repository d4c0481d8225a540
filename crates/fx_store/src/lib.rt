//! A mounted disk: the tree in memory, the commits that led to it, and the journal that keeps them.
#![tactic(auto)]

mod commit;
mod nodes;
mod opening;
mod put;
mod raise;
mod session;
mod store;

pub use nodes::NodeMap;
pub use opening::{BeginFault, Contents, Found, MAX_OPENING_NODES, NotBegun, start_of};
pub use store::{Mark, Store, StoreEnd};
