//! Where bytes come from and where they go: sources and sinks, the calls that read or write a whole
//! text, ends in memory that fail on demand, and the standard streams.
#![tactic(auto)]

mod memory;
mod sink;
mod source;
mod standard;
#[cfg(test)]
mod tests;

pub use memory::{MemSink, MemSource};
pub use sink::{Sink, write_whole};
pub use source::{ReadAllFault, Source, read_whole};
pub use standard::{StdSink, StdSource};
use thiserror::Error;

/// A call of a source or a sink failed, and the object counted it.
#[derive(Clone, Copy, Debug, PartialEq, Eq, Error)]
#[error("a call of a source or a sink failed")]
pub struct Failed;
