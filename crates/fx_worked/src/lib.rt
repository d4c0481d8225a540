//! Definitions tried on worked examples: each has a plain slow function whose contract is the definition. No
//! program stands on it.
#![tactic(auto)]

mod choosing;
mod folding;
mod keeping;
mod looking;
mod noting;
mod walking;

pub use choosing::chosen;
pub use folding::{folded, is_in_order};
pub use keeping::kept_from_top;
pub use looking::{Spot, Told, said_at};
pub use noting::{Event, base_noted, calls_noted, last_noted, settled_noted};
pub use walking::stream_in;

#[cfg(test)]
mod tests;
