//! A lock round one value with a log that only grows, whose holders know its history.
//!
//! A [`Turn`] has one word and one slot: the word is 0 while the turn is free, and the slot then has the
//! value. Who wants the turn hands in a [`Pass`], which says how much of the log it has seen, how many
//! counted notes were added under it, and which parts of the value are its own. [`Turn::take`] waits
//! and gives a [`Taken`]: the value, whose log begins with all that the pass has seen, and in which the
//! pass's own parts are as it left them. [`Turn::give`] puts the value back and gives the pass,
//! which has then seen the whole log.
//!
//! [`Turn::new`] makes the first pass, with all shares, all parts and all counted notes.
//! [`Turn::split`] cuts a share and one number's part off a pass, for another thread, and
//! [`Turn::join`] puts two passes together. Who has all shares again has seen the whole log, and
//! [`Turn::close`] gives the value.
//!
//! Each call takes one or two atomic steps, and `take` and `give` move the value; a thread that waits
//! sleeps. Nothing is promised about who is served, or when.
#![tactic(auto)]

mod growing;
mod lock;
mod pass;
mod rule;
#[cfg(test)]
mod tests;
mod view;

pub use growing::Growing;
pub use lock::Turn;
pub use pass::{Held, Pass, Taken};
