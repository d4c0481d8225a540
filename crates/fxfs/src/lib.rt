//! The file system's top call: from the words of a command, a disk and the bytes of a script to the
//! bytes of the results.
#![tactic(auto)]

mod command;
mod ended;
mod image;
mod line;
mod mkfs;
mod shell;
pub mod status;
mod top;

pub use command::{Command, WordsFault, command_of};
pub use ended::{Ended, Stop};
pub use fx_history::{EndKind, Entry, History, Outcome, Outcomes};
pub use fx_mount::{MkfsFault, MountFault, mkfs as format_disk};
pub use fx_super::{MAX_BLOCKS, MAX_RING, MIN_BLOCKS, MIN_RING};
pub use image::{ImageWord, image_of};
pub use mkfs::mkfs_call;
pub use shell::{MAX_INPUT, shell_call};
pub use top::fxfs_top;
