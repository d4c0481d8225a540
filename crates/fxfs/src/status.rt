//! The statuses that the program ends with.

/// All is done.
pub const DONE: u8 = 0;

/// The words are no command.
pub const BAD_WORDS: u8 = 2;

/// The disk was not mounted, for what it holds.
pub const NOT_MOUNTED: u8 = 3;

/// The disk failed.
pub const DEVICE: u8 = 4;

/// The source failed.
pub const READ: u8 = 5;

/// The sink failed.
pub const WRITE: u8 = 6;

/// No memory was to be had outside a line.
pub const OUT_OF_MEMORY: u8 = 7;

/// A line of the script is wrong.
pub const BAD_LINE: u8 = 8;

/// The source gave too many bytes.
pub const TOO_MUCH_INPUT: u8 = 10;

/// The disk does not fit.
pub const DISK_TOO_SMALL: u8 = 11;

/// There is no fit image; no command was begun.
pub const NO_IMAGE: u8 = 12;
