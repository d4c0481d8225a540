//! What is audited.

use fx_item::Item;
use fx_sound::ImageNumbers;

/// An image as a mount has gathered it.
#[derive(Clone, Copy)]
pub struct Audited<'a> {
    /// Blocks of the disk.
    pub disk: u32,
    /// Blocks of the ring.
    pub ring: u32,
    /// The blocks of its layers, each once.
    pub layers: &'a [u32],
    /// What its layers and kept transactions say together, in order, without tombstones.
    pub items: &'a [Item],
    /// Blocks of its stream.
    pub stream: u32,
    /// Whether transactions lie beyond the kept number.
    pub drops: bool,
    pub numbers: ImageNumbers,
}
