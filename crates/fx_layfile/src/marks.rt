//! The blocks that were read, of the blocks of a disk.
ghost use Rattle.std.specs.Prelude.{◌≡◌, ◌<◌, ◌≤◌, ◌^◌, false, true, IfOk, length, replicate};
ghost use Rattle.fx_layfile.specs.Reading.{Claimed};

use fx_super::RING_AT;
use std::alloc::{AllocError, Global};
use std::marker::Model;

/// A mark for each block of a disk: whether it was read as a block of a layer. A byte a block.
#[derive(Debug, Drop)]
pub struct BlockSet {
    marks: Vec<bool>,
}

impl Model for BlockSet {
    ghost use Rattle.std.specs.Prelude.{List, Bool};

    ghost Value = { List Bool };

    ghost view = { λ s. s.marks.items };
}

impl BlockSet {
    /// The set of a disk of so many blocks, none of which was read.
    pub fn new(alloc: Global, blocks: u32) -> Result<BlockSet, AllocError>
        ensures { IfOk result (λ set. set ≡ replicate blocks false) }
    {
        let marks = vec![in alloc; false; blocks as usize]?;
        Ok(BlockSet { marks })
    }

    /// Sets the mark of a block behind the ring that has none, and says whether it did. Constant
    /// cost.
    pub(crate) fn claim(&mut self, ring: u32, at: u32) -> bool
        ensures { Claimed ring self.old at self.new result }
    {
        claim_in(&mut self.marks, ring, at as usize)
    }
}

/// The same of the marks.
fn claim_in(marks: &mut [bool], ring: u32, at: usize) -> bool
    requires { at < 2 ^ 32 }
    ensures { Claimed ring marks.old at marks.new result }
{
    if at < ring as usize + RING_AT as usize {
        return false;
    }
    if marks.len() <= at {
        return false;
    }
    if marks[at] {
        return false;
    }
    marks[at] = true;
    true
}
