//! The phases of a checkpoint.
ghost use Rattle.std.specs.Prelude.{◌≡◌, ◌+◌, ◌<◌, ◌≤◌, ◌^◌, ◌++◌, is_ok, IfOk, length, drop};
ghost use Rattle.fx_disk.specs.Seen.{HasWritten, HasFlushed};
ghost use Rattle.fx_super.specs.Super.{KeepsRules, fields_of, super_block};
ghost use Rattle.fx_super.specs.declared.layers.TheConstants.{LAYERS};
ghost use Rattle.fx_ckpt.specs.Checkpoint.{begun_fields, with_layers, layers_made, coming_block, in_phase};

use fx_base::zero_block;
use fx_disk::{Disk, DiskFailed};
use fx_jblock::Start;
use fx_layfile::Block;
use fx_super::{LAYERS, LayerList, RING_AT, Super, Which, encode_super};
use std::marker::Model;

/// How far a checkpoint has come.
#[derive(Clone, Copy, Debug, PartialEq, Eq)]
pub enum Phase {
    /// Blocks of the new layers are written.
    Writing,
    /// All are written, and the new superblock names the first ones.
    Named,
    /// They are flushed.
    Settled,
    /// The new superblock is written, and not yet flushed.
    SuperWritten,
    /// It is flushed, and stands. The checkpoint is over, and no further call may come.
    Finished,
}

/// A checkpoint: the superblock that stands when it begins, and the one that is to take its place.
/// Each call of the disk is one step. After one that fails the checkpoint is as before, and it may be
/// asked for again; what the failed call left on the disk, its clause `written` or `flushed` says.
#[derive(Debug, Drop)]
pub struct Ckpt {
    current: Super,
    slot: Which,
    coming: Super,
    phase: Phase,
}

impl Model for Ckpt {
    ghost use Rattle.fx_super.specs.Super.{fields_of};
    ghost use Rattle.fx_ckpt.specs.Checkpoint.{CkptState};

    ghost Value = { CkptState };

    ghost view = { λ c. record {
      current = fields_of c.current;
      slot = c.slot;
      coming = fields_of c.coming;
      phase = c.phase;
    } };
}

impl Ckpt {
    /// A checkpoint that begins. `sup` stands in the block that `slot` names; the new superblock has
    /// this version, the generation after `sup`'s, the journal's start from `start` on, and the first
    /// `count` transactions in its layers. It takes no memory, and calls no disk.
    pub fn begin(sup: &Super, slot: Which, version: u32, start: Start, count: u64) -> Ckpt
        requires { sup.now.generation + 1 < 2 ^ 64 }
        ensures current { result.current ≡ fields_of sup.now }
        ensures slot { result.slot ≡ slot }
        ensures coming { result.coming ≡ begun_fields (fields_of sup.now) version start count }
        ensures phase { result.phase ≡ Phase.Writing }
    {
        let coming = Super {
            version,
            generation: sup.generation + 1,
            sequence: start.sequence,
            chain: start.chain,
            base: count,
            floor: start.floor,
            ..*sup
        };
        Ckpt {
            current: *sup,
            slot,
            coming,
            phase: Phase::Writing,
        }
    }

    /// How far it has come.
    pub fn phase(&self) -> Phase
        ensures { result ≡ self.now.phase }
    {
        self.phase
    }

    /// Writes a block of a new layer, which lies behind the ring: one call of the disk.
    pub fn write<D: Disk>(&mut self, disk: &mut D, block: &Block) -> Result<(), DiskFailed>
        requires phase { self.old.phase ≡ Phase.Writing }
        requires sized { (D.seen disk.old).size ≡ self.old.current.blocks }
        requires behind { self.old.current.ring + RING_AT ≤ block.now.at }
        requires inside { block.now.at < self.old.current.blocks }
        ensures written { HasWritten (D.seen disk.old) (D.seen disk.new) block.now.at
            block.now.bytes (is_ok result) }
        ensures same { self.new ≡ self.old }
    {
        disk.write(block.at, &block.bytes)
    }

    /// Names the first blocks of the new layers, none for a tree without items. They take the place
    /// of the newest `newest` layers of each tree; the others stay. It calls no disk.
    pub fn made(&mut self, newest: u32, objects: Option<u32>, allocs: Option<u32>)
        requires phase { self.old.phase ≡ Phase.Writing }
        requires few { length (layers_made newest objects self.old.current.objects) ≤ LAYERS }
        requires few_also { length (layers_made newest allocs self.old.current.allocs) ≤ LAYERS }
        ensures { self.new ≡ with_layers self.old newest objects allocs }
    {
        let objects = made_list(newest, objects, &self.current.objects);
        let allocs = made_list(newest, allocs, &self.current.allocs);
        self.coming.objects = objects;
        self.coming.allocs = allocs;
        self.phase = Phase::Named;
    }

    /// Flushes the blocks of the new layers: one call of the disk.
    pub fn settle<D: Disk>(&mut self, disk: &mut D) -> Result<(), DiskFailed>
        requires { self.old.phase ≡ Phase.Named }
        ensures flushed { HasFlushed (D.seen disk.old) (D.seen disk.new) (is_ok result) }
        ensures phase { self.new ≡ in_phase self.old Phase.Settled (is_ok result) }
    {
        let Ok(()) = disk.flush() else {
            return Err(DiskFailed);
        };
        self.phase = Phase::Settled;
        Ok(())
    }

    /// Writes the new superblock to the block that does not hold the one that stands: one call of
    /// the disk.
    pub fn put_super<D: Disk>(&mut self, disk: &mut D) -> Result<(), DiskFailed>
        requires phase { self.old.phase ≡ Phase.Settled }
        requires sized { 2 ≤ (D.seen disk.old).size }
        ensures written { HasWritten (D.seen disk.old) (D.seen disk.new) (coming_block self.old)
            (super_block self.old.coming) (is_ok result) }
        ensures phase { self.new ≡ in_phase self.old Phase.SuperWritten (is_ok result) }
    {
        let mut block = zero_block();
        encode_super(&self.coming, &mut block);
        let Ok(()) = disk.write(self.slot.other().block() as u32, &block) else {
            return Err(DiskFailed);
        };
        self.phase = Phase::SuperWritten;
        Ok(())
    }

    /// Flushes the new superblock, and gives it: one call of the disk. From a good flush on it alone
    /// stands.
    pub fn finish<D: Disk>(&mut self, disk: &mut D) -> Result<Super, DiskFailed>
        requires { self.old.phase ≡ Phase.SuperWritten }
        ensures flushed { HasFlushed (D.seen disk.old) (D.seen disk.new) (is_ok result) }
        ensures given { IfOk result (λ sup. fields_of sup ≡ self.old.coming) }
        ensures phase { self.new ≡ in_phase self.old Phase.Finished (is_ok result) }
    {
        match disk.flush() {
            Ok(()) => {
                self.phase = Phase::Finished;
                Ok(self.coming)
            }
            Err(fault) => Err(fault),
        }
    }
}

/// The new layer before those that stay.
fn made_list(newest: u32, first: Option<u32>, layers: &LayerList) -> LayerList
    requires { length (layers_made newest first layers.now) ≤ LAYERS }
    ensures { result ≡ layers_made newest first layers.now }
{
    let stay = without_first(newest, layers.as_slice());
    let mut list = LayerList::new();
    match first {
        Some(block) => {
            list.push(block);
            with_all(list, stay)
        }
        None => with_all(list, stay),
    }
}

/// All but the first so many.
fn without_first(count: u32, layers: &[u32]) -> &[u32]
    ensures { result.now ≡ drop count layers.now }
{
    let count = count as usize;
    if count < layers.len() {
        return &layers[count..];
    }
    &[]
}

/// The list with these behind it.
fn with_all(list: LayerList, layers: &[u32]) -> LayerList
    requires { length list + length layers.now ≤ LAYERS }
    ensures { result ≡ list ++ layers.now }
{
    let mut list = list;
    for block in layers {
        list.push(*block);
    }
    list
}
