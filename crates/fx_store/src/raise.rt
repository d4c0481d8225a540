//! Raising the generation of the superblock.
ghost use Rattle.std.specs.Prelude.{◌+◌, ◌≤◌, OnOk, is_ok};
ghost use Rattle.fx_super.specs.Chosen.{other};
ghost use Rattle.fx_super.specs.Super.{Fields, IsSuper, KeepsRules, fields_of};
ghost use Rattle.fx_super.specs.declared.superblock.TheConstants.{MAX_GENERATION};
ghost use Rattle.fx_log.specs.Chosen.{next_generation};
ghost use Rattle.fx_store.specs.Opening.{HasRaised, MakesCalls, Raises, TellsChosen};

use crate::opening::Found;
use fx_base::{BLOCK_BYTES, zero_block};
use fx_disk::{Disk, DiskFailed};
use fx_super::{Super, Which, encode_super};

/// Writes a superblock, which is that of the next generation, over the one that is not chosen, and
/// flushes.
fn put_super<D: Disk>(
    disk: &mut D,
    chosen: Which,
    block: &[u8; BLOCK_BYTES],
) -> Result<(), DiskFailed>
    requires { 2 ≤ (D.seen disk.old).size }
    ensures raises { (f : Fields) → IsSuper block.now (next_generation f) →
        TellsChosen (D.seen disk.old) chosen f → Raises (D.seen disk.old) (D.seen disk.new) f }
    ensures next { OnOk result ((f : Fields) → IsSuper block.now (next_generation f) →
        TellsChosen (D.seen disk.old) chosen f →
        HasRaised (D.seen disk.old) (D.seen disk.new) f (other chosen)) }
    ensures two { MakesCalls 2 (D.seen disk.old) (D.seen disk.new) (is_ok result) }
{
    disk.write(chosen.other().block() as u32, block)?;
    disk.flush()
}

/// Writes the superblock of the next generation over the one that is not chosen, and flushes.
pub(crate) fn raise<D: Disk>(disk: &mut D, found: &Found) -> Result<(), DiskFailed>
    requires slots { 2 ≤ (D.seen disk.old).size }
    requires rules { KeepsRules (fields_of found.now.sup) }
    requires room { found.now.sup.generation + 1 ≤ MAX_GENERATION }
    requires chosen { TellsChosen (D.seen disk.old) found.now.chosen (fields_of found.now.sup) }
    ensures raises { Raises (D.seen disk.old) (D.seen disk.new) (fields_of found.now.sup) }
    ensures next { OnOk result (HasRaised (D.seen disk.old) (D.seen disk.new)
        (fields_of found.now.sup) (other found.now.chosen)) }
    ensures two { MakesCalls 2 (D.seen disk.old) (D.seen disk.new) (is_ok result) }
{
    let next = Super {
        generation: found.sup.generation + 1,
        ..found.sup
    };
    let mut block = zero_block();
    encode_super(&next, &mut block);
    put_super(disk, found.chosen, &block)
}
