//! Finding the superblock of a disk.
ghost use Rattle.std.specs.Prelude.{◌≡◌, ◌≢◌, ◌<◌, ◌≤◌, ℕ, List, Ok, Err, IfOk, IfErr, is_ok, min};
ghost use Rattle.fx_super.specs.Super.{Decoded, fields_of};
ghost use Rattle.fx_super.specs.Chosen.{IsChosen};
ghost use Rattle.fx_layfile.specs.Layer.{TellsImage, blocks_in};
ghost use Rattle.fx_found.specs.Image.{NamesDisk};
ghost use Rattle.fx_found.specs.Faults.{IsFindFault};
ghost use Rattle.fx_found.specs.Reading.{ReadsAtMost, IsOfDisk, AreSupers, has_read};

use crate::fault::FindFault;
use fx_base::zero_block;
use fx_disk::{Disk, DiskFailed};
use fx_super::{Super, SuperFault, Which, choose, decode_super};

/// A superblock, and which of the two blocks it is.
#[derive(Clone, Copy)]
pub(crate) struct Slot {
    pub(crate) which: Which,
    pub(crate) sup: Super,
}

/// Reads one of the two places of superblocks.
fn read_slot<D: Disk>(disk: &mut D, at: u32) -> Result<Result<Super, SuperFault>, DiskFailed>
    requires { at < (D.seen disk.old).size }
    ensures decoded { IfOk result (λ slot. (block : List ℕ) × Decoded block slot
        × ((image : List (List ℕ)) → TellsImage (D.seen disk.old) image
        → block ≡ blocks_in image at)) }
    ensures read { ReadsAtMost (D.seen disk.old) (D.seen disk.new) 1 (is_ok result) }
{
    let mut block = zero_block();
    disk.read(at, &mut block)?;
    Ok(decode_super(&block))
}

/// Why there is no superblock in these two places.
fn missing(first: SuperFault, second: SuperFault) -> FindFault
    ensures fault { (image : List (List ℕ)) (size : ℕ) → 2 ≤ size
        → AreSupers image (Err first) (Err second) → IsFindFault size image result }
    ensures unfailed { result ≢ FindFault.Device }
{
    match (first, second) {
        (SuperFault::Version(version), _) => FindFault::Version(version),
        (SuperFault::Bad, SuperFault::Version(version)) => FindFault::Version(version),
        (SuperFault::Bad, SuperFault::Bad) => FindFault::NoSuper,
    }
}

/// The chosen one of two superblocks.
fn newer(first: Super, second: Super) -> Slot
    ensures { (image : List (List ℕ)) → AreSupers image (Ok first) (Ok second)
        → IsChosen image result.which (fields_of result.sup) }
{
    match choose(Some(first.generation), Some(second.generation)) {
        Some(Which::A) => Slot {
            which: Which::A,
            sup: first,
        },
        Some(Which::B) => Slot {
            which: Which::B,
            sup: second,
        },
        None => unreachable!(),
    }
}

/// The chosen superblock of what was read in the two places.
fn pick(
    first: Result<Super, SuperFault>,
    second: Result<Super, SuperFault>,
) -> Result<Slot, FindFault>
    ensures chosen { (image : List (List ℕ)) → AreSupers image first second
        → IfOk result (λ it. IsChosen image it.which (fields_of it.sup)) }
    ensures fault { (image : List (List ℕ)) (size : ℕ) → 2 ≤ size
        → AreSupers image first second → IfErr result (IsFindFault size image) }
    ensures unfailed { IfErr result (λ fault. fault ≢ FindFault.Device) }
{
    match (first, second) {
        (Ok(first), Ok(second)) => Ok(newer(first, second)),
        (Ok(sup), Err(_)) => Ok(Slot {
            which: Which::A,
            sup,
        }),
        (Err(_), Ok(sup)) => Ok(Slot {
            which: Which::B,
            sup,
        }),
        (Err(first), Err(second)) => Err(missing(first, second)),
    }
}

/// The same, where it names the size of the disk.
fn slot_of(
    blocks: u32,
    first: Result<Super, SuperFault>,
    second: Result<Super, SuperFault>,
) -> Result<Slot, FindFault>
    requires two { 2 ≤ blocks }
    ensures chosen { (image : List (List ℕ)) → AreSupers image first second
        → IfOk result (λ it. NamesDisk blocks image it.which (fields_of it.sup)) }
    ensures fault { (image : List (List ℕ)) → AreSupers image first second
        → IfErr result (IsFindFault blocks image) }
    ensures unfailed { IfErr result (λ fault. fault ≢ FindFault.Device) }
{
    let slot = match pick(first, second) {
        Ok(slot) => slot,
        Err(fault) => return Err(fault),
    };
    if slot.sup.blocks != blocks {
        return Err(FindFault::DiskSize(blocks));
    }
    Ok(slot)
}

/// The chosen superblock of the disk. Makes two reads at most.
pub(crate) fn find_super<D: Disk>(disk: &mut D) -> Result<Slot, FindFault>
    ensures disk { IfOk result (λ it. IsOfDisk (D.seen disk.old).size (fields_of it.sup)) }
    ensures chosen { (image : List (List ℕ)) → TellsImage (D.seen disk.old) image
        → IfOk result (λ it.
        NamesDisk (D.seen disk.old).size image it.which (fields_of it.sup)) }
    ensures fault { (image : List (List ℕ)) → TellsImage (D.seen disk.old) image
        → IfErr result (IsFindFault (D.seen disk.old).size image) }
    ensures read { ReadsAtMost (D.seen disk.old) (D.seen disk.new) (min 2 (D.seen disk.old).size)
        (has_read result) }
{
    let blocks = disk.blocks();
    if blocks < 2 {
        return Err(FindFault::NoSuper);
    }
    let Ok(first) = read_slot(disk, 0) else {
        return Err(FindFault::Device);
    };
    let Ok(second) = read_slot(disk, 1) else {
        return Err(FindFault::Device);
    };
    match slot_of(blocks, first, second) {
        Ok(slot) => Ok(slot),
        Err(fault) => Err(fault),
    }
}
