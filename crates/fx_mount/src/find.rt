//! Finding the superblock of a disk.
ghost use Rattle.std.specs.Prelude.{◌≡◌, ℕ, ◌<◌, ◌≤◌, ◌∷◌, [], List, Ok, Err, IfOk, IfErr, OnOk, MatchOption, is_ok};
ghost use Rattle.fx_disk.specs.Seen.{HasCalled, HasOnlyRead};
ghost use Rattle.fx_super.specs.Super.{Decoded, KeepsRules, fields_of};
ghost use Rattle.fx_super.specs.Chosen.{IsChosen};
ghost use Rattle.fx_log.specs.Chosen.{ChoosesSuper, layers_of};
ghost use Rattle.fx_store.specs.Opening.{TellsChosen};
ghost use Rattle.fx_mount.specs.Found.{AreSlots, CanGoOn, HasReadWell, IsMountCause, IsRefused, TellsSlot, first_slot, second_slot};

use crate::fault::MountFault;
use fx_base::zero_block;
use fx_disk::{Disk, DiskFailed};
use fx_store::Found;
use fx_super::{Super, SuperFault, Which, choose, decode_super};

/// The first layer that the superblock names.
fn first_layer(sup: &Super) -> Option<u32>
    ensures { MatchOption result (layers_of (fields_of sup.now) ≡ [])
        (λ at. (rest : List ℕ) × (layers_of (fields_of sup.now) ≡ at ∷ rest)) }
{
    let objects = sup.objects.as_slice();
    let allocs = sup.allocs.as_slice();
    if 0 < objects.len() {
        return Some(objects[0]);
    }
    if 0 < allocs.len() {
        return Some(allocs[0]);
    }
    None
}

/// Why there is no superblock in these two places.
fn missing(first: SuperFault, second: SuperFault) -> MountFault
    ensures { (image : List (List ℕ)) (size : ℕ) → 2 ≤ size →
        Decoded (first_slot image) (Err first) →
        Decoded (second_slot image) (Err second) → IsRefused size image result }
{
    match (first, second) {
        (SuperFault::Version(version), _) => MountFault::Version(version),
        (SuperFault::Bad, SuperFault::Version(version)) => MountFault::Version(version),
        (SuperFault::Bad, SuperFault::Bad) => MountFault::NoSuper,
    }
}

/// The chosen one of two superblocks.
fn newer(first: Super, second: Super) -> Found
    ensures rules { KeepsRules (fields_of first) → KeepsRules (fields_of second) →
        KeepsRules (fields_of result.sup) }
    ensures chosen { (image : List (List ℕ)) → AreSlots image (Ok first) (Ok second) →
        IsChosen image result.chosen (fields_of result.sup) }
{
    match choose(Some(first.generation), Some(second.generation)) {
        Some(Which::A) => Found {
            sup: first,
            chosen: Which::A,
        },
        Some(Which::B) => Found {
            sup: second,
            chosen: Which::B,
        },
        None => unreachable!(),
    }
}

/// The chosen superblock of what was read in the two places.
fn chosen_of(
    first: Result<Super, SuperFault>,
    second: Result<Super, SuperFault>,
) -> Result<Found, MountFault>
    ensures rules { (image : List (List ℕ)) → AreSlots image first second →
        IfOk result (λ it. KeepsRules (fields_of it.sup)) }
    ensures chosen { (image : List (List ℕ)) → AreSlots image first second →
        IfOk result (λ it. IsChosen image it.chosen (fields_of it.sup)) }
    ensures refused { (image : List (List ℕ)) (size : ℕ) → 2 ≤ size → AreSlots image first second →
        IfErr result (IsRefused size image) }
{
    match (first, second) {
        (Ok(first), Ok(second)) => Ok(newer(first, second)),
        (Ok(sup), Err(_)) => Ok(Found {
            sup,
            chosen: Which::A,
        }),
        (Err(_), Ok(sup)) => Ok(Found {
            sup,
            chosen: Which::B,
        }),
        (Err(first), Err(second)) => Err(missing(first, second)),
    }
}

/// Whether a session can go on from the superblock on a disk of so many blocks.
fn check(sup: &Super, blocks: u32) -> Result<(), MountFault>
    requires slots { 2 ≤ blocks }
    requires rules { KeepsRules (fields_of sup.now) }
    ensures goes_on { OnOk result (CanGoOn blocks (fields_of sup.now)) }
    ensures refused { IfErr result (λ fault. (image : List (List ℕ)) →
        ChoosesSuper (fields_of sup.now) image → IsRefused blocks image fault) }
{
    if sup.blocks != blocks {
        return Err(MountFault::DiskSize(blocks));
    }
    if let Some(layer) = first_layer(sup) {
        return Err(MountFault::BadLayer(layer));
    }
    Ok(())
}

/// The chosen superblock of what was read in the two places of a disk of so many blocks, where a
/// session can go on from it.
fn found_in(
    blocks: u32,
    first: Result<Super, SuperFault>,
    second: Result<Super, SuperFault>,
) -> Result<Found, MountFault>
    requires two { 2 ≤ blocks }
    requires slots { (image : List (List ℕ)) × AreSlots image first second }
    ensures chosen { (image : List (List ℕ)) → AreSlots image first second →
        IfOk result (λ it. IsChosen image it.chosen (fields_of it.sup)) }
    ensures goes_on { (image : List (List ℕ)) → AreSlots image first second →
        IfOk result (λ it. CanGoOn blocks (fields_of it.sup)) }
    ensures refused { (image : List (List ℕ)) → AreSlots image first second →
        IfErr result (IsRefused blocks image) }
{
    let found = match chosen_of(first, second) {
        Ok(found) => found,
        Err(fault) => return Err(fault),
    };
    match check(&found.sup, blocks) {
        Ok(()) => Ok(found),
        Err(fault) => Err(fault),
    }
}

/// Reads one of the two places of superblocks.
fn read_slot<D: Disk>(disk: &mut D, at: u32) -> Result<Result<Super, SuperFault>, DiskFailed>
    requires { at < (D.seen disk.old).size }
    ensures decoded { IfOk result (TellsSlot (D.seen disk.old) at) }
    ensures only { HasOnlyRead (D.seen disk.old) (D.seen disk.new) }
    ensures called { HasCalled (D.seen disk.old) (D.seen disk.new) (is_ok result) }
{
    let mut block = zero_block();
    disk.read(at, &mut block)?;
    Ok(decode_super(&block))
}

/// The chosen superblock of the disk, where a session can go on from it. Makes two reads.
pub(crate) fn find<D: Disk>(disk: &mut D) -> Result<Found, MountFault>
    ensures chosen { IfOk result (λ it.
        TellsChosen (D.seen disk.old) it.chosen (fields_of it.sup)) }
    ensures goes_on { IfOk result (λ it. CanGoOn (D.seen disk.old).size (fields_of it.sup)) }
    ensures well { OnOk result (HasReadWell (D.seen disk.old) (D.seen disk.new)) }
    ensures cause { IfErr result (IsMountCause (D.seen disk.old) (D.seen disk.new)) }
    ensures only { HasOnlyRead (D.seen disk.old) (D.seen disk.new) }
{
    let blocks = disk.blocks();
    if blocks < 2 {
        return Err(MountFault::NoSuper);
    }
    let first = read_slot(disk, 0)?;
    let second = read_slot(disk, 1)?;
    match found_in(blocks, first, second) {
        Ok(found) => Ok(found),
        Err(fault) => Err(fault),
    }
}
