//! Which transactions an image keeps, by the sums of the blocks that they wrote.
ghost use Rattle.std.specs.Prelude.{◌≡◌, ◌≤◌, ◌<◌, ◌-◌, ◌+◌, ◌^◌, ◌++◌, ℕ, List, IfOk, IfErr, length, map, max};
ghost use Rattle.std.specs.List.Sorted.{IsStrictlySortedBy};
ghost use Rattle.std.specs.Ordering.{nat_cmp};
ghost use Rattle.fx_sum.specs.Checksum.{fletch};
ghost use Rattle.fx_super.specs.Super.{fields_of};
ghost use Rattle.fx_record.specs.Txns.{txns_of};
ghost use Rattle.fx_kept.specs.Kept.{IsKeptIn};
ghost use Rattle.fx_uses.specs.Live.{AreNumbered, txn_of};
ghost use Rattle.fx_layfile.specs.Layer.{TellsImage};
ghost use Rattle.fx_found.specs.Image.{data_begin};
ghost use Rattle.fx_found.specs.Reading.{ReadsAtMost, IsOfDisk, IsNoFinding, has_read, sum_in, sums_in};

use crate::fault::FindFault;
use fx_base::zero_block;
use fx_disk::Disk;
use fx_record::Txns;
use fx_sum::fletch;
use fx_super::{RING_AT, Super};
use fx_verify::{blocks_of, kept};
use std::alloc::Global;

/// Blocks with the sums of their bytes.
type Sums = Vec<(u32, u64)>;

/// The number up to which the image keeps these transactions. Reads each block once that they wrote
/// and in which data can lie.
pub(crate) fn find_kept<D: Disk>(
    alloc: Global,
    disk: &mut D,
    sup: &Super,
    txns: &Txns,
) -> Result<u64, FindFault>
    requires disk { IsOfDisk (D.seen disk.old).size (fields_of sup.now) }
    requires numbered { AreNumbered sup.now.base (map txn_of (txns_of txns.now)) }
    requires few { sup.now.base + length txns.now < 2 ^ 64 }
    ensures least { IfOk result (λ k. sup.now.base ≤ k) }
    ensures most { IfOk result (λ k. k ≤ sup.now.base + length txns.now) }
    ensures kept { (image : List (List ℕ)) → TellsImage (D.seen disk.old) image
        → IfOk result (IsKeptIn (fletch 0) (data_begin (fields_of sup.now)) image sup.now.base
        (txns_of txns.now)) }
    ensures fault { IfErr result IsNoFinding }
    ensures read { ReadsAtMost (D.seen disk.old) (D.seen disk.new)
        ((D.seen disk.old).size - data_begin (fields_of sup.now)) (has_read result) }
{
    let Ok(blocks) = blocks_of(alloc, txns.as_slice()) else {
        return Err(FindFault::OutOfMemory);
    };
    let sums = match read_sums(alloc, disk, sup.ring + RING_AT, blocks.as_slice()) {
        Ok(sums) => sums,
        Err(fault) => return Err(fault),
    };
    let Ok(kept) = kept(alloc, sup.base, txns.as_slice(), &sums) else {
        return Err(FindFault::OutOfMemory);
    };
    Ok(kept)
}

/// The sums of those of these blocks that lie from `begin` on and on the disk. Each is read once.
fn read_sums<D: Disk>(
    alloc: Global,
    disk: &mut D,
    begin: u32,
    blocks: &[u32],
) -> Result<Sums, FindFault>
    requires begin { begin ≤ (D.seen disk.old).size }
    requires ascending { IsStrictlySortedBy nat_cmp blocks.now }
    ensures sums { (image : List (List ℕ)) → TellsImage (D.seen disk.old) image
        → IfOk result (λ sums. sums.items ≡ sums_in (fletch 0) begin image blocks.now) }
    ensures fault { IfErr result IsNoFinding }
    ensures read { ReadsAtMost (D.seen disk.old) (D.seen disk.new)
        ((D.seen disk.old).size - begin) (has_read result) }
{
    let mut sums = Vec::new(alloc);
    let mut reach = begin;
    for block in blocks {
        reach = match add_sum(disk, begin, reach, *block, &mut sums) {
            Ok(reach) => reach,
            Err(fault) => return Err(fault),
        };
    }
    Ok(sums)
}

/// Adds the sum of a block, where data can lie in it, and gives the place behind it. Blocks before
/// `reach` were read.
fn add_sum<D: Disk>(
    disk: &mut D,
    begin: u32,
    reach: u32,
    block: u32,
    sums: &mut Sums,
) -> Result<u32, FindFault>
    requires least { begin ≤ reach }
    requires most { reach ≤ (D.seen disk.old).size }
    requires ahead { begin ≤ block → reach ≤ block }
    ensures least { IfOk result (λ r. reach ≤ r) }
    ensures most { IfOk result (λ r. r ≤ (D.seen disk.old).size) }
    ensures behind { IfOk result (λ r. r ≤ max reach (block + 1)) }
    ensures sums { (image : List (List ℕ)) → TellsImage (D.seen disk.old) image
        → IfOk result (λ _. sums.new.items
        ≡ sums.old.items ++ sum_in (fletch 0) begin image block) }
    ensures fault { IfErr result IsNoFinding }
    ensures few { IfOk result (λ r.
        (D.seen disk.new).reads + reach ≤ (D.seen disk.old).reads + r) }
    ensures read { ReadsAtMost (D.seen disk.old) (D.seen disk.new)
        ((D.seen disk.old).size - reach) (has_read result) }
{
    if block < begin {
        return Ok(reach);
    }
    if disk.blocks() <= block {
        return Ok(reach);
    }
    let mut bytes = zero_block();
    let Ok(()) = disk.read(block, &mut bytes) else {
        return Err(FindFault::Device);
    };
    let Ok(()) = sums.push((block, fletch(0, &bytes))) else {
        return Err(FindFault::OutOfMemory);
    };
    Ok(block + 1)
}
