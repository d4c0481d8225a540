//! A checkpoint on a disk that fails.
ghost use Rattle.std.specs.Prelude.{◌≡◌};

use super::*;
use fx_base::{BLOCK_BYTES, zero_block};
use fx_disk::Disk;
use fx_disks::MemDisk;
use fx_jblock::Start;
use fx_layfile::Block;
use fx_super::{Super, Which, decode_super, encode_super, first_super};
use std::alloc::{AllocError, Global};
use std::test::Fail;

const PLACE: Start = Start {
    sequence: 9,
    chain: 7,
    floor: 1,
};

/// The generation of the superblock in a block, 0 where there is none.
fn generation_at(disk: &mut MemDisk, at: u32) -> u64 {
    let mut block = zero_block();
    if at >= disk.blocks() || disk.read(at, &mut block).is_err() {
        return 0;
    }
    match decode_super(&block) {
        Ok(sup) => sup.generation,
        Err(_) => 0,
    }
}

/// A block of a new layer.
fn layer_block() -> Block
    ensures { result.at ≡ 300 }
{
    Block {
        at: 300,
        bytes: [7; BLOCK_BYTES],
    }
}

/// One flush, again where it failed, and how often it failed.
fn settled(ckpt: Ckpt, disk: &mut MemDisk) -> (Ckpt, u32) {
    let mut ckpt = ckpt;
    if ckpt.phase() != Phase::Named {
        return (ckpt, 0);
    }
    if ckpt.settle(disk).is_ok() {
        return (ckpt, 0);
    }
    let _again = ckpt.settle(disk);
    (ckpt, 1)
}

/// The new superblock is written, again where that failed.
fn put(ckpt: Ckpt, disk: &mut MemDisk) -> (Ckpt, u32) {
    let mut ckpt = ckpt;
    if ckpt.phase() != Phase::Settled || disk.blocks() < 2 {
        return (ckpt, 0);
    }
    if ckpt.put_super(disk).is_ok() {
        return (ckpt, 0);
    }
    let _again = ckpt.put_super(disk);
    (ckpt, 1)
}

/// The generation of the superblock that is given, 0 where none is, and how often that failed.
fn finished(ckpt: Ckpt, disk: &mut MemDisk) -> (u64, u32) {
    let mut ckpt = ckpt;
    if ckpt.phase() != Phase::SuperWritten {
        return (0, 0);
    }
    if let Ok(sup) = ckpt.finish(disk) {
        return (sup.generation, 0);
    }
    match ckpt.finish(disk) {
        Ok(sup) => (sup.generation, 1),
        Err(_) => (0, 1),
    }
}

/// A checkpoint after a block of a layer, on a disk whose call of this number fails.
fn begun(alloc: Global, failing: u64) -> Result<(Ckpt, MemDisk, u32), AllocError> {
    let sup = first_super(1088, 256);
    let mut disk = MemDisk::new(alloc, 1088)?;
    disk.fail_calls(vec![in alloc; failing; 1]?);
    let mut ckpt = Ckpt::begin(&sup, Which::A, 1, PLACE, 3);
    let block = layer_block();
    if disk.blocks() != 1088 {
        return Err(AllocError);
    }
    if ckpt.write(&mut disk, &block).is_ok() {
        ckpt.made(0, Some(300), None);
        return Ok((ckpt, disk, 0));
    }
    let _again = ckpt.write(&mut disk, &block);
    ckpt.made(0, Some(300), None);
    Ok((ckpt, disk, 1))
}

/// How many calls failed, and the generation in block 1, where the call of this number fails.
fn switched(alloc: Global, failing: u64) -> Result<(u32, u64), AllocError> {
    let (ckpt, mut disk, first) = begun(alloc, failing)?;
    let (ckpt, second) = settled(ckpt, &mut disk);
    let (ckpt, third) = put(ckpt, &mut disk);
    let (given, fourth) = finished(ckpt, &mut disk);
    let faults = first
        .wrapping_add(second)
        .wrapping_add(third)
        .wrapping_add(fourth);
    if given != generation_at(&mut disk, 1) {
        return Err(AllocError);
    }
    Ok((faults, given))
}

#[test]
fn no_call_fails(rt: HostRuntime) -> Result<(), Fail> {
    assert_eq!(rt; switched(rt.alloc(), 9)?, (0, 2));
    Ok(())
}

#[test]
fn the_write_fails(rt: HostRuntime) -> Result<(), Fail> {
    assert_eq!(rt; switched(rt.alloc(), 1)?, (1, 2));
    Ok(())
}

#[test]
fn the_first_flush_fails(rt: HostRuntime) -> Result<(), Fail> {
    assert_eq!(rt; switched(rt.alloc(), 2)?, (1, 2));
    Ok(())
}

#[test]
fn the_superblock_fails(rt: HostRuntime) -> Result<(), Fail> {
    assert_eq!(rt; switched(rt.alloc(), 3)?, (1, 2));
    Ok(())
}

#[test]
fn the_last_flush_fails(rt: HostRuntime) -> Result<(), Fail> {
    assert_eq!(rt; switched(rt.alloc(), 4)?, (1, 2));
    Ok(())
}

/// Tears the last write of a superblock: of block 1 only the first `kept` bytes are the new ones.
fn tear(disk: &mut MemDisk, kept: usize) {
    let mut block = zero_block();
    if disk.blocks() < 2 || disk.read(1, &mut block).is_err() {
        return;
    }
    for byte in block.iter_mut().skip(kept) {
        *byte = 0;
    }
    let _written = disk.write(1, &block);
}

/// The generations that a stop before the last flush leaves in the two superblocks, where the new one
/// has so many bytes.
fn stopped(alloc: Global, kept: usize) -> Result<(u64, u64), AllocError> {
    let (ckpt, mut disk, _) = begun(alloc, 9)?;
    let mut block = zero_block();
    encode_super(&first_super(1088, 256), &mut block);
    if disk.blocks() < 2 || disk.write(0, &block).is_err() {
        return Err(AllocError);
    }
    let (ckpt, _) = settled(ckpt, &mut disk);
    let (_ckpt, _) = put(ckpt, &mut disk);
    tear(&mut disk, kept);
    Ok((generation_at(&mut disk, 0), generation_at(&mut disk, 1)))
}

#[test]
fn a_stop_at_the_superblock_leaves_one_of_the_two(rt: HostRuntime) -> Result<(), Fail> {
    assert_eq!(rt; stopped(rt.alloc(), 0)?, (1, 0));
    assert_eq!(rt; stopped(rt.alloc(), 100)?, (1, 0));
    assert_eq!(rt; stopped(rt.alloc(), 4096)?, (1, 2));
    Ok(())
}

/// The first blocks of the layers that a new superblock names.
fn layers_named(alloc: Global) -> Result<Option<Super>, AllocError> {
    let mut sup = first_super(1088, 256);
    sup.objects.push(400);
    sup.objects.push(500);
    let mut disk = MemDisk::new(alloc, 1088)?;
    let mut ckpt = Ckpt::begin(&sup, Which::A, 1, PLACE, 3);
    ckpt.made(1, Some(300), None);
    let (ckpt, _) = settled(ckpt, &mut disk);
    let (mut ckpt, _) = put(ckpt, &mut disk);
    if ckpt.phase() != Phase::SuperWritten {
        return Ok(None);
    }
    Ok(ckpt.finish(&mut disk).ok())
}

#[test]
fn new_layers_stand_before_those_that_stay(rt: HostRuntime) -> Result<(), Fail> {
    let sup = layers_named(rt.alloc())?.ok_or("given")?;
    assert_eq!(rt; sup.objects.as_slice(), [300, 500].as_slice());
    assert_eq!(rt; (sup.sequence, sup.base, sup.allocs.count()), (9, 3, 0));
    Ok(())
}
