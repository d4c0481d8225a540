//! Images that are made by hand, and what is found in them. The disk has 1,088 blocks, and the ring
//! 256 of them.

use crate::{FindFault, Found, find};
use fx_base::BLOCK_BYTES;
use fx_disks::{Image, MemDisk};
use fx_jblock::pack;
use fx_super::{LayerList, MIN_BLOCKS, MIN_RING, Super, encode_super, first_super};
use std::alloc::{AllocError, Global};
use std::test::Fail;

/// Blocks of zeros.
fn zeros(alloc: Global) -> Result<Vec<[u8; BLOCK_BYTES]>, AllocError> {
    let mut blocks = Vec::new(alloc);
    blocks.resize(MIN_BLOCKS as usize, [0; BLOCK_BYTES])?;
    Ok(blocks)
}

fn put_super(blocks: &mut [[u8; BLOCK_BYTES]], at: usize, sup: &Super) {
    if at < blocks.len() {
        encode_super(sup, &mut blocks[at]);
    }
}

/// Puts a block of the stream that holds these record bytes, where it is the first one.
fn put_records(blocks: &mut [[u8; BLOCK_BYTES]], text: &[u8]) {
    if 2 < blocks.len() && 1 <= text.len() && text.len() <= 100 {
        pack(0, 1, 1, text, &mut blocks[2]);
    }
}

/// What is found on a disk of these blocks, whose read of this number fails.
fn find_failing(
    alloc: Global,
    blocks: Vec<[u8; BLOCK_BYTES]>,
    read: u64,
) -> Result<Found, FindFault> {
    let Ok(reads) = vec![in alloc; read; 1] else {
        return Err(FindFault::OutOfMemory);
    };
    if blocks.len() > 2000 {
        return Err(FindFault::OutOfMemory);
    }
    let mut disk = MemDisk::from_image(alloc, Image::from_blocks(blocks));
    disk.fail_reads(reads);
    find(alloc, &mut disk)
}

/// The fault of it.
fn fault(alloc: Global, blocks: Vec<[u8; BLOCK_BYTES]>) -> Option<FindFault> {
    find_failing(alloc, blocks, 0).err()
}

/// The fault of an image with this superblock in block 0.
fn fault_with(alloc: Global, sup: &Super) -> Result<Option<FindFault>, AllocError> {
    let mut blocks = zeros(alloc)?;
    put_super(&mut blocks, 0, sup);
    Ok(fault(alloc, blocks))
}

/// The fault of a new image whose stream holds these record bytes.
fn fault_of_records(alloc: Global, text: &[u8]) -> Result<Option<FindFault>, AllocError> {
    let mut blocks = zeros(alloc)?;
    put_super(&mut blocks, 0, &first_super(MIN_BLOCKS, MIN_RING));
    put_records(&mut blocks, text);
    Ok(fault(alloc, blocks))
}

#[test]
fn a_new_image(rt: HostRuntime) -> Result<(), Fail> {
    let sup = first_super(MIN_BLOCKS, MIN_RING);
    assert_eq!(rt; fault_with(rt.alloc(), &sup)?, None);
    Ok(())
}

#[test]
fn no_superblock(rt: HostRuntime) -> Result<(), Fail> {
    let blocks = zeros(rt.alloc())?;
    assert_eq!(rt; fault(rt.alloc(), blocks), Some(FindFault::NoSuper));
    Ok(())
}

#[test]
fn a_superblock_of_another_disk(rt: HostRuntime) -> Result<(), Fail> {
    let sup = first_super(MIN_BLOCKS + 1, MIN_RING);
    let wanted = Some(FindFault::DiskSize(1088));
    assert_eq!(rt; fault_with(rt.alloc(), &sup)?, wanted);
    Ok(())
}

#[test]
fn a_layer_of_zeros(rt: HostRuntime) -> Result<(), Fail> {
    let mut sup = first_super(MIN_BLOCKS, MIN_RING);
    sup.allocs = LayerList::from_slice(&[700]);
    let wanted = Some(FindFault::BadLayer(700));
    assert_eq!(rt; fault_with(rt.alloc(), &sup)?, wanted);
    Ok(())
}

#[test]
fn the_second_read_fails(rt: HostRuntime) -> Result<(), Fail> {
    let blocks = zeros(rt.alloc())?;
    let found = find_failing(rt.alloc(), blocks, 2);
    assert_eq!(rt; found.err(), Some(FindFault::Device));
    Ok(())
}

/// A record with this number whose one item is the Object of a directory.
#[test]
fn a_node_that_nothing_names(rt: HostRuntime) -> Result<(), Fail> {
    let text = [
        27, 0, 0, 0, 1, 1, 0, 0, 0, 0, 0, 0, 0, 1, 0, 0, 0, 1, 1, 0, 0, 0, 0, 0, 0, 0, 0, 0, 0, 0,
        1,
    ];
    let wanted = Some(FindFault::BadTree { store: 1, id: 0 });
    assert_eq!(rt; fault_of_records(rt.alloc(), &text)?, wanted);
    Ok(())
}

#[test]
fn a_record_out_of_order(rt: HostRuntime) -> Result<(), Fail> {
    let text = [9, 0, 0, 0, 2, 1, 0, 0, 0, 0, 0, 0, 0];
    let wanted = Some(FindFault::BadRecord(0));
    assert_eq!(rt; fault_of_records(rt.alloc(), &text)?, wanted);
    Ok(())
}
