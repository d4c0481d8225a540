//! Layers of images that are made by hand, how many blocks a writer gives, and items that are read
//! back.
ghost use Rattle.std.specs.Prelude.{◌≡◌, ◌≤◌, IfOk, IfSome, length};
ghost use Rattle.fx_item.specs.Item.{item_of};
ghost use Rattle.fx_layfile.specs.Block.{IsOfTree};
ghost use Rattle.fx_layfile.specs.Writing.{IsOpen};

use super::*;
use crate::block::{SUM_AT, write_data, write_index};
use crate::decoding::tree_of;
use byteorder::{ByteOrder, LittleEndian};
use fx_base::BLOCK_BYTES;
use fx_disk::Disk;
use fx_disks::{Image, MemDisk};
use fx_item::{Edge, Item, ItemFault, Level, decode};
use fx_sum::fletch;
use std::alloc::{AllocError, Global};
use std::test::Fail;

/// Blocks of zeros. The ring of four blocks ends at block 6.
fn zeros(alloc: Global) -> Result<Vec<[u8; BLOCK_BYTES]>, AllocError> {
    let mut blocks = Vec::new(alloc);
    blocks.resize(12, [0; BLOCK_BYTES])?;
    Ok(blocks)
}

fn put_index(blocks: &mut [[u8; BLOCK_BYTES]], at: usize, next: u32, names: &[u32]) {
    if at < blocks.len() && names.len() <= 2 {
        write_index(2, next, names, &mut blocks[at]);
    }
}

/// Puts a data block of one range of the device that is taken.
fn put_data(blocks: &mut [[u8; BLOCK_BYTES]], at: usize, start: u8, end: u8) {
    if at < blocks.len() {
        write_data(1, &[6, start, 0, 0, 0, end, 0, 0, 0, 7], &mut blocks[at]);
    }
}

/// Reads the layer of a tree that begins at `first`, on a disk whose read of this number fails.
fn read_on(
    alloc: Global,
    blocks: Vec<[u8; BLOCK_BYTES]>,
    failing: u64,
    first: u32,
    tree: u32,
) -> Result<Layer, LayerFault> {
    let Ok(reads) = vec![in alloc; failing; 1] else {
        return Err(LayerFault::OutOfMemory);
    };
    if blocks.len() > 100 {
        return Err(LayerFault::OutOfMemory);
    }
    let mut disk = MemDisk::from_image(alloc, Image::from_blocks(blocks));
    disk.fail_reads(reads);
    let Ok(mut taken) = BlockSet::new(alloc, disk.blocks()) else {
        return Err(LayerFault::OutOfMemory);
    };
    read_layer(alloc, &mut disk, 4, first, tree, &mut taken)
}

/// Reads the allocator's layer that begins at block 6.
fn read(alloc: Global, blocks: Vec<[u8; BLOCK_BYTES]>) -> Result<Layer, LayerFault> {
    read_on(alloc, blocks, 0, 6, 2)
}

/// What is read where block 6 names these blocks, block 7 holds a range up to block 12 of the
/// device, and block 8 one from `start` on.
fn fault(
    alloc: Global,
    next: u32,
    names: [u32; 2],
    start: u8,
) -> Result<Option<LayerFault>, AllocError> {
    let mut blocks = zeros(alloc)?;
    put_index(&mut blocks, 6, next, &names);
    put_data(&mut blocks, 7, 10, 12);
    put_data(&mut blocks, 8, start, 20);
    Ok(read(alloc, blocks).err())
}

#[test]
fn a_layer_is_read(rt: HostRuntime) -> Result<(), Fail> {
    assert_eq!(rt; fault(rt.alloc(), 0, [7, 8], 12)?, None);
    Ok(())
}

#[test]
fn a_loop_ends(rt: HostRuntime) -> Result<(), Fail> {
    let wanted = Some(LayerFault::BadBlock(6));
    assert_eq!(rt; fault(rt.alloc(), 6, [7, 8], 12)?, wanted);
    Ok(())
}

#[test]
fn a_block_that_is_named_twice(rt: HostRuntime) -> Result<(), Fail> {
    let wanted = Some(LayerFault::BadBlock(7));
    assert_eq!(rt; fault(rt.alloc(), 0, [7, 7], 12)?, wanted);
    Ok(())
}

#[test]
fn a_block_of_the_ring(rt: HostRuntime) -> Result<(), Fail> {
    let wanted = Some(LayerFault::BadBlock(5));
    assert_eq!(rt; fault(rt.alloc(), 0, [7, 5], 12)?, wanted);
    Ok(())
}

#[test]
fn a_block_behind_the_disk(rt: HostRuntime) -> Result<(), Fail> {
    let wanted = Some(LayerFault::BadBlock(12));
    assert_eq!(rt; fault(rt.alloc(), 12, [7, 8], 12)?, wanted);
    Ok(())
}

#[test]
fn a_data_block_of_zeros(rt: HostRuntime) -> Result<(), Fail> {
    let wanted = Some(LayerFault::BadBlock(9));
    assert_eq!(rt; fault(rt.alloc(), 0, [7, 9], 12)?, wanted);
    Ok(())
}

#[test]
fn ranges_that_overlap(rt: HostRuntime) -> Result<(), Fail> {
    let wanted = Some(LayerFault::Order(8));
    assert_eq!(rt; fault(rt.alloc(), 0, [7, 8], 11)?, wanted);
    Ok(())
}

/// The blocks of a layer with nothing wrong.
fn good(alloc: Global) -> Result<Vec<[u8; BLOCK_BYTES]>, AllocError> {
    let mut blocks = zeros(alloc)?;
    put_index(&mut blocks, 6, 0, &[7, 8]);
    put_data(&mut blocks, 7, 10, 12);
    put_data(&mut blocks, 8, 12, 20);
    Ok(blocks)
}

/// What is read of it where the read of this number fails.
fn failing(alloc: Global, read: u64) -> Result<Option<LayerFault>, AllocError> {
    let blocks = good(alloc)?;
    Ok(read_on(alloc, blocks, read, 6, 2).err())
}

#[test]
fn the_first_read_fails(rt: HostRuntime) -> Result<(), Fail> {
    assert_eq!(rt; failing(rt.alloc(), 1)?, Some(LayerFault::Device));
    Ok(())
}

#[test]
fn the_last_read_fails(rt: HostRuntime) -> Result<(), Fail> {
    assert_eq!(rt; failing(rt.alloc(), 3)?, Some(LayerFault::Device));
    Ok(())
}

#[test]
fn no_read_fails(rt: HostRuntime) -> Result<(), Fail> {
    assert_eq!(rt; failing(rt.alloc(), 4)?, None);
    Ok(())
}

/// Sets a byte, and the sum that belongs to the bytes where it is asked for.
fn set_byte(block: &mut [u8; BLOCK_BYTES], at: usize, byte: u8, summed: bool) {
    if at < BLOCK_BYTES {
        block[at] = byte;
    }
    if summed {
        let sum = fletch(0, &block[..SUM_AT]);
        LittleEndian::write_u64(&mut block[SUM_AT..], sum);
    }
}

/// What is read of the layer where a byte of a block is another one.
fn altered(
    alloc: Global,
    block: usize,
    at: usize,
    byte: u8,
    summed: bool,
) -> Result<Option<LayerFault>, AllocError> {
    let mut blocks = good(alloc)?;
    if let Some(block) = blocks.get_mut(block) {
        set_byte(block, at, byte, summed);
    }
    Ok(read(alloc, blocks).err())
}

#[test]
fn an_index_block_with_a_wrong_sum(rt: HostRuntime) -> Result<(), Fail> {
    let wanted = Some(LayerFault::BadBlock(6));
    assert_eq!(rt; altered(rt.alloc(), 6, 16, 9, false)?, wanted);
    Ok(())
}

#[test]
fn a_data_block_with_a_wrong_sum(rt: HostRuntime) -> Result<(), Fail> {
    let wanted = Some(LayerFault::BadBlock(7));
    assert_eq!(rt; altered(rt.alloc(), 7, 17, 11, false)?, wanted);
    Ok(())
}

#[test]
fn the_same_with_its_sum(rt: HostRuntime) -> Result<(), Fail> {
    assert_eq!(rt; altered(rt.alloc(), 7, 17, 11, true)?, None);
    Ok(())
}

/// A block, a place in it, a byte, and what that byte makes wrong there, though the sum is right.
const WRONG: &str = "6 3 68 magic
6 8 0 count
6 8 1 count
6 9 4 count
6 12 1 tree
6 24 1 zeros
7 3 73 magic
7 4 0 count
7 4 2 count
7 8 9 length
7 8 11 length
7 12 1 zero
7 16 5 kind
7 4087 1 zeros";

/// The number at the front of a row, and what comes behind it.
fn number(row: &str) -> (u16, &str) {
    match row.split_once(' ') {
        Some((digits, rest)) => (digits.parse::<u16>().unwrap_or(0), rest),
        None => (0, row),
    }
}

/// Whether the block of a row is the one that is bad.
fn is_bad(alloc: Global, row: &str) -> Result<bool, AllocError> {
    let (block, rest) = number(row);
    let (at, rest) = number(rest);
    let (byte, _) = number(rest);
    let byte = u8::try_from(byte).unwrap_or(0);
    let fault = altered(alloc, block as usize, at as usize, byte, true)?;
    Ok(fault == Some(LayerFault::BadBlock(block as u32)))
}

#[test]
fn blocks_with_a_wrong_byte(rt: HostRuntime) -> Result<(), Fail> {
    for row in WRONG.lines() {
        assert!(rt; is_bad(rt.alloc(), row)?, "at {row}");
    }
    Ok(())
}

/// What is read of the allocator's layer where its second data block holds a node.
fn with_a_node(alloc: Global) -> Result<Option<LayerFault>, AllocError> {
    let mut blocks = good(alloc)?;
    if let Some(block) = blocks.get_mut(8) {
        write_data(1, &[1, 1, 0, 0, 0, 1, 0, 0, 0, 0, 0, 0, 0, 1], block);
    }
    Ok(read(alloc, blocks).err())
}

#[test]
fn an_item_of_the_other_tree(rt: HostRuntime) -> Result<(), Fail> {
    assert_eq!(rt; with_a_node(rt.alloc())?, Some(LayerFault::BadBlock(8)));
    Ok(())
}

/// The item of the objects' tree that these bytes are.
fn item_from(alloc: Global, bytes: &[u8]) -> Result<Item, AllocError>
    ensures { IfOk result (λ item. IsOfTree 1 (item_of item)) }
{
    let Ok((item, _)) = decode(alloc, bytes) else {
        return Err(AllocError);
    };
    if tree_of(&item.key) != 1 {
        return Err(AllocError);
    }
    Ok(item)
}

/// An attribute of 528 bytes, whose name begins with this byte.
fn longest(alloc: Global, letter: u8) -> Result<Item, AllocError>
    ensures { IfOk result (λ item. IsOfTree 1 (item_of item)) }
{
    let mut bytes = vec![in alloc; letter; 528]?;
    let head = [2, 1, 0, 0, 0, 1, 0, 0, 0, 0, 0, 0, 0, 255];
    if bytes.len() == 528 {
        bytes[..14].copy_from_slice(&head);
        bytes[269..272].copy_from_slice(&[3, 0, 1]);
    }
    item_from(alloc, &bytes)
}

/// How many blocks a writer gives while so many items are added, and then.
fn counts(alloc: Global, item: &Item, items: u32) -> Result<(u32, u32), AllocError>
    requires { IsOfTree 1 (item_of item.now) }
{
    let mut writer = LayerWriter::new(alloc, 1);
    let mut added = 0u32;
    for _place in 0..items {
        if writer.add(item, 20)?.is_some() {
            added = added.wrapping_add(1);
        }
    }
    let mut rest = 0u32;
    for _place in 0..5 {
        if writer.finish(20)?.is_some() {
            rest = rest.wrapping_add(1);
        }
    }
    Ok((added, rest))
}

/// Seven of the longest items fill a block.
fn blocks_given(alloc: Global, items: u32) -> Result<(u32, u32), AllocError> {
    let item = longest(alloc, b'k')?;
    counts(alloc, &item, items)
}

#[test]
fn no_items_no_blocks(rt: HostRuntime) -> Result<(), Fail> {
    assert_eq!(rt; blocks_given(rt.alloc(), 0)?, (0, 0));
    assert_eq!(rt; blocks_given(rt.alloc(), 1)?, (0, 2));
    Ok(())
}

#[test]
fn a_full_index_block(rt: HostRuntime) -> Result<(), Fail> {
    assert_eq!(rt; blocks_given(rt.alloc(), 7 * 1018)?, (1017, 2));
    Ok(())
}

#[test]
fn one_data_block_more(rt: HostRuntime) -> Result<(), Fail> {
    assert_eq!(rt; blocks_given(rt.alloc(), 7 * 1018 + 1)?, (1018, 3));
    Ok(())
}

/// Items of each kind of the objects' tree, and two that are gone.
const OBJECTS: [u8; 163] = [
    1, 1, 0, 0, 0, 0, 0, 0, 0, 0, 0, 0, 0, 0, // gone
    1, 1, 0, 0, 0, 1, 0, 0, 0, 0, 0, 0, 0, 1, // a directory
    1, 1, 0, 0, 0, 2, 0, 0, 0, 0, 0, 0, 0, 2, 9, 0, 0, 0, // a file
    2, 1, 0, 0, 0, 2, 0, 0, 0, 0, 0, 0, 0, 1, 0x6b, 3, 1, 0, 0x76, // an attribute
    3, 1, 0, 0, 0, 2, 0, 0, 0, 0, 0, 0, 0, 0, 0, 0, 0, 1, 0, 0, 0, 6, 8, 1, 0, 0, // an extent
    0x68, 0x69, 0, 0, 0, 0xa0, 0xa5, 1, // its sum
    3, 1, 0, 0, 0, 2, 0, 0, 0, 0, 0, 0, 0, 5, 0, 0, 0, 6, 0, 0, 0, 0, // gone
    4, 1, 0, 0, 0, 2, 0, 0, 0, 0, 0, 0, 0, 1, 0x76, // a name
    4, 1, 0, 0, 0, 3, 0, 0, 0, 0, 0, 0, 0, // and the node
    5, 1, 0, 0, 0, 2, 0, 0, 0, 0, 0, 0, 0, 5, // in the graveyard
];

/// Ranges of the device, taken and gone.
const RANGES: [u8; 20] = [6, 8, 1, 0, 0, 9, 1, 0, 0, 7, 6, 9, 1, 0, 0, 10, 1, 0, 0, 0];

/// The item of the tree at the front of the bytes, and its length.
fn front(alloc: Global, tree: u32, bytes: &[u8]) -> Result<Option<(Item, usize)>, AllocError>
    ensures { IfOk result (λ found. IfSome found
        (λ f. IsOfTree tree (item_of f.0) × (f.1 ≤ length bytes.now))) }
{
    let (item, len) = match decode(alloc, bytes) {
        Ok(found) => found,
        Err(ItemFault::Bad) => return Ok(None),
        Err(ItemFault::OutOfMemory) => return Err(AllocError),
    };
    if tree_of(&item.key) != tree {
        return Ok(None);
    }
    Ok(Some((item, len)))
}

/// A writer that was given the items of the bytes, which fit one block.
fn filled(alloc: Global, tree: u32, bytes: &[u8]) -> Result<LayerWriter, AllocError> {
    let mut writer = LayerWriter::new(alloc, tree);
    let mut rest = bytes;
    for _place in 0..20 {
        let Some((item, len)) = front(alloc, tree, rest)? else {
            return Ok(writer);
        };
        let _none = writer.add(&item, 6)?;
        rest = &rest[len..];
    }
    Ok(writer)
}

/// Puts a block where it is to stand.
fn put(blocks: &mut [[u8; BLOCK_BYTES]], given: Block) {
    if let Some(block) = blocks.get_mut(given.at as usize) {
        let bytes = given.bytes;
        *block = bytes;
    }
}

/// Puts the blocks that a writer still gives, from a block on.
fn finish_into(
    blocks: &mut [[u8; BLOCK_BYTES]],
    writer: &mut LayerWriter,
    from: u32,
) -> Result<(), AllocError> {
    for at in from..12 {
        if at == 0 {
            return Ok(());
        }
        let Some(given) = writer.finish(at)? else {
            return Ok(());
        };
        put(blocks, given);
    }
    Ok(())
}

/// Blocks with those that a writer still gives, from block 6 on.
fn stored(alloc: Global, writer: LayerWriter) -> Result<Vec<[u8; BLOCK_BYTES]>, AllocError> {
    let mut writer = writer;
    let mut blocks = zeros(alloc)?;
    finish_into(&mut blocks, &mut writer, 6)?;
    Ok(blocks)
}

/// Whether a look at the item's key gives the item.
fn is_found(alloc: Global, layer: &Layer, item: &Item) -> Result<bool, AllocError> {
    let Ok(Some(found)) = layer.next(alloc, Edge::Begin, &item.key) else {
        return Ok(false);
    };
    let told = format!(in alloc; "{found:?}")?;
    let wanted = format!(in alloc; "{item:?}")?;
    Ok(told.as_str() == wanted.as_str())
}

/// How many items of the bytes, up to the first one that is not found, a layer gives.
fn found_in(alloc: Global, layer: &Layer, tree: u32, bytes: &[u8]) -> Result<u32, AllocError> {
    let mut rest = bytes;
    for count in 0..20 {
        let Some((item, len)) = front(alloc, tree, rest)? else {
            return Ok(count);
        };
        if !is_found(alloc, layer, &item)? {
            return Ok(count);
        }
        rest = &rest[len..];
    }
    Ok(20)
}

/// How many items of the bytes are read back from the blocks of a writer.
fn read_back(alloc: Global, tree: u32, bytes: &[u8]) -> Result<u32, AllocError> {
    let writer = filled(alloc, tree, bytes)?;
    let blocks = stored(alloc, writer)?;
    let Ok(layer) = read_on(alloc, blocks, 0, 7, tree) else {
        return Ok(0);
    };
    found_in(alloc, &layer, tree, bytes)
}

#[test]
fn objects_are_read_back(rt: HostRuntime) -> Result<(), Fail> {
    assert_eq!(rt; read_back(rt.alloc(), 1, &OBJECTS)?, 8);
    Ok(())
}

#[test]
fn ranges_are_read_back(rt: HostRuntime) -> Result<(), Fail> {
    assert_eq!(rt; read_back(rt.alloc(), 2, &RANGES)?, 2);
    Ok(())
}

/// Adds the attributes of 528 bytes whose names begin with the letters, puts each block that is given,
/// from block 6 on, and answers the next place.
fn add_longest(
    alloc: Global,
    blocks: &mut [[u8; BLOCK_BYTES]],
    writer: &mut LayerWriter,
    letters: &[u8],
) -> Result<u32, AllocError>
    requires tree { writer.old.tree ≡ 1 }
    requires open { IsOpen writer.old }
{
    let mut at = 6u32;
    for letter in letters {
        let item = longest(alloc, *letter)?;
        if let Some(given) = writer.add(&item, at)? {
            put(blocks, given);
            at = at.wrapping_add(1);
        }
    }
    Ok(at)
}

/// The layer of these attributes, as it is read back from its blocks.
fn longest_back(alloc: Global, letters: &[u8]) -> Result<Option<Layer>, AllocError> {
    let mut blocks = zeros(alloc)?;
    let mut writer = LayerWriter::new(alloc, 1);
    let next = add_longest(alloc, &mut blocks, &mut writer, letters)?;
    finish_into(&mut blocks, &mut writer, next)?;
    let Some(first) = writer.first() else {
        return Ok(None);
    };
    Ok(read_on(alloc, blocks, 0, first, 1).ok())
}

/// How many blocks the layer of these attributes has, and how many of them are found in it.
fn longest_found(alloc: Global, letters: &[u8]) -> Result<(usize, usize), AllocError> {
    let Some(layer) = longest_back(alloc, letters)? else {
        return Ok((0, 0));
    };
    let mut found = 0usize;
    for letter in letters {
        let item = longest(alloc, *letter)?;
        if is_found(alloc, &layer, &item)? {
            found = found.wrapping_add(1);
        }
    }
    Ok((layer.blocks().len(), found))
}

#[test]
fn the_longest_items_fill_three_data_blocks(rt: HostRuntime) -> Result<(), Fail> {
    let found = longest_found(rt.alloc(), b"abcdefghijklmno")?;
    assert_eq!(rt; found, (4, 15));
    Ok(())
}

#[test]
fn a_full_data_block_and_one_item_more(rt: HostRuntime) -> Result<(), Fail> {
    assert_eq!(rt; longest_found(rt.alloc(), b"abcdefg")?, (2, 7));
    assert_eq!(rt; longest_found(rt.alloc(), b"abcdefgh")?, (3, 8));
    Ok(())
}
