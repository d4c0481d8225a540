ghost use Rattle.std.specs.Prelude.{◌≡◌, [], None};

use super::*;
use fx_item::{Item, Key, LockKey, Look, LookFault, Value};
use std::alloc::{AllocError, Global};

const FILE: LockKey = LockKey { store: 1, id: 7 };

fn new_block(index: u32, block: u32) -> NewBlock
    ensures index { result.index ≡ index }
    ensures block { result.block ≡ block }
{
    NewBlock {
        index,
        block,
        sum: 1_000,
    }
}

/// Whether an item is this extent.
fn is_extent(item: &Item, from: u32, to: u32, first: u32) -> bool {
    match (&item.key, &item.value) {
        (Key::Extent { start, end, .. }, Value::Extent { block, .. }) => {
            *start == from && *end == to && *block == first
        }
        _ => false,
    }
}

#[test]
fn blocks_are_joined(rt: HostRuntime) -> Result<(), AllocError> {
    // A gap on the device behind the second one, and one in the file behind the third.
    let staged = [
        new_block(0, 300),
        new_block(1, 301),
        new_block(2, 500),
        new_block(4, 501),
    ];
    let items = extents(rt.alloc(), FILE, &staged)?;
    let items = items.as_slice();
    assert_eq!(rt; items.len(), 3);
    assert!(rt; is_extent(&items[0], 0, 2, 300) && is_extent(&items[1], 2, 3, 500));
    assert!(rt; is_extent(&items[2], 4, 5, 501));
    Ok(())
}

/// Whether an item is a range of blocks, taken or free again.
fn is_range(item: &Item, from: u32, to: u32, is_taken: bool) -> bool {
    let is_value = match &item.value {
        Value::Taken => is_taken,
        Value::Gone => !is_taken,
        _ => false,
    };
    match &item.key {
        Key::Allocation { start, end } => *start == from && *end == to && is_value,
        _ => false,
    }
}

#[test]
fn ranges_are_joined(rt: HostRuntime) -> Result<(), AllocError> {
    let items = allocations(rt.alloc(), &[305, 306, 307, 310], &[308, 309, 311])?;
    let items = items.as_slice();
    assert_eq!(rt; items.len(), 4);
    assert!(rt; is_range(&items[0], 305, 308, true) && is_range(&items[1], 308, 310, false));
    assert!(rt; is_range(&items[2], 310, 311, true) && is_range(&items[3], 311, 312, false));
    Ok(())
}

/// A tree of no items.
struct Nothing;

impl Look for Nothing {
    ghost said = { λ s p. None };

    ghost keys = { λ s. [] };

    ghost lacks = { λ s. [] };

    fn next_from(&self, _alloc: Global, _key: &Key) -> Result<Option<Item>, LookFault> {
        Ok(None)
    }
}

#[test]
fn holes_have_no_block(rt: HostRuntime) -> Result<(), AllocError> {
    assert!(rt; matches!(block_of(rt.alloc(), &Nothing, FILE, 3), Ok(None)));
    Ok(())
}

#[test]
fn a_text_over_the_end_of_a_block(rt: HostRuntime) -> Result<(), AllocError> {
    let blocks = covered(4_095, b"xy");
    assert!(rt; blocks.start == 0 && blocks.end == 2);
    assert!(rt; is_partly_covered(4_095, b"xy", 0) && is_partly_covered(4_095, b"xy", 1));
    let mut first = [0; 4096];
    let mut second = [0; 4096];
    put_patch(&mut first, text_patch(4_095, b"xy", 0));
    put_patch(&mut second, text_patch(4_095, b"xy", 1));
    // The file's 4,097 bytes, read from 4,094 on.
    assert_eq!(rt; read_part(&first, 0, 4_094, 4_097), b"\0x".as_slice());
    assert_eq!(rt; read_part(&second, 1, 4_094, 4_097), b"y".as_slice());
    Ok(())
}

#[test]
fn a_truncation_inside_a_block(rt: HostRuntime) -> Result<(), AllocError> {
    // Three blocks of a file of 8,193 bytes, cut to 4,097 and to 4,096.
    assert!(rt; is_cut_inside(4_097, 8_193, 1) && !is_cut_inside(4_096, 8_193, 1));
    let mut block = [7; 4096];
    put_patch(&mut block, zero_patch(4_097, 1));
    assert!(rt; block[0] == 7 && block[1] == 0 && block[4_095] == 0);
    let touched = cut_blocks(4_097, 8_193);
    assert!(rt; touched.start == 1 && touched.end == 3);
    let Some(gone) = taken_away(FILE, 4_097, 8_193) else {
        return Err(AllocError);
    };
    assert!(rt; is_gone(&gone, 2, 3));
    Ok(())
}

/// Whether an item says that these places have no block.
fn is_gone(item: &Item, from: u32, to: u32) -> bool {
    match (&item.key, &item.value) {
        (Key::Extent { start, end, .. }, Value::Gone) => *start == from && *end == to,
        _ => false,
    }
}

#[test]
fn an_empty_file_that_grows(rt: HostRuntime) -> Result<(), AllocError> {
    // To 5 bytes: no block is touched, none goes, and a hole reads as zeros.
    assert!(rt; cut_blocks(5, 0).is_empty() && taken_away(FILE, 5, 0).is_none());
    assert!(rt; !is_cut_inside(5, 0, 0));
    assert_eq!(rt; read_part(&[0; 4096], 0, 0, 5), [0; 5].as_slice());
    Ok(())
}

#[test]
fn the_blocks_of_a_long_text(rt: HostRuntime) -> Result<(), AllocError> {
    let text: Vec<u8> = vec![in rt.alloc(); 0; 1_048_576]?;
    assert_eq!(rt; covered(0, &text).end, 256);
    assert_eq!(rt; covered(1, &text).end, 257);
    assert!(rt; !is_partly_covered(0, &text, 255) && is_partly_covered(1, &text, 256));
    Ok(())
}

#[test]
fn patches_are_put_in_order(rt: HostRuntime) -> Result<(), AllocError> {
    // Two writes and a cut of one line, in one block.
    let mut block = [7; 4096];
    let patches = [
        text_patch(0, b"abc", 0),
        text_patch(1, b"xyz", 0),
        zero_patch(3, 0),
    ];
    put_patches(&mut block, &patches);
    assert_eq!(rt; read_part(&block, 0, 0, 5), b"axy\0\0".as_slice());
    Ok(())
}
