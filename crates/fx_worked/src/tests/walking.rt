//! Streams in a ring of three blocks.
use crate::stream_in;
use fx_base::{BLOCK_BYTES, zero_block};
use fx_jblock::{Start, pack};
use std::alloc::{AllocError, Global};

/// An image with a ring of three blocks, all zeros.
fn zeros(alloc: Global) -> Result<Vec<[u8; BLOCK_BYTES]>, AllocError> {
    let mut image = Vec::new(alloc);
    image.resize(5, zero_block())?;
    Ok(image)
}

/// Puts a block that holds one byte in the place of its sequence, and answers the chain after it.
fn put(image: &mut [[u8; BLOCK_BYTES]], sequence: u64, epoch: u64, chain: u64, byte: u8) -> u64 {
    let at = (2 + sequence % 3) as usize;
    let Some(block) = image.get_mut(at) else {
        return 0;
    };
    if epoch == 0 {
        return 0;
    }
    pack(sequence, epoch, chain, &[byte], block)
}

/// The first byte of each block of the stream that starts at this sequence, for a generation of 9.
fn bytes_from(
    alloc: Global,
    image: &[[u8; BLOCK_BYTES]],
    sequence: u64,
    chain: u64,
    floor: u64,
) -> Result<Vec<u8>, AllocError> {
    let mut bytes = Vec::new(alloc);
    let start = Start {
        sequence,
        chain,
        floor,
    };
    if image.len() != 5 || sequence > 100 {
        return Ok(bytes);
    }
    let stream = stream_in(alloc, image, 3, 9, start)?;
    for block in stream.blocks.as_slice() {
        bytes.push(block.records.as_slice().first().copied().unwrap_or(0))?;
    }
    Ok(bytes)
}

#[test]
fn a_stream_goes_round_the_ring(rt: HostRuntime) -> Result<(), AllocError> {
    let mut image = zeros(rt.alloc())?;
    let chain = put(&mut image, 4, 1, 1, b'a');
    let chain = put(&mut image, 5, 1, chain, b'b');
    let chain = put(&mut image, 6, 2, chain, b'c');
    let bytes = bytes_from(rt.alloc(), &image, 4, 1, 1)?;
    assert_eq!(rt; bytes.as_slice(), b"abc".as_slice());
    // A fourth block stands where the first one stood.
    put(&mut image, 7, 2, chain, b'd');
    let bytes = bytes_from(rt.alloc(), &image, 4, 1, 1)?;
    assert_eq!(rt; bytes.as_slice(), b"".as_slice());
    Ok(())
}

/// A session that put `a` and `b`, where the block of `a` was torn, and a later one that put `a` again.
fn put_again(image: &mut [[u8; BLOCK_BYTES]]) -> u64 {
    let chain = put(image, 0, 1, 1, b'a');
    put(image, 1, 1, chain, b'b');
    put(image, 0, 2, 1, b'a')
}

#[test]
fn a_block_of_another_chain_is_not_taken(rt: HostRuntime) -> Result<(), AllocError> {
    let mut image = zeros(rt.alloc())?;
    put_again(&mut image);
    let bytes = bytes_from(rt.alloc(), &image, 0, 1, 1)?;
    assert_eq!(rt; bytes.as_slice(), b"a".as_slice());
    Ok(())
}

#[test]
fn a_block_of_an_earlier_epoch_is_not_taken(rt: HostRuntime) -> Result<(), AllocError> {
    let mut image = zeros(rt.alloc())?;
    let chain = put_again(&mut image);
    // The block of `b` is packed anew, from the chain that stands.
    put(&mut image, 1, 1, chain, b'b');
    let bytes = bytes_from(rt.alloc(), &image, 0, 1, 1)?;
    assert_eq!(rt; bytes.as_slice(), b"a".as_slice());
    // Under the epoch before it, or a later one, it is the next block.
    put(&mut image, 1, 2, chain, b'b');
    let bytes = bytes_from(rt.alloc(), &image, 0, 1, 1)?;
    assert_eq!(rt; bytes.as_slice(), b"ab".as_slice());
    Ok(())
}

#[test]
fn a_start_refuses_epochs_below_its_floor(rt: HostRuntime) -> Result<(), AllocError> {
    let mut image = zeros(rt.alloc())?;
    let chain = put(&mut image, 0, 2, 1, b'a');
    put(&mut image, 1, 1, chain, b'b');
    let bytes = bytes_from(rt.alloc(), &image, 1, chain, 2)?;
    assert_eq!(rt; bytes.as_slice(), b"".as_slice());
    let bytes = bytes_from(rt.alloc(), &image, 1, chain, 1)?;
    assert_eq!(rt; bytes.as_slice(), b"b".as_slice());
    Ok(())
}
