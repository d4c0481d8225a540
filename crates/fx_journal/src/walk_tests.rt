use super::*;
use crate::fake::FakeDisk;
use fx_disk::Disk;
use fx_jblock::{Start, pack};
use std::alloc::{AllocError, Global};
use std::test::Fail;

/// Sequence 6 in a ring of four blocks: the stream wraps before its third block.
const START: Start = Start {
    sequence: 6,
    chain: 9,
    floor: 2,
};

/// The epochs of the blocks that were put into a ring of zeros, and those of the stream under
/// generation 3. A digit is an epoch, and 9 stands for a block under another chain.
const STREAMS: &str = "\
. .
2 2
3 3
223 223
2233 2233
232 23
231 23
1 .
4 .
24 2
13 .
292 2
9 .
22222 .
";

fn zeros(alloc: Global, count: usize) -> Result<Vec<[u8; 4096]>, AllocError> {
    let mut blocks = Vec::new(alloc);
    blocks.resize(count, [0; 4096])?;
    Ok(blocks)
}

/// Puts a block of this epoch into the ring, and answers the place after it.
fn put(blocks: &mut [[u8; 4096]], ring: u32, place: Start, epoch: u64, text: &[u8]) -> Start {
    let mut next = place;
    if ring == 0 || ring > 256 || epoch == 0 || text.is_empty() || text.len() > 4064 {
        return next;
    }
    let at = block_number(ring, place.sequence) as usize;
    if at < blocks.len() {
        next.chain = pack(place.sequence, epoch, place.chain, text, &mut blocks[at]);
        next.sequence = place.sequence.wrapping_add(1);
        next.floor = epoch;
    }
    next
}

/// Puts a block for each digit.
fn put_all(blocks: &mut [[u8; 4096]], digits: &str) {
    let mut place = START;
    for digit in digits.bytes() {
        let epoch = u64::from(digit.saturating_sub(b'0'));
        if epoch == 9 {
            place.chain ^= 1;
            place = put(blocks, 4, place, 2, b"abc");
        } else {
            place = put(blocks, 4, place, epoch, b"abc");
        }
    }
}

/// Walks where the disk has the ring.
fn walk_on<D: Disk>(
    alloc: Global,
    disk: &mut D,
    start: Start,
    ring: u32,
) -> Result<Option<Stream>, WalkFault> {
    if ring == 0 || disk.blocks() < 2 || disk.blocks() - 2 < ring || start.sequence > 1000 {
        return Ok(None);
    }
    walk(alloc, disk, start, ring, 3).map(Some)
}

/// The epochs of the stream that stands in the ring of four blocks.
fn epochs_in(alloc: Global, blocks: Vec<[u8; 4096]>) -> Result<Vec<u8>, Fail> {
    let mut disk = FakeDisk::of(blocks, 0, 0).ok_or("small")?;
    let stream = walk_on(alloc, &mut disk, START, 4)?.ok_or("walked")?;
    let mut epochs = Vec::new(alloc);
    for block in stream.blocks.as_slice() {
        epochs.push(b'0' + (block.epoch % 10) as u8)?;
    }
    if epochs.is_empty() {
        epochs.push(b'.')?;
    }
    Ok(epochs)
}

#[test]
fn reads_the_longest_run(rt: HostRuntime) -> Result<(), Fail> {
    for row in STREAMS.lines() {
        let (digits, wanted) = row.split_once(" ").ok_or("row")?;
        let mut blocks = zeros(rt.alloc(), 6)?;
        put_all(&mut blocks, digits);
        let epochs = epochs_in(rt.alloc(), blocks)?;
        assert_eq!(rt; epochs.as_slice(), wanted.as_bytes(), "{row}");
    }
    Ok(())
}

/// The epochs of the stream of four blocks where a byte of the third one was changed.
fn epochs_torn(alloc: Global, at: usize) -> Result<Vec<u8>, Fail> {
    let mut blocks = zeros(alloc, 6)?;
    put_all(&mut blocks, "2222");
    // sequence 8 stands first in the ring
    tear(blocks.get_mut(2), at);
    epochs_in(alloc, blocks)
}

fn tear(block: Option<&mut [u8; 4096]>, at: usize) {
    let Some(block) = block else {
        return;
    };
    if at < 4096 {
        block[at] ^= 0x5a;
    }
}

/// The same where the third block was cut at this byte: zeros stand from there on. None where they
/// stood there before.
fn epochs_cut(alloc: Global, at: usize) -> Result<Option<Vec<u8>>, Fail> {
    let mut blocks = zeros(alloc, 6)?;
    put_all(&mut blocks, "2222");
    if !cut(blocks.get_mut(2), at) {
        return Ok(None);
    }
    let epochs = epochs_in(alloc, blocks)?;
    Ok(Some(epochs))
}

fn cut(block: Option<&mut [u8; 4096]>, at: usize) -> bool {
    let Some(block) = block else {
        return false;
    };
    if at >= 4096 {
        return false;
    }
    let rest = &mut block[at..];
    let is_cut = rest.iter().any(|byte| *byte != 0);
    rest.fill(0);
    is_cut
}

#[test]
fn ends_at_a_torn_block(rt: HostRuntime) -> Result<(), Fail> {
    for at in 0..4096 {
        let epochs = epochs_torn(rt.alloc(), at)?;
        assert_eq!(rt; epochs.as_slice(), b"22".as_slice(), "{at}");
    }
    Ok(())
}

#[test]
fn ends_at_a_block_that_is_cut(rt: HostRuntime) -> Result<(), Fail> {
    for at in 0..4096 {
        if let Some(epochs) = epochs_cut(rt.alloc(), at)? {
            assert_eq!(rt; epochs.as_slice(), b"22".as_slice(), "{at}");
        }
    }
    assert!(rt; epochs_cut(rt.alloc(), 4090)?.is_some());
    Ok(())
}

/// A ring of 256 blocks, all of them in the stream, and the place after it.
fn full_ring(alloc: Global) -> Result<(Vec<[u8; 4096]>, Start), AllocError> {
    let mut blocks = zeros(alloc, 258)?;
    let text = vec![in alloc; 7u8; 4064]?;
    let mut place = START;
    for _ in 0..256 {
        place = put(&mut blocks, 256, place, 3, &text);
    }
    Ok((blocks, place))
}

#[test]
fn reads_a_full_ring(rt: HostRuntime) -> Result<(), Fail> {
    let (blocks, place) = full_ring(rt.alloc())?;
    let mut disk = FakeDisk::of(blocks, 0, 0).ok_or("small")?;
    let stream = walk_on(rt.alloc(), &mut disk, START, 256)?.ok_or("walked")?;
    assert_eq!(rt; stream.blocks.len(), 256);
    assert_eq!(rt; stream.next, place);
    Ok(())
}

/// A disk whose third read fails, with three blocks in the stream.
fn failing_disk(alloc: Global) -> Result<FakeDisk, Fail> {
    let mut blocks = zeros(alloc, 6)?;
    put_all(&mut blocks, "233");
    let disk = FakeDisk::of(blocks, 0, 3).ok_or("small")?;
    Ok(disk)
}

#[test]
fn a_failed_read_is_told(rt: HostRuntime) -> Result<(), Fail> {
    let mut disk = failing_disk(rt.alloc())?;
    let fault = walk_on(rt.alloc(), &mut disk, START, 4).err();
    assert_eq!(rt; fault, Some(WalkFault::Device));
    let stream = walk_on(rt.alloc(), &mut disk, START, 4)?.ok_or("walked")?;
    assert!(rt; !stream.blocks.is_empty());
    let mut sequence = 6;
    for block in &stream.blocks.into_vec() {
        assert_eq!(rt; block.sequence, sequence);
        assert_eq!(rt; block.records.as_slice(), b"abc".as_slice());
        sequence = block.sequence.wrapping_add(1);
    }
    assert_eq!(rt;
        (sequence, stream.next.sequence, stream.next.floor),
        (9, 9, 3)
    );
    Ok(())
}
