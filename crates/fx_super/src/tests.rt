use super::*;
use byteorder::{ByteOrder, LittleEndian};
use fx_base::BLOCK_BYTES;
use fx_sum::fletch;
use std::process::Abort;

/// The first 80 bytes of the first superblock of 2,048 blocks with a ring of 256.
const HEAD: [u8; 80] = [
    0x66, 0x78, 0x66, 0x73, 0x2d, 0x6f, 0x77, 0x6e, 1, 0, 0, 0, 0, 8, 0, 0, 1, 0, 0, 0, 0, 0, 0, 0,
    0, 1, 0, 0, 0, 0, 0, 0, 0, 0, 0, 0, 0, 0, 0, 0, 1, 0, 0, 0, 0, 0, 0, 0, 0, 0, 0, 0, 0, 0, 0, 0,
    1, 0, 0, 0, 0, 0, 0, 0, 1, 0, 0, 0, 0, 0, 0, 0, 0, 0, 0, 0, 0, 0, 0, 0,
];

/// Each edit of one byte is refused.
fn expect_bad(rt: &impl Abort, block: &mut [u8; BLOCK_BYTES]) {
    for at in 0..BLOCK_BYTES {
        let kept = block[at];
        block[at] = kept ^ 0x5a;
        assert_eq!(rt; decode_super(block), Err(SuperFault::Bad));
        block[at] = kept;
    }
}

/// Writes the sum that belongs to the other bytes.
fn set_sum(block: &mut [u8; BLOCK_BYTES]) {
    let sum = fletch(0, &block[..SUM_AT]);
    LittleEndian::write_u64(&mut block[SUM_AT..], sum);
}

#[test]
fn first(rt: HostRuntime) {
    let new = first_super(2048, MIN_RING);
    let mut block = [0xff; BLOCK_BYTES];
    encode_super(&new, &mut block);
    for at in 0..80 {
        assert_eq!(rt; block[at], HEAD[at]);
    }
    assert_eq!(rt; block[336], 1);
    assert_eq!(rt;
        LittleEndian::read_u64(&block[SUM_AT..]),
        5_012_212_952_592_150_681
    );
    assert_eq!(rt; decode_super(&block), Ok(new));
    expect_bad(&rt, &mut block);
}

#[test]
fn versions(rt: HostRuntime) {
    let mut block = [0; BLOCK_BYTES];
    assert_eq!(rt; decode_super(&block), Err(SuperFault::Bad));
    encode_super(&first_super(MIN_BLOCKS, MIN_RING), &mut block);
    block[8] = 2;
    assert_eq!(rt; decode_super(&block), Err(SuperFault::Bad));
    set_sum(&mut block);
    assert_eq!(rt; decode_super(&block), Err(SuperFault::Version(2)));
    // What follows another version is not looked at.
    block[336] = 0;
    set_sum(&mut block);
    assert_eq!(rt; decode_super(&block), Err(SuperFault::Version(2)));
    block[8] = 1;
    set_sum(&mut block);
    assert_eq!(rt; decode_super(&block), Err(SuperFault::Bad));
}

#[test]
fn layers(rt: HostRuntime) {
    let mut list = LayerList::new();
    assert!(rt; !list.is_full());
    list.push(300);
    list.push(299);
    assert_eq!(rt; list.as_slice(), [300, 299].as_slice());
    assert_eq!(rt; list.count(), 2);
    assert_eq!(rt; list, LayerList::from_slice(&[300, 299]));
    let mut fields = first_super(2048, MIN_RING);
    fields.objects = list;
    fields.allocs = LayerList::from_slice(&[2047; LAYERS]);
    assert!(rt; fields.allocs.is_full());
    let mut block = [0; BLOCK_BYTES];
    encode_super(&fields, &mut block);
    assert_eq!(rt; decode_super(&block), Ok(fields));
    assert_eq!(rt; LittleEndian::read_u32(&block[84..]), 299);
    expect_bad(&rt, &mut block);
}

#[test]
fn choices(rt: HostRuntime) {
    let rows = [
        (None, None, None),
        (Some(4), None, Some(Which::A)),
        (None, Some(4), Some(Which::B)),
        (Some(4), Some(5), Some(Which::B)),
        (Some(5), Some(4), Some(Which::A)),
        (Some(5), Some(5), Some(Which::A)),
    ];
    for (a, b, which) in rows {
        assert_eq!(rt; choose(a, b), which);
    }
    assert_eq!(rt; (Which::A.block(), Which::B.block()), (0, 1));
    assert_eq!(rt; Which::A.other(), Which::B.other().other());
}
