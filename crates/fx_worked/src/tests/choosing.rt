//! Superblocks of equal generation, and torn ones.
use crate::chosen;
use fx_base::{BLOCK_BYTES, zero_block};
use fx_super::{Super, Which, encode_super, first_super};

/// A superblock of this generation whose journal starts at this sequence.
fn super_of(generation: u64, sequence: u64) -> [u8; BLOCK_BYTES] {
    let mut block = zero_block();
    let mut sup = first_super(2048, 256);
    if 1 <= generation && generation < 100 && sequence < 100 {
        sup = Super {
            generation,
            sequence,
            ..sup
        };
    }
    encode_super(&sup, &mut block);
    block
}

/// The half of a superblock that is written, over zeros.
fn torn(generation: u64, sequence: u64) -> [u8; BLOCK_BYTES] {
    let mut block = super_of(generation, sequence);
    block[2048..].fill(0);
    block
}

/// Which of the two is chosen, and where its journal starts.
fn start_of(first: &[u8; BLOCK_BYTES], second: &[u8; BLOCK_BYTES]) -> Option<(Which, u64)> {
    match chosen(first, second) {
        Some((which, sup)) => Some((which, sup.sequence)),
        None => None,
    }
}

#[test]
fn the_first_of_two_with_one_generation(rt: HostRuntime) {
    let found = start_of(&super_of(2, 7), &super_of(2, 8));
    assert_eq!(rt; found, Some((Which::A, 7)));
}

#[test]
fn the_greater_generation(rt: HostRuntime) {
    let found = start_of(&super_of(2, 7), &super_of(3, 8));
    assert_eq!(rt; found, Some((Which::B, 8)));
    let found = start_of(&super_of(4, 7), &super_of(3, 8));
    assert_eq!(rt; found, Some((Which::A, 7)));
}

#[test]
fn the_older_one_where_the_newer_is_torn(rt: HostRuntime) {
    let found = start_of(&super_of(2, 7), &torn(3, 8));
    assert_eq!(rt; found, Some((Which::A, 7)));
    let found = start_of(&torn(3, 8), &super_of(2, 7));
    assert_eq!(rt; found, Some((Which::B, 7)));
}

#[test]
fn none_of_two_that_are_torn(rt: HostRuntime) {
    assert_eq!(rt; start_of(&torn(2, 7), &torn(3, 8)), None);
}
