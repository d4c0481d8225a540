ghost use Rattle.std.specs.Prelude.{◌<◌};

use super::*;
use std::process::Abort;

/// The header and the first bytes of the block of sequence 7, epoch 2 and three record bytes.
const HEAD: [u8; 29] = [
    7, 0, 0, 0, 0, 0, 0, 0, 2, 0, 0, 0, 0, 0, 0, 0, 3, 0, 0, 0, 0, 0, 0, 0, 97, 98, 99, 0, 0,
];

fn expect_head(rt: &impl Abort, block: &[u8; BLOCK_BYTES]) {
    for at in 0..29 {
        assert_eq!(rt; block[at], HEAD[at]);
    }
}

/// Each edit of one byte makes the block torn.
fn expect_torn(rt: &impl Abort, block: &mut [u8; BLOCK_BYTES]) {
    for at in 0..BLOCK_BYTES {
        let kept = block[at];
        block[at] = kept ^ 0x5a;
        assert_eq!(rt; fits(block, 7, 2, 2, 9), Fit::Torn);
        block[at] = kept;
    }
}

/// The block with another byte under a right sum is stale.
fn expect_stale(rt: &impl Abort, block: &mut [u8; BLOCK_BYTES], at: usize, byte: u8)
    requires { at < BLOCK_BYTES }
{
    let kept = block[at];
    block[at] = byte;
    let sum = fletch(9, &block[..SUM_AT]);
    LittleEndian::write_u64(&mut block[SUM_AT..], sum);
    assert_eq!(rt; fits(block, 7, 0, 2, 9), Fit::Stale);
    block[at] = kept;
}

#[test]
fn blocks(rt: HostRuntime) {
    let mut block = [0xff; BLOCK_BYTES];
    let chain = pack(7, 2, 9, b"abc", &mut block);
    expect_head(&rt, &block);
    let whole = Fit::Fits {
        chain,
        epoch: 2,
        used: 3,
    };
    assert_eq!(rt; fits(&block, 7, 2, 2, 9), whole);
    assert_eq!(rt; fits(&block, 7, 0, u64::MAX, 9), whole);
    assert_eq!(rt; fits(&block, 8, 2, 2, 9), Fit::Stale);
    assert_eq!(rt; fits(&block, 7, 3, 3, 9), Fit::Stale);
    assert_eq!(rt; fits(&block, 7, 1, 1, 9), Fit::Stale);
    assert_eq!(rt; fits(&block, 7, 2, 2, 8), Fit::Torn);
    expect_torn(&rt, &mut block);
    // Another sequence, epoch 0, no record bytes, too many, both zero fields, and the padding.
    expect_stale(&rt, &mut block, 0, 8);
    expect_stale(&rt, &mut block, 8, 0);
    expect_stale(&rt, &mut block, 16, 0);
    expect_stale(&rt, &mut block, 17, 16);
    expect_stale(&rt, &mut block, 18, 1);
    expect_stale(&rt, &mut block, 23, 1);
    expect_stale(&rt, &mut block, 27, 1);
    expect_stale(&rt, &mut block, 4087, 1);
}
