ghost use Rattle.std.specs.Prelude.{◌≤◌, length};

use super::*;
use std::test::Fail;

/// A block that begins with `head` and is zero else.
fn block(head: &[u8]) -> [u8; 4096]
    requires { length head.now ≤ 4096 }
{
    let mut bytes = [0; 4096];
    bytes[..head.len()].copy_from_slice(head);
    bytes
}

#[test]
fn sums(rt: HostRuntime) -> Result<(), Fail> {
    assert_eq!(rt; fletch(0, &[0x78, 0, 0, 0]), 515_396_075_640);
    assert_eq!(rt; fletch(0, &block(b"x")), 527_765_581_332_600);
    assert_eq!(rt; fletch(0, &block(b"hi")), 118_676_887_055_657_320);
    assert_eq!(rt; fletch(7, &[]), 7);
    // In two pieces, and over the ends of both sums.
    let half = fletch(u64::MAX, &[0xff; 8]);
    assert_eq!(rt; fletch(half, &[0xff; 8]), fletch(u64::MAX, &[0xff; 16]));
    Ok(())
}
