ghost use Rattle.std.specs.Prelude.{◌<◌};

use super::*;
use std::alloc::{AllocError, Global};
use std::test::Fail;

/// A source of this text, whose call of number `fails` fails; 0 is none.
fn source(alloc: Global, text: &[u8], piece: u32, fails: u64) -> Result<MemSource, AllocError>
    requires { 0 < piece }
{
    let text = Vec::from_slice(alloc, text)?;
    let fails = Vec::from_slice(alloc, &[fails])?;
    Ok(MemSource::new(text, piece, fails))
}

#[test]
fn reads_to_the_end_or_the_limit(rt: HostRuntime) -> Result<(), Fail> {
    let text = b"mkdir /v".as_slice();
    for (piece, limit, whole) in [
        (1, 8, true),
        (1, 7, false),
        (3, 9, true),
        (7, 8, true),
        (8, 8, true),
        (9, 7, false),
        (u32::MAX, u32::MAX, true),
        (u32::MAX, 0, false),
    ] {
        let mut src = source(rt.alloc(), text, piece, 0)?;
        match read_whole(rt.alloc(), &mut src, limit) {
            Ok(all) => {
                assert!(rt; whole, "piece {piece}, limit {limit}");
                assert_eq!(rt; all.as_slice(), text);
            }
            Err(fault) => {
                assert!(rt; !whole, "piece {piece}, limit {limit}");
                assert_eq!(rt; fault, ReadAllFault::TooMuch);
            }
        }
        assert_eq!(rt; src.faults(), 0);
    }
    let mut none = source(rt.alloc(), b"", 1, 0)?;
    let all = read_whole(rt.alloc(), &mut none, 0)?;
    assert!(rt; all.is_empty());
    Ok(())
}

#[test]
fn source_fails_at_each_call_in_turn(rt: HostRuntime) -> Result<(), Fail> {
    let text = b"sync".as_slice();
    // Four calls give a byte each, the fifth finds the end.
    for (fails, left) in [(1, 4), (2, 3), (3, 2), (4, 1), (5, 0)] {
        let mut src = source(rt.alloc(), text, 1, fails)?;
        let fault = read_whole(rt.alloc(), &mut src, 9).err();
        assert_eq!(rt; fault, Some(ReadAllFault::Failed), "call {fails}");
        assert_eq!(rt; src.faults(), 1);

        // The failed call took nothing.
        let rest = read_whole(rt.alloc(), &mut src, 9)?;
        assert_eq!(rt; rest.len(), left, "call {fails}");
        assert_eq!(rt; src.faults(), 1);
    }
    Ok(())
}

#[test]
fn sink_fails_at_each_call_in_turn(rt: HostRuntime) -> Result<(), Fail> {
    let text = b"sync".as_slice();
    for (piece, fails, taken) in [
        (1, 1, 0),
        (1, 2, 1),
        (1, 3, 2),
        (1, 4, 3),
        (3, 1, 0),
        (3, 2, 3),
        (4, 1, 0),
    ] {
        let fails = Vec::from_slice(rt.alloc(), &[fails])?;
        let mut out = MemSink::new(rt.alloc(), piece, fails);
        assert_eq!(rt; write_whole(&mut out, text), Err(Failed));
        assert_eq!(rt; out.text().len(), taken);
        assert!(rt; text.starts_with(out.text()));
        assert_eq!(rt; out.faults(), 1);
        assert_eq!(rt; out.starved(), 0);
    }
    Ok(())
}

#[test]
fn sink_keeps_all_in_order(rt: HostRuntime) -> Result<(), Fail> {
    for piece in [1, 2, 3, u32::MAX] {
        let mut out = MemSink::new(rt.alloc(), piece, Vec::new(rt.alloc()));
        for text in ["1 1 ok\n", "", "1 2 ok 1\n"] {
            assert_eq!(rt; write_whole(&mut out, text.as_bytes()), Ok(()));
        }
        assert_eq!(rt; out.text(), b"1 1 ok\n1 2 ok 1\n".as_slice());
        assert_eq!(rt; out.faults(), 0);
        assert_eq!(rt; out.starved(), 0);
    }
    Ok(())
}
