//! Items as bytes, their limits, and their order.
ghost use Rattle.std.specs.Prelude.{◌<◌};

use super::*;
use std::alloc::{AllocError, Global};
use std::test::Fail;

const CHILD_V: [u8; 28] = [
    4, 0, 0, 0, 0, 0, 0, 0, 0, 0, 0, 0, 0, 1, 0x76, 4, 1, 0, 0, 0, 0, 0, 0, 0, 0, 0, 0, 0,
];

/// Bytes by words of hexadecimal digits, `61*255` being so many bytes 61. After ` => ` how many of
/// them the item at the front takes, or `bad`.
const ITEMS: &str = "01 01000000 0000000000000000 01 => 14
01 01000000 0100000000000000 02 02000000 => 18
01 01000000 0100000000000000 02 ffffffff 77 => 18
01 ffffffff ffffffffffffffff 00 => 14
01 01000000 0100000000000000 03 0100 76 => bad
02 01000000 0100000000000000 01 6b 03 0100 76 => 19
02 01000000 0100000000000000 01 6b 00 => 16
02 01000000 0100000000000000 ff 6b*255 03 0001 76*256 => 528
02 01000000 0100000000000000 01 6b 03 0000 => bad
02 01000000 0100000000000000 01 6b 03 0101 76*257 => bad
02 01000000 0100000000000000 00 03 0100 76 => bad
03 01000000 0100000000000000 00000000 01000000 06 08010000 6869000000a0a501 => 34
03 01000000 0100000000000000 00000000 20000000 06 08010000 01*256 => 282
03 01000000 0100000000000000 00000000 21000000 06 08010000 01*264 => bad
03 01000000 0100000000000000 ff0f0000 00100000 06 ffff0000 01*8 => 34
03 01000000 0100000000000000 ff0f0000 00100000 06 00000100 01*8 => bad
03 01000000 0100000000000000 ff0f0000 01100000 06 08010000 01*16 => bad
03 01000000 0100000000000000 00000000 00100000 00 => 22
03 01000000 0100000000000000 00000000 01100000 00 => bad
03 01000000 0100000000000000 05000000 05000000 00 => bad
03 01000000 0100000000000000 05000000 04000000 00 => bad
04 00000000 0000000000000000 01 76 04 01000000 0000000000000000 => 28
04 00000000 0000000000000000 01 76 00 => 16
04 00000000 0000000000000000 ff 76*255 00 => 270
04 00000000 0000000000000000 01 2f 00 => bad
04 00000000 0000000000000000 02 2e2e 00 => bad
04 00000000 0000000000000000 01 76 05 => bad
05 01000000 0100000000000000 05 => 14
05 01000000 0100000000000000 00 => 14
05 01000000 0100000000000000 01 => bad
06 08010000 09010000 07 => 10
06 00000000 00000100 07 => 10
06 00000000 00000100 00 => 10
06 00000000 01000100 07 => bad
06 09010000 09010000 07 => bad
06 08010000 09010000 05 => bad
00 01000000 0000000000000000 01 => bad
07 01000000 0000000000000000 01 => bad";

/// Items in order, each of which may follow the one before it.
const ASCENDING: &str = "01 00000000 0000000000000000 01
01 01000000 0100000000000000 01
02 01000000 0100000000000000 01 6b 00
02 01000000 0100000000000000 02 6b6b 00
03 01000000 0100000000000000 00000000 02000000 00
03 01000000 0100000000000000 02000000 03000000 00
04 01000000 0100000000000000 01 76 00
05 01000000 0100000000000000 05
01 01000000 0200000000000000 01
03 01000000 0200000000000000 00000000 00100000 00
01 02000000 0000000000000000 01
06 00000000 02000000 07
06 02000000 00000100 07";

/// Items in order, each of which covers a part of the one before it.
const OVERLAPPING: &str = "03 01000000 0100000000000000 00000000 02000000 00
03 01000000 0100000000000000 00000000 03000000 00
03 01000000 0100000000000000 01000000 02000000 00";

/// The value of a hexadecimal digit.
fn digit(byte: u8) -> u8
    ensures { result < 16 }
{
    match byte {
        b'0'..=b'9' => byte - b'0',
        b'a'..=b'f' => byte - b'a' + 10,
        _ => 0,
    }
}

/// Appends the bytes of a word.
fn push_word(bytes: &mut Vec<u8>, word: &str) -> Result<(), AllocError> {
    let (digits, times) = match word.split_once('*') {
        Some((digits, count)) => (digits, count.parse::<u16>().unwrap_or(0)),
        None => (word, 1),
    };
    for _ in 0..times {
        for pair in digits.as_bytes().chunks_exact(2) {
            bytes.push(digit(pair[0]) * 16 + digit(pair[1]))?;
        }
    }
    Ok(())
}

fn bytes_of_words(alloc: Global, words: &str) -> Result<Vec<u8>, AllocError> {
    let mut bytes = Vec::new(alloc);
    for word in words.split(' ') {
        push_word(&mut bytes, word)?;
    }
    Ok(bytes)
}

/// How many bytes the item at the front takes, or 0 where there is none.
fn taken(alloc: Global, bytes: &[u8]) -> Result<usize, AllocError> {
    match decode(alloc, bytes) {
        Ok((_, len)) => Ok(len),
        Err(ItemFault::Bad) => Ok(0),
        Err(ItemFault::OutOfMemory) => Err(AllocError),
    }
}

/// The bytes of a clone of the item at the front, or none where there is none.
fn again(alloc: Global, bytes: &[u8]) -> Result<Vec<u8>, AllocError> {
    let mut copy = Vec::new(alloc);
    match decode(alloc, bytes) {
        Ok((item, _)) => encode(&item.clone()?, &mut copy)?,
        Err(ItemFault::Bad) => {}
        Err(ItemFault::OutOfMemory) => return Err(AllocError),
    }
    Ok(copy)
}

/// Whether some beginning of the bytes that is shorter than `len` is read as an item.
fn is_read_short(alloc: Global, bytes: &[u8], len: usize) -> Result<bool, AllocError> {
    for n in 0..len {
        if n < bytes.len() && taken(alloc, &bytes[..n])? > 0 {
            return Ok(true);
        }
    }
    Ok(false)
}

#[test]
fn items_are_read_and_written(rt: HostRuntime) -> Result<(), Fail> {
    for row in ITEMS.lines() {
        let (words, wanted) = row.split_once(" => ").ok_or("a row without an arrow")?;
        let bytes = bytes_of_words(rt.alloc(), words)?;
        let len = taken(rt.alloc(), bytes.as_slice())?;
        assert_eq!(rt; len, wanted.parse::<usize>().unwrap_or(0), "at {row}");
        let copy = again(rt.alloc(), bytes.as_slice())?;
        assert_eq!(rt; copy.len(), len, "at {row}");
        assert!(rt; bytes.as_slice().starts_with(copy.as_slice()), "at {row}");
        assert!(rt;
            !is_read_short(rt.alloc(), bytes.as_slice(), len)?,
            "at {row}"
        );
    }
    Ok(())
}

/// Whether each item of the rows may follow the one before it, or none may.
fn follows(alloc: Global, rows: &str, wanted: bool) -> Result<bool, ItemFault> {
    let mut last: Option<Key> = None;
    for row in rows.lines() {
        let bytes = bytes_of_words(alloc, row)?;
        let (item, _) = decode(alloc, bytes.as_slice())?;
        if let Some(key) = last {
            if key.may_precede(&item.key) != wanted
                || key >= item.key
                || item.key.may_precede(&key)
            {
                return Ok(false);
            }
        }
        last = Some(item.key);
    }
    Ok(true)
}

#[test]
fn keys_are_in_order(rt: HostRuntime) -> Result<(), Fail> {
    assert!(rt; matches!(follows(rt.alloc(), ASCENDING, true), Ok(true)));
    assert!(rt; matches!(follows(rt.alloc(), OVERLAPPING, false), Ok(true)));
    Ok(())
}

#[test]
fn names_alone(rt: HostRuntime) -> Result<(), Fail> {
    let (child, len) = decode_name(rt.alloc(), &CHILD_V)?;
    assert_eq!(rt; len, 28);
    assert!(rt; child.key.is_name());
    let grave = bytes_of_words(rt.alloc(), "05 01000000 0100000000000000 05")?;
    assert!(rt;
        matches!(
            decode_name(rt.alloc(), grave.as_slice()),
            Err(ItemFault::Bad)
        )
    );
    Ok(())
}

#[test]
fn a_child(rt: HostRuntime) -> Result<(), Fail> {
    let (child, len) = decode(rt.alloc(), &CHILD_V)?;
    assert_eq!(rt; len, 28);
    assert!(rt; matches!(child.value, Value::Child { store: 1, id: 0 }));
    Ok(())
}
