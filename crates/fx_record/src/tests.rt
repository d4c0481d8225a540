ghost use Rattle.fx_record.specs.Record.{IsRecord, plain_record};

use super::*;
use fx_item::{Bytes, Item, Key, Value};
use std::alloc::Global;
use std::fmt::Write;
use std::process::Abort;
use std::test::Fail;

const DISCARD_2: [u8; 13] = [9, 0, 0, 0, 2, 2, 0, 0, 0, 0, 0, 0, 0];

/// The directory `v` is made in the root of store 0.
const MAKE_V: [u8; 59] = [
    0x37, 0, 0, 0, 1, 1, 0, 0, 0, 0, 0, 0, 0, 2, 0, 0, 0, // length, tag, number, count
    4, 0, 0, 0, 0, 0, 0, 0, 0, 0, 0, 0, 0, 1, 0x76, // the child v of the root
    4, 1, 0, 0, 0, 0, 0, 0, 0, 0, 0, 0, 0, // is node 0 of store 1
    1, 1, 0, 0, 0, 0, 0, 0, 0, 0, 0, 0, 0, 1, // which is a directory
];

/// Changes of one byte that make a tag or a length bad: no length, too short for a transaction, an
/// unknown tag, a discard of another length.
const BAD_TAGS: [(usize, u8); 5] = [(0, 0), (0, 12), (4, 0), (4, 3), (4, 2)];

/// Changes of one byte that make an item bad, and its place: no item, no room for one, no third
/// one, bytes left after the first, a second one that lies before the first.
const BAD_ITEMS: [(usize, u8, u32); 7] = [
    (17, 0, 0),
    (0, 13, 0),
    (31, 0x2f, 0),
    (45, 9, 1),
    (13, 3, 2),
    (13, 1, 1),
    (18, 2, 1),
];

fn expect_made(rt: &impl Abort, record: &Record, wanted: u64) {
    assert!(rt; matches!(record, Record::Txn { number, .. } if *number == wanted));
    if let Record::Txn { items, .. } = record {
        assert!(rt;
            matches!(
                items.as_slice(),
                [
                    Item {
                        key: Key::Child {
                            store: 0,
                            id: 0,
                            ..
                        },
                        value: Value::Child { store: 1, id: 0 }
                    },
                    Item {
                        key: Key::Object { store: 1, id: 0 },
                        value: Value::Dir
                    },
                ]
            )
        );
    }
}

/// The bytes of a record, and of one with another number if it is a transaction.
fn renumbered(alloc: Global, rec: &Record, number: u64) -> Result<Vec<u8>, Fail>
    requires { IsRecord (plain_record rec.now) }
{
    let mut bytes = Vec::new(alloc);
    encode_record(rec, &mut bytes)?;
    if let Record::Txn { .. } = rec {
        set_number(bytes.as_mut_slice(), number);
    }
    Ok(bytes)
}

#[test]
#[tactic(auto, unfolding(crate::specs::Record::record_bytes, crate::specs::Record::body_bytes))]
fn discard(rt: HostRuntime) -> Result<(), Fail> {
    let mut bytes = Vec::new(rt.alloc());
    let discard = Record::Discard { number: 2 };
    encode_record(&discard, &mut bytes)?;
    assert!(rt; bytes.as_slice() == DISCARD_2.as_slice());
    assert_eq!(rt; length(&discard), 13);
    let (record, len) = decode_record(rt.alloc(), &DISCARD_2)?;
    assert!(rt; matches!(record, Record::Discard { number: 2 }));
    assert_eq!(rt; len, 13);
    Ok(())
}

#[test]
fn transaction(rt: HostRuntime) -> Result<(), Fail> {
    let (made, len) = decode_record(rt.alloc(), &MAKE_V)?;
    expect_made(&rt, &made, 1);
    assert_eq!(rt; len, 59);
    let mut bytes = Vec::new(rt.alloc());
    encode_record(&made, &mut bytes)?;
    assert!(rt; bytes.as_slice() == MAKE_V.as_slice());
    let bytes = renumbered(rt.alloc(), &made, 0x0102)?;
    let mut wanted = MAKE_V;
    wanted[5] = 2;
    wanted[6] = 1;
    assert!(rt; bytes.as_slice() == wanted.as_slice());
    for n in 0..59 {
        let fault = decode_record(rt.alloc(), &MAKE_V[..n]);
        assert!(rt; matches!(fault, Err(RecordFault::Cut)));
    }
    Ok(())
}

#[test]
fn refused(rt: HostRuntime) -> Result<(), Fail> {
    for (at, byte) in BAD_TAGS {
        let mut bytes = MAKE_V;
        if at < 59 {
            bytes[at] = byte;
        }
        let fault = decode_record(rt.alloc(), &bytes);
        assert!(rt; matches!(fault, Err(RecordFault::BadTag)));
    }
    for (at, byte, place) in BAD_ITEMS {
        let mut bytes = MAKE_V;
        if at < 59 {
            bytes[at] = byte;
        }
        let fault = decode_record(rt.alloc(), &bytes);
        assert!(rt; matches!(fault, Err(RecordFault::BadItem(i)) if i == place));
    }
    Ok(())
}

/// A line a stream: the base, then after a bar each block's epoch and its records, and what the
/// stream leaves: the numbers of the transactions, or the place of the first bad record. A record
/// is a transaction's number, or that of a discard after a `d`; `c` is a record that is cut off
/// after three bytes, and `x` one of length 0.
const STREAMS: &str = "\
0 =>
0 | 1: 1 2 | 1: 3 => 1 2 3
0 | 1: 1 c | 2: 2 => 1 2
0 | 1: 1 c | 1: 2 => 1
0 | 1: 1 2 3 | 2: d1 2 => 1 2
0 | 1: 1 2 3 | 2: d0 => 
5 | 3: 6 d5 6 7 => 6 7
5 | 3: 7 => bad 0
5 | 3: 6 d4 => bad 1
0 | 1: 1 d2 => bad 1
0 | 1: 1 1 => bad 1
0 | 1: 1 x 2 => bad 1
0 | 1: 1 c | 2: 2 2 => bad 2";

/// Appends the bytes of the records of a line.
fn add_records(words: &str, bytes: &mut Vec<u8>) -> Result<(), Fail> {
    for word in words.split_whitespace() {
        if word == "c" {
            bytes.extend_from_slice(&[9, 0, 0])?;
        } else if word == "x" {
            bytes.extend_from_slice(&[0, 0, 0, 0])?;
        } else if let Some(number) = word.strip_prefix("d") {
            let number = number.parse::<u8>()?;
            bytes.extend_from_slice(&[9, 0, 0, 0, 2, number, 0, 0, 0, 0, 0, 0, 0])?;
        } else {
            let number = word.parse::<u8>()?;
            bytes.extend_from_slice(&[13, 0, 0, 0, 1, number, 0, 0, 0, 0, 0, 0, 0, 0, 0, 0, 0])?;
        }
    }
    Ok(())
}

fn read_short(alloc: Global, base: u64, pieces: &[Piece]) -> Result<Txns, TxnsFault> {
    if !is_short(pieces) {
        return Err(TxnsFault::OutOfMemory);
    }
    read_txns(alloc, base, pieces)
}

/// What the stream of a line leaves, as the line says it.
fn left_by(alloc: Global, stream: &str) -> Result<String, Fail> {
    let mut parts = stream.split('|');
    let base = parts.next().unwrap_or("").trim().parse::<u64>()?;
    let mut pieces = Vec::new(alloc);
    for part in parts {
        let (epoch, words) = part.split_once(':').unwrap_or(("", ""));
        let mut bytes = Vec::new(alloc);
        add_records(words, &mut bytes)?;
        pieces.push(Piece {
            epoch: epoch.trim().parse::<u64>()?,
            records: Bytes::new(bytes),
        })?;
    }
    let mut text = String::new(alloc);
    match read_short(alloc, base, pieces.as_slice()) {
        Ok(txns) => {
            for (number, _) in txns.as_slice() {
                write!(text, "{number} ")?;
            }
        }
        Err(TxnsFault::BadRecord(place)) => write!(text, "bad {place} ")?,
        Err(TxnsFault::OutOfMemory) => write!(text, "memory ")?,
    }
    Ok(text)
}

#[test]
fn joined(rt: HostRuntime) -> Result<(), Fail> {
    let mut pieces = Vec::new(rt.alloc());
    for part in [&MAKE_V[..20], &MAKE_V[20..]] {
        pieces.push(Piece {
            epoch: 3,
            records: Bytes::new(Vec::from_slice(rt.alloc(), part)?),
        })?;
    }
    let txns = read_short(rt.alloc(), 0, pieces.as_slice())?;
    assert_eq!(rt; txns.as_slice().len(), 1);
    for (number, items) in txns.as_slice() {
        assert_eq!(rt; *number, 1);
        assert_eq!(rt; items.as_slice().len(), 2);
    }
    Ok(())
}

#[test]
fn streams(rt: HostRuntime) -> Result<(), Fail> {
    for line in STREAMS.lines() {
        let (stream, wanted) = line.split_once("=>").unwrap_or(("", ""));
        let text = left_by(rt.alloc(), stream)?;
        assert_eq!(rt; text.trim(), wanted.trim(), "{line}");
    }
    Ok(())
}
