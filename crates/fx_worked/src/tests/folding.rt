//! What records leave, with discards anywhere.
use crate::{folded, is_in_order};
use fx_item::{Bytes, Item, Items, Key, Value};
use fx_record::{Piece, Record, is_short, read_txns};
use std::alloc::{AllocError, Global};
use std::test::Fail;

/// The base, records, and what they leave.
const LEFT: &str = "0 1a 2b 3c => 1a 2b 3c 
0 1a 2b 3c -1 2d => 1a 2d 
0 1a -1 2b -2 3c -0 1d => 1d 
0 1a 2b -2 3c -1 2d -2 3e => 1a 2d 3e 
0 1a 2b 3c -2 -1 -0 => 
5 6a 7b -5 6c => 6c 
5 6a -4 => bad
5 5a => bad
0 2a => bad
0 1a 3b => bad
0 1a -2 => bad";

/// The record of a word: `7a` is transaction 7 with an item named by the letter, `-7` drops what is past
/// number 7.
fn record(alloc: Global, word: &str) -> Result<Record, AllocError> {
    if let Some(digits) = word.strip_prefix("-") {
        let number = digits.parse::<u64>().unwrap_or(0);
        return Ok(Record::Discard { number });
    }
    let (digits, letter) = word.split_at_checked(1).unwrap_or((word, ""));
    let number = digits.parse::<u64>().unwrap_or(0);
    let id = u64::from(letter.as_bytes().first().copied().unwrap_or(0));
    let mut items = Vec::new(alloc);
    let key = Key::Object { store: 1, id };
    items.push(Item {
        key,
        value: Value::Dir,
    })?;
    let items = Items::new(items);
    Ok(Record::Txn { number, items })
}

fn records(alloc: Global, words: &str) -> Result<Vec<Record>, AllocError> {
    let mut records = Vec::new(alloc);
    for word in words.split(' ') {
        records.push(record(alloc, word)?)?;
    }
    Ok(records)
}

/// The transactions as words, each followed by a space.
fn words_of(alloc: Global, txns: &[(u64, Items)]) -> Result<String, AllocError> {
    let mut words = String::new(alloc);
    for (number, items) in txns {
        let word = format!(in alloc; "{number}{} ", letter_of(items.as_slice()))?;
        words.push_str(word.as_str())?;
    }
    Ok(words)
}

fn letter_of(items: &[Item]) -> char {
    match items.first() {
        Some(
            Item {
                key: Key::Object { id, .. },
                ..
            },
        ) => char::from((*id % 128) as u8),
        _ => '?',
    }
}

/// What the records leave, if they are in order.
fn left(alloc: Global, base: u64, words: &str) -> Result<String, AllocError> {
    let records = records(alloc, words)?;
    if !is_in_order(base, &records) {
        return format!(in alloc; "bad");
    }
    let txns = folded(alloc, records)?;
    words_of(alloc, txns.as_slice())
}

/// The same as it is read from blocks, each record in a block of an epoch of its own.
fn read(alloc: Global, base: u64, words: &str) -> Result<String, Fail> {
    let mut pieces = Vec::new(alloc);
    let mut epoch = 1u64;
    for word in words.split(' ') {
        pieces.push(piece(alloc, epoch, word)?)?;
        epoch = epoch.wrapping_add(1);
    }
    if !is_short(&pieces) {
        return Err("long".into());
    }
    let Ok(txns) = read_txns(alloc, base, &pieces) else {
        return Ok(format!(in alloc; "bad")?);
    };
    Ok(words_of(alloc, txns.as_slice())?)
}

/// A block of the record of a word, spelled byte by byte.
fn piece(alloc: Global, epoch: u64, word: &str) -> Result<Piece, AllocError> {
    let mut bytes = Vec::new(alloc);
    if let Some(digits) = word.strip_prefix("-") {
        bytes.extend_from_slice(&[9, 0, 0, 0, 2])?;
        bytes.extend_from_slice(&digits.parse::<u64>().unwrap_or(0).to_le_bytes())?;
    } else {
        let (digits, letter) = word.split_at_checked(1).unwrap_or((word, ""));
        bytes.extend_from_slice(&[27, 0, 0, 0, 1])?;
        bytes.extend_from_slice(&digits.parse::<u64>().unwrap_or(0).to_le_bytes())?;
        bytes.extend_from_slice(&[1, 0, 0, 0, 1, 1, 0, 0, 0])?;
        bytes.extend_from_slice(letter.as_bytes())?;
        bytes.extend_from_slice(&[0, 0, 0, 0, 0, 0, 0, 1])?;
    }
    let records = Bytes::new(bytes);
    Ok(Piece { epoch, records })
}

/// Whether a row holds of both.
fn holds(alloc: Global, row: &str) -> Result<bool, Fail> {
    let (row, wanted) = row.split_once(" => ").ok_or("no arrow")?;
    let (base, words) = row.split_once(" ").ok_or("no base")?;
    let base = base.parse::<u64>()?;
    let told = left(alloc, base, words)?;
    let read = read(alloc, base, words)?;
    Ok(told.as_str() == wanted && read.as_str() == wanted)
}

#[test]
fn records_with_discards_anywhere(rt: HostRuntime) -> Result<(), Fail> {
    for row in LEFT.lines() {
        assert!(rt; holds(rt.alloc(), row)?, "at {row}");
    }
    Ok(())
}
