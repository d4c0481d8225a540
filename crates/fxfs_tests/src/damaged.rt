//! Images whose journal holds what no session writes.
use crate::images::with_journal;
use crate::rows::{expect_count, expect_same, halves, number_of};
use crate::runs::{summary, told_on};
use std::alloc::{AllocError, Global};
use std::process::Abort;

/// Appends the number in so many bytes, the lowest first.
fn push_number(bytes: &mut Vec<u8>, number: u64, count: usize) -> Result<(), AllocError> {
    for byte in number.to_le_bytes().iter().take(count) {
        bytes.push(*byte)?;
    }
    Ok(())
}

/// Appends a node, `STORE.ID`.
fn push_node(bytes: &mut Vec<u8>, node: &str) -> Result<(), AllocError> {
    let (store, id) = halves(node, ".");
    push_number(bytes, number_of(store), 4)?;
    push_number(bytes, number_of(id), 8)
}

/// Appends what stands under a key: `gone`, or an Object's `dir` or `file`, or a child's node.
fn push_value(bytes: &mut Vec<u8>, value: &str) -> Result<(), AllocError> {
    match value {
        "gone" => push_number(bytes, 0, 1),
        "dir" => push_number(bytes, 1, 1),
        "file" => {
            push_number(bytes, 2, 1)?;
            push_number(bytes, 0, 4)
        }
        _ => {
            push_number(bytes, 4, 1)?;
            push_node(bytes, value)
        }
    }
}

/// Appends an item: `NODE VALUE` is a node's Object, `NODE NAME VALUE` a child, of a name of one
/// letter.
fn push_item(bytes: &mut Vec<u8>, item: &str) -> Result<(), AllocError> {
    let (node, rest) = item.split_once(' ').unwrap_or((item, ""));
    let Some((name, value)) = rest.split_once(' ') else {
        push_number(bytes, 1, 1)?;
        push_node(bytes, node)?;
        return push_value(bytes, rest);
    };
    push_number(bytes, 4, 1)?;
    push_node(bytes, node)?;
    push_number(bytes, 1, 1)?;
    bytes.extend_from_slice(name.as_bytes())?;
    push_value(bytes, value)
}

/// Appends a transaction: its number and its items, which commas part.
fn push_transaction(
    alloc: Global,
    bytes: &mut Vec<u8>,
    number: &str,
    items: &str,
) -> Result<(), AllocError> {
    let mut count = 0u64;
    let mut body = Vec::new(alloc);
    for item in items.split(',') {
        push_item(&mut body, item.trim())?;
        count = count.saturating_add(1);
    }
    push_number(bytes, (body.len() as u64).saturating_add(13), 4)?;
    push_number(bytes, 1, 1)?;
    push_number(bytes, number_of(number), 8)?;
    push_number(bytes, count, 4)?;
    bytes.extend_from_slice(&body)
}

/// Appends a record: a transaction, `NUMBER: ITEMS`; or `discard NUMBER`; or `empty`, of length 0;
/// or `cut`, two bytes of a length.
fn push_record(alloc: Global, bytes: &mut Vec<u8>, record: &str) -> Result<(), AllocError> {
    if let Some((number, items)) = record.split_once(':') {
        return push_transaction(alloc, bytes, number, items);
    }
    match record.split_once(' ') {
        Some((_, number)) => {
            push_number(bytes, 9, 4)?;
            push_number(bytes, 2, 1)?;
            push_number(bytes, number_of(number), 8)
        }
        None if record == "empty" => push_number(bytes, 0, 4),
        None => push_number(bytes, 9, 2),
    }
}

/// The bytes of records, which semicolons part.
fn records_of(alloc: Global, text: &str) -> Result<Vec<u8>, AllocError> {
    let mut bytes = Vec::new(alloc);
    for record in text.split(';') {
        push_record(alloc, &mut bytes, record.trim())?;
    }
    Ok(bytes)
}

/// How `list /` ends on an image whose journal holds these records. It fails where they fill no
/// block.
fn listed(alloc: Global, records: &str) -> Result<String, AllocError> {
    let bytes = records_of(alloc, records)?;
    let run = told_on(alloc, with_journal(alloc, &bytes)?, b"list /\n")?;
    summary(alloc, &run)
}

/// What a journal's one block holds, and how `list /` ends on the image: the status, the calls of
/// the disk and the output.
const JOURNALS: &str = "\
1: 0.0 v 1.0, 1.0 dir => 0 3 1 1 list 1 1 v~
1: 0.0 v 1.0, 1.0 dir; cut => 0 3 1 1 list 1 1 v~
1: 0.0 v 1.0, 1.0 dir; 2: 1.0 f 1.1, 1.1 file => 0 3 1 1 list 2 1 v~
1: 0.0 v 1.0, 1.0 dir; discard 0 => 0 3 1 1 list 0 0~
1: 0.0 v 1.0, 1.0 dir; 2: 0.0 v gone, 1.0 gone => 0 3 1 1 list 2 0~
empty => 3 0 stop 3 badrecord 0~
2: 0.0 v 1.0, 1.0 dir => 3 0 stop 3 badrecord 0~
1: 1.0 dir, 0.0 v 1.0 => 3 0 stop 3 badrecord 0~
1: 0.0 v 1.0, 1.0 dir; 1: 0.0 w 2.0, 2.0 dir => 3 0 stop 3 badrecord 1~
1: 0.0 v 1.0, 1.0 dir; empty => 3 0 stop 3 badrecord 1~
1: 0.0 v 1.0, 1.0 dir; discard 2 => 3 0 stop 3 badrecord 1~
1: 0.0 v 1.0 => 3 0 stop 3 badtree 1 0~
1: 1.0 dir => 3 0 stop 3 badtree 1 0~
1: 0.0 dir => 3 0 stop 3 badtree 0 0~
1: 0.0 v 1.0, 1.0 file => 3 0 stop 3 badtree 1 0~
1: 0.0 v 1.1, 1.1 dir => 3 0 stop 3 badtree 1 1~
1: 0.0 v 1.0, 0.0 w 1.0, 1.0 dir => 3 0 stop 3 badtree 1 0~
1: 0.0 v 1.0, 1.0 dir, 1.0 d 2.1, 2.1 dir => 3 0 stop 3 badtree 2 1~
1: 0.0 v 1.0, 1.0 dir, 1.0 a 1.1, 1.0 b 1.1, 1.1 file => 3 0 stop 3 badtree 1 1~
1: 0.0 v 1.0, 1.0 dir, 1.0 f 1.1, 1.1 file, 1.1 x 1.2, 1.2 dir => 3 0 stop 3 badtree 1 1~
1: 0.0 v 1.0, 1.0 dir, 1.1 dir, 1.1 x 1.2, 1.2 dir, 1.2 y 1.1 => 3 0 stop 3 badtree 1 1~
1: 0.0 v 1.0, 1.0 dir; 2: 0.0 v gone => 3 0 stop 3 badtree 1 0~
1: 0.0 v 1.0, 1.0 dir; 2: 1.0 gone => 3 0 stop 3 badtree 1 0~
";

/// Asserts what is told of a row.
fn expect_listed(rt: &(impl Abort + AllocGlobal), row: &str) -> Result<(), AllocError> {
    let (records, wanted) = halves(row, " => ");
    let told = listed(rt.alloc(), records)?;
    expect_same(rt, told.as_str(), wanted, records);
    Ok(())
}

#[test]
fn journals_and_what_is_told(rt: HostRuntime) -> Result<(), AllocError> {
    for row in JOURNALS.lines() {
        expect_listed(&rt, row)?;
    }
    expect_count(&rt, JOURNALS, 23);
    Ok(())
}
