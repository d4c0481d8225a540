//! Records from bytes.
ghost use Rattle.std.specs.Prelude.{◌≡◌, ◌≤◌, ◌<◌, ◌+◌, ◌^◌, ◌++◌, ◌∷◌, [], ◌⊎◌, ℕ, List, length, take, IfOk, IfErr, IsTrue, MatchResult};
ghost use Rattle.fx_item.specs.Item.{PlainItem, IsNameItem, item_of, items_of, item_bytes};
ghost use Rattle.fx_item.specs.Order.{is_ascending};
ghost use Rattle.fx_record.specs.Record.{PlainRecord, AreItems, IsRecord, plain_record, items_bytes, record_bytes};
ghost use Rattle.fx_record.specs.Reading.{IsFault, IsRecordReadAs, IsRefusedAs, ItemRead, ItemsRead, BodyRead};

use crate::record::{Record, RecordFault};
use crate::writing::{DISCARD, DISCARD_BODY, LENGTH_BYTES, TRANSACTION, TRANSACTION_BODY};
use byteorder::{ByteOrder, LittleEndian};
use fx_item::{Item, ItemFault, Items, decode_name};
use std::alloc::Global;

/// The record at the front of the bytes, and how many bytes it takes. Each record has one spelling,
/// so there is at most one. Takes memory for the items that are there, whatever count is stated.
/// One pass.
pub fn decode_record(alloc: Global, bytes: &[u8]) -> Result<(Record, usize), RecordFault>
    // What is read is a record, and these bytes are its bytes.
    ensures found { IfOk result (λ r. IsRecord (plain_record r.0) × (r.1 ≤ length bytes.now)
        × (take r.1 bytes.now ≡ record_bytes (plain_record r.0))) }
    // What begins with a record's bytes is read as that record, unless memory runs out.
    ensures only { (x : PlainRecord) (rest : List ℕ) → IsRecord x
        → bytes.now ≡ record_bytes x ++ rest → IsRecordReadAs result x }
    // A fault that is told is there.
    ensures fault { IfErr result (λ e. (e ≡ RecordFault.OutOfMemory) ⊎ IsFault e bytes.now) }
    // A fault that is there is told, unless memory runs out.
    ensures refused { (fault : RecordFault) → IsFault fault bytes.now → IsRefusedAs result fault }
{
    read_record(alloc, bytes)
}

fn read_record(alloc: Global, bytes: &[u8]) -> Result<(Record, usize), RecordFault>
    ensures found { IfOk result (λ r. IsRecord (plain_record r.0) × (r.1 ≤ length bytes.now)
        × (take r.1 bytes.now ≡ record_bytes (plain_record r.0))) }
    ensures fault { IfErr result (λ e. (e ≡ RecordFault.OutOfMemory) ⊎ IsFault e bytes.now) }
{
    if bytes.len() < LENGTH_BYTES {
        return Err(RecordFault::Cut);
    }
    let (_, rest) = bytes.split_at(LENGTH_BYTES);
    let len = LittleEndian::read_u32(bytes) as usize;
    if rest.len() < len {
        return Err(RecordFault::Cut);
    }
    let (body, _) = rest.split_at(len);
    let record = read_body(alloc, body)?;
    Ok((record, LENGTH_BYTES + len))
}

/// The record whose bytes after the length are these.
fn read_body(alloc: Global, body: &[u8]) -> Result<Record, RecordFault>
    requires { length body.now < 2 ^ 32 }
    ensures { BodyRead body.now result }
{
    let Some((tag, rest)) = body.split_first() else {
        return Err(RecordFault::BadTag);
    };
    match *tag {
        TRANSACTION if body.len() >= TRANSACTION_BODY => read_transaction(alloc, rest),
        DISCARD if body.len() == DISCARD_BODY => Ok(Record::Discard {
            number: LittleEndian::read_u64(rest),
        }),
        _ => Err(RecordFault::BadTag),
    }
}

/// The transaction whose number, count and items are these bytes.
fn read_transaction(alloc: Global, bytes: &[u8]) -> Result<Record, RecordFault>
    requires room { 12 ≤ length bytes.now }
    requires short { length bytes.now + 1 < 2 ^ 32 }
    ensures { BodyRead (1 ∷ bytes.now) result }
{
    let number = LittleEndian::read_u64(bytes);
    let (_, rest) = bytes.split_at(8);
    let count = LittleEndian::read_u32(rest);
    let (_, text) = rest.split_at(4);
    let items = read_items(alloc, count, text)?;
    Ok(Record::Txn { number, items })
}

/// The items that these bytes are, of which there are to be `count`.
fn read_items(alloc: Global, count: u32, bytes: &[u8]) -> Result<Items, RecordFault>
    ensures { ItemsRead count bytes.now result }
{
    let mut items = Vec::new(alloc);
    let mut rest = bytes;
    for place in 0..count {
        rest = read_item(alloc, place, &mut items, rest)?;
    }
    if !rest.is_empty() {
        return Err(RecordFault::BadItem(count));
    }
    Ok(Items::new(items))
}

/// Takes the item of that place from the front of the bytes, and gives the bytes after it.
fn read_item<'a>(
    alloc: Global,
    place: u32,
    items: &mut Vec<Item>,
    bytes: &'a [u8],
) -> Result<&'a [u8], RecordFault>
    requires { AreItems (items_of items.old.items) }
    ensures { ItemRead place (items_of items.old.items) bytes.now
        (items_of items.new.items) result }
{
    let (item, len) = match decode_name(alloc, bytes) {
        Ok(found) => found,
        Err(ItemFault::Bad) => return Err(RecordFault::BadItem(place)),
        Err(ItemFault::OutOfMemory) => return Err(RecordFault::OutOfMemory),
    };
    if !may_append(items.as_slice(), &item) {
        return Err(RecordFault::BadItem(place));
    }
    items.push(item)?;
    let (_, rest) = bytes.split_at(len);
    Ok(rest)
}

/// Whether items that ascend still do with one more.
fn may_append(items: &[Item], item: &Item) -> bool
    requires { IsTrue (is_ascending (items_of items.now)) }
    ensures { result ≡ is_ascending (items_of items.now ++ item_of item.now ∷ []) }
{
    match items.last() {
        Some(last) => last.key.may_precede(&item.key),
        None => true,
    }
}
