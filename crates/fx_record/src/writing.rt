//! Records as bytes.
ghost use Rattle.std.specs.Prelude.{◌≡◌, ◌<◌, ◌^◌, ◌++◌, ◌∷◌, ℕ, List, length, take, All, OnOk, OnErr};
ghost use Rattle.byteorder.specs.Endian.{little_bytes};
ghost use Rattle.fx_item.specs.Item.{PlainItem, IsNameItem, items_of};
ghost use Rattle.fx_record.specs.Record.{TransactionRecord, IsRecord, DiscardRecord, plain_record, items_bytes, record_bytes};
ghost use Rattle.fx_record.specs.Writing.{head_bytes, HoldsTransaction};

use crate::record::Record;
use byteorder::{ByteOrder, LittleEndian};
use fx_item::{Item, encode, encoded_len};
use std::alloc::AllocError;

/// The tag of a transaction.
pub(crate) const TRANSACTION: u8 = 1;

/// The tag of a discard.
pub(crate) const DISCARD: u8 = 2;

/// The bytes of the length.
pub(crate) const LENGTH_BYTES: usize = 4;

/// The bytes of a discard's tag and number.
pub(crate) const DISCARD_BODY: usize = 9;

/// The bytes of a transaction's tag, number and count.
pub(crate) const TRANSACTION_BODY: usize = 13;

/// The bytes before a transaction's items.
const HEAD_BYTES: usize = 17;

/// The bytes of a discard.
const DISCARD_BYTES: usize = 13;

/// Where a record's number stands.
const NUMBER_AT: usize = 5;

/// Appends the bytes of a record. The items of a transaction keep the rules of items and ascend,
/// and what follows the length has fewer than 2^32 bytes. Where memory is refused `into` is as
/// before. Two passes over the items.
pub fn encode_record(rec: &Record, into: &mut Vec<u8>) -> Result<(), AllocError>
    requires { IsRecord (plain_record rec.now) }
    ensures ok { OnOk result (into.new.items
        ≡ into.old.items ++ record_bytes (plain_record rec.now)) }
    ensures err { OnErr result (into.new.items ≡ into.old.items) }
{
    let before = into.len();
    let appended = append_record(rec, into);
    if appended.is_err() {
        into.truncate(before);
    }
    appended
}

/// Appends the bytes of a record, or some of them where memory is refused.
fn append_record(rec: &Record, into: &mut Vec<u8>) -> Result<(), AllocError>
    requires { IsRecord (plain_record rec.now) }
    ensures ok { OnOk result (into.new.items
        ≡ into.old.items ++ record_bytes (plain_record rec.now)) }
    ensures err { OnErr result (take (length into.old.items) into.new.items ≡ into.old.items) }
{
    match rec {
        Record::Txn { number, items } => append_transaction(*number, items.as_slice(), into),
        Record::Discard { number } => append_discard(*number, into),
    }
}

fn append_transaction(number: u64, items: &[Item], into: &mut Vec<u8>) -> Result<(), AllocError>
    requires { IsRecord (TransactionRecord number (items_of items.now)) }
    ensures ok { OnOk result (into.new.items
        ≡ into.old.items ++ record_bytes (TransactionRecord number (items_of items.now))) }
    ensures err { OnErr result (take (length into.old.items) into.new.items ≡ into.old.items) }
{
    let body = TRANSACTION_BODY + items_len(items);
    into.reserve(LENGTH_BYTES + body)?;
    let mut head = [0; HEAD_BYTES];
    fill_head(body as u32, number, items.len() as u32, &mut head);
    into.extend_from_slice(&head)?;
    append_items(items, into)
}

fn append_discard(number: u64, into: &mut Vec<u8>) -> Result<(), AllocError>
    ensures ok { OnOk result (into.new.items
        ≡ into.old.items ++ record_bytes (DiscardRecord number)) }
    ensures err { OnErr result (into.new.items ≡ into.old.items) }
{
    let mut bytes = [0; DISCARD_BYTES];
    fill_discard(number, &mut bytes);
    into.extend_from_slice(&bytes)
}

/// Appends the bytes of the items, or some of them where memory is refused.
fn append_items(items: &[Item], into: &mut Vec<u8>) -> Result<(), AllocError>
    requires { All IsNameItem (items_of items.now) }
    ensures ok { OnOk result (into.new.items ≡ into.old.items ++ items_bytes (items_of items.now)) }
    ensures err { OnErr result (take (length into.old.items) into.new.items ≡ into.old.items) }
{
    for item in items {
        encode(item, into)?;
    }
    Ok(())
}

#[tactic(auto, unfolding(crate::specs::Writing::head_bytes))]
fn fill_head(len: u32, number: u64, count: u32, into: &mut [u8])
    requires { length into.old ≡ HEAD_BYTES }
    ensures { into.new ≡ head_bytes len number count }
{
    let (place, rest) = into.split_at_mut(LENGTH_BYTES);
    LittleEndian::write_u32(place, len);
    let (tag, rest) = rest.split_at_mut(1);
    tag[0] = TRANSACTION;
    let (place, rest) = rest.split_at_mut(8);
    LittleEndian::write_u64(place, number);
    LittleEndian::write_u32(rest, count);
}

#[tactic(auto, unfolding(crate::specs::Record::record_bytes, crate::specs::Record::body_bytes))]
fn fill_discard(number: u64, into: &mut [u8])
    requires { length into.old ≡ DISCARD_BYTES }
    ensures { into.new ≡ record_bytes (DiscardRecord number) }
{
    let (place, rest) = into.split_at_mut(LENGTH_BYTES);
    LittleEndian::write_u32(place, DISCARD_BODY as u32);
    let (tag, place) = rest.split_at_mut(1);
    tag[0] = DISCARD;
    LittleEndian::write_u64(place, number);
}

/// How many bytes a record has: fewer than 2^32. One pass over the items, no memory.
pub fn length(rec: &Record) -> u32
    requires kept { IsRecord (plain_record rec.now) }
    requires short { length (record_bytes (plain_record rec.now)) < 2 ^ 32 }
    ensures { result ≡ length (record_bytes (plain_record rec.now)) }
{
    match rec {
        Record::Txn { items, .. } => (HEAD_BYTES + items_len(items.as_slice())) as u32,
        Record::Discard { .. } => DISCARD_BYTES as u32,
    }
}

/// How many bytes the items have.
fn items_len(items: &[Item]) -> usize
    requires items { All IsNameItem (items_of items.now) }
    requires short { length (items_bytes (items_of items.now)) < 2 ^ 32 }
    ensures { result ≡ length (items_bytes (items_of items.now)) }
{
    let mut len = 0;
    for item in items {
        len += encoded_len(item);
    }
    len
}

/// Gives the transaction whose record stands at the front of the bytes another number, and changes
/// nothing else. No memory.
pub fn set_number(bytes: &mut [u8], number: u64)
    requires { HoldsTransaction bytes.old }
    ensures { (old : ℕ) (items : List PlainItem) (rest : List ℕ)
        → bytes.old ≡ record_bytes (TransactionRecord old items) ++ rest
        → bytes.new ≡ record_bytes (TransactionRecord number items) ++ rest }
{
    let (_, rest) = bytes.split_at_mut(NUMBER_AT);
    LittleEndian::write_u64(rest, number);
}
