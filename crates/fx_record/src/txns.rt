//! The transactions that a stream of records leaves.
ghost use Rattle.std.specs.Prelude.{◌≡◌, ◌≤◌, ◌<◌, ◌+◌, ◌^◌, ◌∷◌, [], ℕ, List, length, take, drop, IfOk, OnOk, IsTrue, IsFalse};
ghost use Rattle.fx_item.specs.Item.{PlainItem, items_of};
ghost use Rattle.fx_record.specs.Record.{PlainRecord, TransactionRecord, DiscardRecord, plain_record};
ghost use Rattle.fx_record.specs.Txns.{pieces_of, txns_of, epoch_texts, all_bytes, may_come, IsTxns, IsBadRecord};
ghost use Rattle.fx_record.specs.Progress.{read_state, state_after, Numbered, NextRead, RunRead, IsAnswer, Gave, Told};

use crate::reading::decode_record;
use crate::record::{Record, RecordFault, Txns};
use fx_item::{Bytes, Items};
use std::alloc::{AllocError, AllocFailed, Global};
use thiserror::Error;

/// The record bytes of one block of a stream.
#[derive(Debug, Drop)]
pub struct Piece {
    /// The block's epoch.
    pub epoch: u64,
    pub records: Bytes,
}

/// Why the records of a stream were not read.
#[derive(Debug, Drop, Error)]
pub enum TxnsFault {
    /// The record at this place in the stream, counted from 0, is none, or its number is out of
    /// order. Bytes that are dropped do not count.
    #[error("bad record {0}")]
    BadRecord(u32),
    /// There is not enough memory.
    #[error("out of memory")]
    OutOfMemory,
}

impl From<AllocError> for TxnsFault {
    ghost use Rattle.std.specs.Prelude.{◌≡◌};
    ghost use Rattle.fx_record.specs.declared.txns.TxnsFault.TheVariants.{OutOfMemory};

    ghost from_gives = { λ _ e. e ≡ OutOfMemory };

    fn from(_: AllocError) -> TxnsFault {
        TxnsFault::OutOfMemory
    }
}

impl<T: Drop> From<AllocFailed<T>> for TxnsFault {
    ghost use Rattle.std.specs.Prelude.{◌≡◌};
    ghost use Rattle.fx_record.specs.declared.txns.TxnsFault.TheVariants.{OutOfMemory};

    ghost from_gives = { λ _ e. e ≡ OutOfMemory };

    fn from(_: AllocFailed<T>) -> TxnsFault {
        TxnsFault::OutOfMemory
    }
}

/// How far a stream was read.
#[derive(Drop)]
struct Progress {
    /// The number of the last record, at first the base.
    last: u64,
    /// How many records there were.
    read: u32,
    /// The transactions that they leave.
    txns: Vec<(u64, Items)>,
}

/// The transactions that the records in these blocks leave, after `base` transactions. The record
/// bytes of neighbours of one epoch are joined, and what is cut at the end of an epoch's bytes is
/// dropped. The numbers follow each other from `base` on: a transaction has the next one, and after
/// a discard of what is past `k`, which is at least `base` and at most the number before, the next
/// one is `k + 1`. There are fewer than 2^32 bytes (`is_short`). Costs their number: each is copied
/// once.
pub fn read_txns(alloc: Global, base: u64, pieces: &[Piece]) -> Result<Txns, TxnsFault>
    requires { length (all_bytes (pieces_of pieces.now)) < 2 ^ 32 }
    // What is answered is so: the transactions, or the first bad record.
    ensures answer { IsAnswer base (pieces_of pieces.now) result }
    // The transactions are answered where there are such, unless memory runs out.
    ensures all { (txns : List (ℕ × List PlainItem)) → IsTxns base (pieces_of pieces.now) txns
        → Gave result txns }
    // A bad record is told where there is one, unless memory runs out.
    ensures bad { (place : ℕ) → IsBadRecord base (pieces_of pieces.now) place
        → Told result place }
{
    read_all(alloc, base, pieces)
}

/// Whether there are fewer than 2^32 record bytes in these blocks, as `read_txns` wants. One step a
/// block.
pub fn is_short(pieces: &[Piece]) -> bool
    ensures short { IsTrue result → length (all_bytes (pieces_of pieces.now)) < 2 ^ 32 }
    ensures long { IsFalse result → 2 ^ 32 ≤ length (all_bytes (pieces_of pieces.now)) }
{
    let mut room = u32::MAX as usize;
    for piece in pieces {
        let len = piece.records.len();
        if room < len {
            return false;
        }
        room -= len;
    }
    true
}

fn read_all(alloc: Global, base: u64, pieces: &[Piece]) -> Result<Txns, TxnsFault>
    requires { length (all_bytes (pieces_of pieces.now)) < 2 ^ 32 }
    ensures { IsAnswer base (pieces_of pieces.now) result }
{
    let mut progress = Progress {
        last: base,
        read: 0,
        txns: Vec::new(alloc),
    };
    let mut rest = pieces;
    while !rest.is_empty() {
        let (run, others) = rest.split_at(run_len(rest));
        let text = join(alloc, run)?;
        read_run(alloc, base, &mut progress, text.as_slice())?;
        rest = others;
    }
    Ok(Txns::new(progress.txns))
}

/// How many blocks at the front are of one epoch.
fn run_len(pieces: &[Piece]) -> usize
    requires { 1 ≤ length pieces.now }
    ensures some { 1 ≤ result }
    ensures most { result ≤ length pieces.now }
    ensures run { epoch_texts (pieces_of pieces.now)
        ≡ all_bytes (pieces_of (take result pieces.now))
        ∷ epoch_texts (pieces_of (drop result pieces.now)) }
{
    let epoch = pieces[0].epoch;
    for (i, piece) in pieces.iter().enumerate() {
        if piece.epoch != epoch {
            return i;
        }
    }
    pieces.len()
}

/// The record bytes of these blocks, one after the other.
fn join(alloc: Global, run: &[Piece]) -> Result<Vec<u8>, AllocError>
    requires { length (all_bytes (pieces_of run.now)) < 2 ^ 32 }
    ensures { IfOk result (λ v. v.items ≡ all_bytes (pieces_of run.now)) }
{
    let mut text = Vec::with_capacity(alloc, joined_len(run))?;
    for piece in run {
        text.extend_from_slice(piece.records.as_slice())?;
    }
    Ok(text)
}

/// How many record bytes these blocks have.
fn joined_len(run: &[Piece]) -> usize
    requires { length (all_bytes (pieces_of run.now)) < 2 ^ 32 }
    ensures { result ≡ length (all_bytes (pieces_of run.now)) }
{
    let mut len = 0;
    for piece in run {
        len += piece.records.len();
    }
    len
}

/// Takes the records from the bytes of one epoch.
fn read_run(alloc: Global, base: u64, progress: &mut Progress, text: &[u8]) -> Result<(), TxnsFault>
    requires numbered { Numbered base (read_state progress.old) }
    requires room { progress.old.read + length text.now < 2 ^ 32 }
    ensures { RunRead base (read_state progress.old) text.now (read_state progress.new) result }
{
    let mut rest = text;
    while let Some(left) = read_next(alloc, base, progress, rest)? {
        rest = left;
    }
    Ok(())
}

/// Takes the record at the front of the bytes, and gives the bytes after it. None where they are
/// cut.
fn read_next<'a>(
    alloc: Global,
    base: u64,
    progress: &mut Progress,
    bytes: &'a [u8],
) -> Result<Option<&'a [u8]>, TxnsFault>
    requires numbered { Numbered base (read_state progress.old) }
    requires room { progress.old.read + length bytes.now < 2 ^ 32 }
    ensures { NextRead base (read_state progress.old) bytes.now (read_state progress.new) result }
{
    let (record, len) = match decode_record(alloc, bytes) {
        Ok(found) => found,
        Err(RecordFault::Cut) => return Ok(None),
        Err(RecordFault::OutOfMemory) => return Err(TxnsFault::OutOfMemory),
        Err(_) => return Err(TxnsFault::BadRecord(progress.read)),
    };
    if !may_come(base, progress.last, &record) {
        return Err(TxnsFault::BadRecord(progress.read));
    }
    let (_, left) = bytes.split_at(len);
    progress.put(base, record)?;
    Ok(Some(left))
}

/// Whether a record may come after the number `last`.
fn may_come(base: u64, last: u64, record: &Record) -> bool
    ensures { result ≡ may_come base last (plain_record «record».now) }
{
    match record {
        Record::Txn { number, .. } => last < *number && *number - last == 1,
        Record::Discard { number } => base <= *number && *number <= last,
    }
}

impl Progress {
    /// Takes one more record, whose number is in order.
    fn put(&mut self, base: u64, record: Record) -> Result<(), AllocError>
        requires numbered { Numbered base (read_state self.old) }
        requires room { self.old.read + 1 < 2 ^ 32 }
        requires comes { IsTrue (may_come base self.old.last (plain_record «record»)) }
        ensures moved { OnOk result (read_state self.new
            ≡ state_after (read_state self.old) (plain_record «record»)) }
        ensures numbered { OnOk result (Numbered base (read_state self.new)) }
    {
        match record {
            Record::Txn { number, items } => self.add(base, number, items),
            Record::Discard { number } => {
                self.discard(base, number);
                Ok(())
            }
        }
    }

    fn add(&mut self, base: u64, number: u64, items: Items) -> Result<(), AllocError>
        requires numbered { Numbered base (read_state self.old) }
        requires room { self.old.read + 1 < 2 ^ 32 }
        requires next { number ≡ self.old.last + 1 }
        ensures moved { OnOk result (read_state self.new
            ≡ state_after (read_state self.old) (TransactionRecord number (items_of items))) }
        ensures numbered { OnOk result (Numbered base (read_state self.new)) }
    {
        self.txns.push((number, items))?;
        self.last = number;
        self.read += 1;
        Ok(())
    }

    /// Drops the transactions past a number. They are numbered from `base` on, so that those up to
    /// it are known by their count.
    fn discard(&mut self, base: u64, number: u64)
        requires numbered { Numbered base (read_state self.old) }
        requires room { self.old.read + 1 < 2 ^ 32 }
        requires least { base ≤ number }
        requires most { number ≤ self.old.last }
        ensures moved { read_state self.new
            ≡ state_after (read_state self.old) (DiscardRecord number) }
        ensures numbered { Numbered base (read_state self.new) }
    {
        self.txns.truncate((number - base) as usize);
        self.last = number;
        self.read += 1;
    }
}
