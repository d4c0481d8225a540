//! Reading the stream of a superblock, and the transactions that its records leave.
ghost use Rattle.std.specs.Prelude.{◌≡◌, ◌≢◌, ◌≤◌, ℕ, List, IfOk, IfErr, length};
ghost use Rattle.fx_super.specs.Super.{fields_of};
ghost use Rattle.fx_journal.specs.Stream.{IsStream, MayBeStream};
ghost use Rattle.fx_log.specs.Chosen.{start_of};
ghost use Rattle.fx_logcuts.specs.Cuts.{pieces_in};
ghost use Rattle.fx_record.specs.Txns as records;
ghost use Rattle.fx_record.specs.Txns.{txns_of};
ghost use Rattle.fx_layfile.specs.Layer.{TellsImage};
ghost use Rattle.fx_found.specs.Reading.{ReadsAtMost, IsOfDisk, HoldsTxns, IsRecordFault, IsTxnsFault, has_read};

use crate::fault::FindFault;
use fx_disk::Disk;
use fx_jblock::Start;
use fx_journal::{Blocks, Stream, WalkFault, walk};
use fx_record::{Piece, Txns, TxnsFault, read_txns};
use fx_super::Super;
use std::alloc::{AllocError, Global};

/// What a stream holds: how many blocks it has, the place after them, and its transactions.
#[derive(Drop)]
pub(crate) struct Journal {
    pub(crate) closed: u32,
    pub(crate) next: Start,
    pub(crate) txns: Txns,
}

/// Reads the stream and its records: each block of the stream once, and the one after it.
pub(crate) fn read_journal<D: Disk>(
    alloc: Global,
    disk: &mut D,
    sup: &Super,
) -> Result<Journal, FindFault>
    requires disk { IsOfDisk (D.seen disk.old).size (fields_of sup.now) }
    ensures holds { IfOk result (λ j.
        HoldsTxns (fields_of sup.now) j.closed j.next (txns_of j.txns)) }
    ensures told { (image : List (List ℕ)) → TellsImage (D.seen disk.old) image
        → IfOk result (λ j.
        (h : HoldsTxns (fields_of sup.now) j.closed j.next (txns_of j.txns))
        × IsStream image sup.now.ring sup.now.generation (start_of (fields_of sup.now)) h.stream
        j.next) }
    ensures fault { (image : List (List ℕ)) → TellsImage (D.seen disk.old) image
        → IfErr result (IsRecordFault image (fields_of sup.now)) }
    ensures read { ReadsAtMost (D.seen disk.old) (D.seen disk.new) sup.now.ring
        (has_read result) }
{
    let start = start_of(sup);
    let stream = match walk(alloc, disk, start, sup.ring, sup.generation) {
        Ok(stream) => stream,
        Err(WalkFault::Device) => return Err(FindFault::Device),
        Err(WalkFault::OutOfMemory) => return Err(FindFault::OutOfMemory),
    };
    match read_records(alloc, sup, stream) {
        Ok(journal) => Ok(journal),
        Err(fault) => Err(fault),
    }
}

/// Where the superblock says that the stream begins.
fn start_of(sup: &Super) -> Start
    ensures { result ≡ start_of (fields_of sup.now) }
{
    Start {
        sequence: sup.sequence,
        chain: sup.chain,
        floor: sup.floor,
    }
}

/// What the blocks of the stream hold.
fn read_records(alloc: Global, sup: &Super, stream: Stream) -> Result<Journal, FindFault>
    requires ring { sup.now.ring ≤ 1024 }
    requires may { MayBeStream sup.now.ring sup.now.generation (start_of (fields_of sup.now))
        stream.blocks stream.next }
    ensures holds { IfOk result (λ j. (j.closed ≡ length stream.blocks) × (j.next ≡ stream.next)
        × records.IsTxns sup.now.base (pieces_in stream.blocks) (txns_of j.txns)) }
    ensures fault { IfErr result (IsTxnsFault sup.now.base (pieces_in stream.blocks)) }
    ensures unfailed { IfErr result (λ fault. fault ≢ FindFault.Device) }
{
    let closed = stream.blocks.len() as u32;
    let next = stream.next;
    let Ok(pieces) = pieces_of(alloc, stream.blocks) else {
        return Err(FindFault::OutOfMemory);
    };
    match read_txns(alloc, sup.base, &pieces) {
        Ok(txns) => Ok(Journal { closed, next, txns }),
        Err(TxnsFault::BadRecord(place)) => Err(FindFault::BadRecord(place)),
        Err(TxnsFault::OutOfMemory) => Err(FindFault::OutOfMemory),
    }
}

/// The blocks as their epochs and record bytes.
fn pieces_of(alloc: Global, blocks: Blocks) -> Result<Vec<Piece>, AllocError>
    ensures { IfOk result (λ pieces. records.pieces_of pieces.items ≡ pieces_in blocks) }
{
    let mut pieces = Vec::with_capacity(alloc, blocks.len())?;
    for block in blocks.into_vec() {
        pieces.push(Piece {
            epoch: block.epoch,
            records: block.records,
        })?;
    }
    Ok(pieces)
}
