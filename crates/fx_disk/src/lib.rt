//! A disk of blocks of 4,096 bytes, and what a stop of it may leave.
//!
//! A disk is stated by what is seen of it (`specs/Seen.antt`): its size, its counts, and its
//! record, the image at entry and the list of the writes and flushes made since
//! (`specs/Record.antt`). What it does not tell of its record it need not keep, so a file meets the
//! trait as well as a disk in memory does. A caller says what it does to a disk by one frame over
//! `seen` (`GoesOn`, `HasOnlyRead`, `HasCalled`), and closes sequences and loops by the lemmas of
//! `proofs/Frames.antt`.
#![tactic(auto)]

ghost use Rattle.std.specs.Prelude.{◌≡◌, ◌<◌, OnOk, is_ok, [], slice_index_or};
ghost use Rattle.std.specs.Option.{IfSome};
ghost use Rattle.fx_disk.specs.Steps.{IsRecordOf};
ghost use Rattle.fx_disk.specs.Seen.{DiskSeen, IsCounted, HasRead, HasWritten, HasFlushed};

use thiserror::Error;

pub mod laws;

pub use fx_base::BLOCK_BYTES;

/// How many reads, and how many writes and flushes, a disk makes at most. Further ones fail.
pub const MAX_CALLS: u64 = 1 << 63;

/// A read, a write or a flush failed. The disk's count of faults rose.
#[derive(Clone, Copy, Debug, PartialEq, Eq, Error)]
#[error("the disk failed")]
pub struct DiskFailed;

/// A device of numbered blocks. No call takes memory that its caller could be refused.
pub trait Disk {
    /// All that is seen of the disk: its blocks, what it tells of its calls, and its counts.
    ghost seen: { Self → DiskSeen };

    /// The number of blocks. It never changes.
    fn blocks(&self) -> u32
        ensures { result ≡ (seen self.now).size };

    /// The writes and flushes made, failed ones included; at most 2^63.
    fn calls(&self) -> u64
        ensures { result ≡ (seen self.now).calls };

    /// The reads made, failed ones included; at most 2^63.
    fn reads(&self) -> u64
        ensures { result ≡ (seen self.now).reads };

    /// The calls that failed. At `u64::MAX` the count stands still.
    fn faults(&self) -> u64
        ensures { result ≡ (seen self.now).faults };

    /// Reads a block. After an error `into` holds any bytes.
    fn read(&mut self, at: u32, into: &mut [u8; BLOCK_BYTES]) -> Result<(), DiskFailed>
        requires { at < (seen self.old).size }
        ensures bytes { OnOk result
            (IfSome (seen self.old).told (λ r. into.new ≡ slice_index_or r.contents at [])) }
        ensures read { HasRead (seen self.old) (seen self.new) (is_ok result) };

    /// Writes a block. A write that fails may have been made, and then leaves any bytes in its
    /// block until a later write and flush.
    fn write(&mut self, at: u32, from: &[u8; BLOCK_BYTES]) -> Result<(), DiskFailed>
        requires { at < (seen self.old).size }
        ensures written { HasWritten (seen self.old) (seen self.new) at from.now (is_ok result) };

    /// Settles each block whose last write was good. A flush that fails settles nothing.
    fn flush(&mut self) -> Result<(), DiskFailed>
        ensures flushed { HasFlushed (seen self.old) (seen self.new) (is_ok result) };

    /// The counts stay in their ranges.
    ghost in_range: { (d : Self) → IsCounted (seen d) };

    /// What is told has so many blocks and calls, and reads as it was written.
    ghost told_ok: { (d : Self) → IfSome (seen d).told (IsRecordOf (seen d).size (seen d).calls) };
}
