//! A disk over a file.
ghost use Rattle.std.specs.Prelude.{◌≡◌, ◌<◌, ◌≤◌, ◌^◌, true, false, [], slice_index_or, IfOk, OnOk, OnErr, is_ok};
ghost use Rattle.std.specs.Option.{IfSome};

use fx_base::count_up;
use fx_disk::{BLOCK_BYTES, Disk, DiskFailed, MAX_CALLS};
use std::fs::{File, OpenOptions};
use std::io;
use std::io::{Seek, SeekFrom};
use std::os::unix::fs::FileExt;
use std::rt::Files;

/// A disk over a file or a device, whose bytes it does not tell.
///
/// A block stands at 4,096 times its number. A flush is the data sync of the file, and ends when
/// the system says that the device has the bytes. After a flush that failed no write and no flush
/// is made any more: the system may forget what it could not write once it has said so, and a later
/// flush that succeeds would not speak of it. Reads go on.
///
/// As long as the disk lasts it holds an advisory lock on the file, which every other disk over it
/// respects, in this program and in others.
#[derive(Drop)]
pub struct FileDisk {
    file: File,
    blocks: u32,
    // Neither opened for reading alone nor shut by a flush that failed.
    writable: bool,
    calls: u64,
    reads: u64,
    faults: u64,
    last_made: bool,
    ghost few_calls: { calls ≤ 2 ^ 63 },
    ghost few_reads: { reads ≤ 2 ^ 63 },
    ghost few_faults: { faults < 2 ^ 64 },
    ghost few_blocks: { blocks < 2 ^ 32 },
}

/// Opens a file, takes its lock or fails, has its data on the device, and tells its size. A device
/// is as large as where it ends.
fn open<R: Files<File = File>>(rt: &R, path: &str, writable: bool) -> io::Result<(File, u64)> {
    let mut file = OpenOptions::new()
        .read(true)
        .write(writable)
        .open(rt, path)?;
    if writable {
        file.try_lock()?;
    } else {
        file.try_lock_shared()?;
    }
    file.sync_data()?;
    let size = file.seek(SeekFrom::End(0))?;
    Ok((file, size))
}

impl FileDisk {
    ghost use Rattle.fx_disks.specs.File.{IsUnused};

    /// Opens the file for reading and writing. The disk has its size divided by 4,096 blocks, at
    /// most `u32::MAX`; what is left of the file is not touched.
    ///
    /// The disk alone holds the file until it is dropped, and what is read of it is what the device
    /// holds: its data is synced once, which counts as no call. It fails where the file does not
    /// open, where another disk holds it, and where the sync fails; then nothing was read.
    pub fn on<R: Files<File = File>>(rt: &R, path: &str) -> Result<FileDisk, DiskFailed>
        ensures fresh { IfOk result (IsUnused true) }
    {
        let Ok((file, size)) = open(rt, path, true) else {
            return Err(DiskFailed);
        };
        Ok(FileDisk::over(file, size, true))
    }

    /// The same for reading alone: its writes and flushes are not made, and fail. Any number of
    /// such disks hold the file at a time, while none that writes does.
    pub fn to_read<R: Files<File = File>>(rt: &R, path: &str) -> Result<FileDisk, DiskFailed>
        ensures fresh { IfOk result (IsUnused false) }
    {
        let Ok((file, size)) = open(rt, path, false) else {
            return Err(DiskFailed);
        };
        Ok(FileDisk::over(file, size, false))
    }

    /// A disk over a file of this size, in bytes, before its first call.
    pub(crate) fn over(file: File, size: u64, writable: bool) -> FileDisk
        ensures { IsUnused writable result }
    {
        FileDisk {
            file,
            blocks: (size / BLOCK_BYTES as u64).min(u32::MAX as u64) as u32,
            writable,
            calls: 0,
            reads: 0,
            faults: 0,
            last_made: true,
        }
    }
}

/// Where a block begins in the file.
fn place_of(at: u32) -> u64 {
    u64::from(at) * BLOCK_BYTES as u64
}

impl Disk for FileDisk {
    ghost use Rattle.fx_disk.specs.Seen.{HasRead, HasWritten, HasFlushed};
    ghost use Rattle.fx_disks.specs.File.{IsHeldBack, seen_of};

    ghost seen = { λ d. seen_of d };

    fn blocks(&self) -> u32 {
        self.blocks
    }

    fn calls(&self) -> u64 {
        self.calls
    }

    fn reads(&self) -> u64 {
        self.reads
    }

    fn faults(&self) -> u64 {
        self.faults
    }

    fn read(&mut self, at: u32, into: &mut [u8; BLOCK_BYTES]) -> Result<(), DiskFailed>
        ensures bytes { OnOk result
            (IfSome (seen_of self.old).told (λ r. into.new ≡ slice_index_or r.contents at [])) }
        ensures read { HasRead (seen_of self.old) (seen_of self.new) (is_ok result) }
        ensures stays { self.new.writable ≡ self.old.writable }
    {
        if self.reads < MAX_CALLS {
            self.reads += 1;
            if self.file.read_exact_at(&mut into[..], place_of(at)).is_ok() {
                return Ok(());
            }
        }
        count_up(&mut self.faults);
        Err(DiskFailed)
    }

    fn write(&mut self, at: u32, from: &[u8; BLOCK_BYTES]) -> Result<(), DiskFailed>
        ensures written { HasWritten (seen_of self.old) (seen_of self.new) at from.now
            (is_ok result) }
        ensures refused { self.old.writable ≡ false → IsHeldBack self.old self.new (is_ok result) }
        ensures stays { self.new.writable ≡ self.old.writable }
    {
        self.last_made = self.writable && self.calls < MAX_CALLS;
        if self.last_made {
            self.calls += 1;
            if self.file.write_all_at(&from[..], place_of(at)).is_ok() {
                return Ok(());
            }
        }
        count_up(&mut self.faults);
        Err(DiskFailed)
    }

    fn flush(&mut self) -> Result<(), DiskFailed>
        ensures flushed { HasFlushed (seen_of self.old) (seen_of self.new) (is_ok result) }
        ensures refused { self.old.writable ≡ false → IsHeldBack self.old self.new (is_ok result) }
        // A flush that failed shuts the disk, and no call opens it again: each write and flush from
        // then on is refused.
        ensures shut { OnErr result (self.new.writable ≡ false) }
        ensures stays { OnOk result (self.new.writable ≡ self.old.writable) }
    {
        self.last_made = self.writable && self.calls < MAX_CALLS;
        if self.last_made {
            self.calls += 1;
            if self.file.sync_data().is_ok() {
                return Ok(());
            }
        }
        self.writable = false;
        count_up(&mut self.faults);
        Err(DiskFailed)
    }

    ghost in_range = { λ d. record {
      few_blocks = d.few_blocks;
      few_calls = d.few_calls;
      few_reads = d.few_reads;
      few_faults = d.few_faults;
    } };

    ghost told_ok = { λ d. tt };
}
