//! A disk for the tests, of blocks that it does not tell.
ghost use Rattle.std.specs.Prelude.{◌<◌, ◌≤◌, ◌^◌, None, length};

use fx_base::count_up;
use fx_disk::{BLOCK_BYTES, Disk, DiskFailed, MAX_CALLS};

/// Blocks, of which one write or flush and one read fail.
#[derive(Drop)]
pub struct FakeDisk {
    blocks: Vec<[u8; BLOCK_BYTES]>,
    /// The number of the call that fails, and of the read; the first is 1.
    failing_call: u64,
    failing_read: u64,
    calls: u64,
    reads: u64,
    faults: u64,
    last_made: bool,
    ghost few_blocks: { length blocks.items < 2 ^ 32 },
    ghost few_calls: { calls ≤ 2 ^ 63 },
    ghost few_reads: { reads ≤ 2 ^ 63 },
    ghost few_faults: { faults < 2 ^ 64 },
}

impl FakeDisk {
    /// A disk of these blocks.
    pub fn of(
        blocks: Vec<[u8; BLOCK_BYTES]>,
        failing_call: u64,
        failing_read: u64,
    ) -> Option<FakeDisk> {
        if blocks.len() > 1000 {
            return None;
        }
        Some(FakeDisk {
            blocks,
            failing_call,
            failing_read,
            calls: 0,
            reads: 0,
            faults: 0,
            last_made: true,
        })
    }
}

impl Disk for FakeDisk {
    ghost seen = { λ d. record {
      size = length d.blocks.items;
      told = None;
      calls = d.calls;
      reads = d.reads;
      faults = d.faults;
      last_made = d.last_made;
    } };

    fn blocks(&self) -> u32 {
        self.blocks.len() as u32
    }

    fn calls(&self) -> u64 {
        self.calls
    }

    fn reads(&self) -> u64 {
        self.reads
    }

    fn faults(&self) -> u64 {
        self.faults
    }

    fn read(&mut self, at: u32, into: &mut [u8; BLOCK_BYTES]) -> Result<(), DiskFailed> {
        if self.reads < MAX_CALLS {
            self.reads += 1;
            if self.reads != self.failing_read {
                *into = self.blocks[at as usize];
                return Ok(());
            }
        }
        count_up(&mut self.faults);
        Err(DiskFailed)
    }

    fn write(&mut self, at: u32, from: &[u8; BLOCK_BYTES]) -> Result<(), DiskFailed> {
        self.last_made = self.calls < MAX_CALLS;
        if self.last_made {
            self.calls += 1;
            if self.calls != self.failing_call {
                self.blocks[at as usize] = *from;
                return Ok(());
            }
        }
        count_up(&mut self.faults);
        Err(DiskFailed)
    }

    fn flush(&mut self) -> Result<(), DiskFailed> {
        self.last_made = self.calls < MAX_CALLS;
        if self.last_made {
            self.calls += 1;
            if self.calls != self.failing_call {
                return Ok(());
            }
        }
        count_up(&mut self.faults);
        Err(DiskFailed)
    }

    ghost in_range = { λ d. record {
      few_blocks = d.few_blocks;
      few_calls = d.few_calls;
      few_reads = d.few_reads;
      few_faults = d.few_faults;
    } };

    ghost told_ok = { λ d. tt };
}
