//! A disk for the tests that keeps nothing and tells nothing.
ghost use Rattle.std.specs.Prelude.{◌≡◌, ◌<◌, ◌≤◌, ◌^◌, None, true};

use fx_base::count_up;
use fx_disk::{BLOCK_BYTES, Disk, DiskFailed, MAX_CALLS};

/// Blocks, of which one write or flush fails.
#[derive(Drop)]
pub(crate) struct FakeDisk {
    blocks: u32,
    /// The number of the call that fails; the first is 1.
    failing_call: u64,
    calls: u64,
    reads: u64,
    faults: u64,
    last_made: bool,
    ghost few_calls: { calls ≤ 2 ^ 63 },
    ghost few_reads: { reads ≤ 2 ^ 63 },
    ghost few_faults: { faults < 2 ^ 64 },
    ghost few_blocks: { blocks < 2 ^ 32 },
}

impl FakeDisk {
    pub(crate) fn of(blocks: u32, failing_call: u64) -> FakeDisk
        ensures size { result.blocks ≡ blocks }
        ensures calls { result.calls ≡ 0 }
        ensures faults { result.faults ≡ 0 }
    {
        FakeDisk {
            blocks,
            failing_call,
            calls: 0,
            reads: 0,
            faults: 0,
            last_made: true,
        }
    }
}

impl Disk for FakeDisk {
    ghost seen = { λ d. record {
      size = d.blocks;
      told = None;
      calls = d.calls;
      reads = d.reads;
      faults = d.faults;
      last_made = d.last_made;
    } };

    fn blocks(&self) -> u32 {
        self.blocks
    }

    fn calls(&self) -> u64 {
        self.calls
    }

    fn reads(&self) -> u64 {
        self.reads
    }

    fn faults(&self) -> u64 {
        self.faults
    }

    fn read(&mut self, _at: u32, _into: &mut [u8; BLOCK_BYTES]) -> Result<(), DiskFailed> {
        if self.reads < MAX_CALLS {
            self.reads += 1;
        }
        count_up(&mut self.faults);
        Err(DiskFailed)
    }

    fn write(&mut self, _at: u32, _from: &[u8; BLOCK_BYTES]) -> Result<(), DiskFailed> {
        self.last_made = self.calls < MAX_CALLS;
        if self.last_made {
            self.calls += 1;
            if self.calls != self.failing_call {
                return Ok(());
            }
        }
        count_up(&mut self.faults);
        Err(DiskFailed)
    }

    fn flush(&mut self) -> Result<(), DiskFailed> {
        self.last_made = self.calls < MAX_CALLS;
        if self.last_made {
            self.calls += 1;
            if self.calls != self.failing_call {
                return Ok(());
            }
        }
        count_up(&mut self.faults);
        Err(DiskFailed)
    }

    ghost in_range = { λ d. record {
      few_blocks = d.few_blocks;
      few_calls = d.few_calls;
      few_reads = d.few_reads;
      few_faults = d.few_faults;
    } };

    ghost told_ok = { λ d. tt };
}
