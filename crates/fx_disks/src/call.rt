//! A write or a flush that was made, as a disk in memory keeps it.
ghost use Rattle.std.specs.Prelude.{◌≡◌, ◌↔◌, IsTrue};
ghost use Rattle.fx_disk.specs.Loose.{IsWriteOf};

use fx_base::BLOCK_BYTES;

#[derive(Drop)]
pub enum Made {
    Write {
        at: u32,
        bytes: Box<[u8; BLOCK_BYTES]>,
        ok: bool,
    },
    Flush {
        ok: bool,
    },
}

impl Made {
    ghost use Rattle.fx_disks.specs.Calls.{call_of, is_write, bytes_or};

    pub fn is_write(&self) -> bool
        ensures { result ≡ is_write self.now }
    {
        matches!(self, Made::Write { .. })
    }

    pub fn is_write_of(&self, block: u32) -> bool
        ensures { IsTrue result ↔ IsWriteOf block (call_of self.now) }
    {
        match self {
            Made::Write { at, .. } => *at == block,
            Made::Flush { .. } => false,
        }
    }

    /// The bytes of a write, or the other ones for a flush.
    pub fn bytes_or<'a>(&'a self, other: &'a [u8; BLOCK_BYTES]) -> &'a [u8; BLOCK_BYTES]
        ensures { result.now ≡ bytes_or (call_of self.now) other.now }
    {
        match self {
            Made::Write { bytes, .. } => bytes,
            Made::Flush { .. } => other,
        }
    }
}
