//! The size of a block, and zeros.
ghost use Rattle.std.specs.Prelude.{◌≡◌, ◌↔◌, IsTrue, length, replicate};
ghost use Rattle.fx_base.specs.Blocks.{zero_bytes};

/// The bytes of a block.
pub const BLOCK_BYTES: usize = 4096;

/// A block of zeros.
#[tactic(auto, unfolding(crate::specs::Blocks::zero_bytes))]
pub fn zero_block() -> [u8; BLOCK_BYTES]
    ensures { result ≡ zero_bytes }
{
    [0; BLOCK_BYTES]
}

/// Whether all bytes are zero. One pass over the bytes.
pub fn is_zero(bytes: &[u8]) -> bool
    ensures { IsTrue result ↔ (bytes.now ≡ replicate (length bytes.now) 0) }
{
    bytes.iter().all(|byte| *byte == 0)
}
