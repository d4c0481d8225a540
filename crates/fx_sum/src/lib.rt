//! The checksum of blocks: Fletcher's checksum with 64 bits, two running sums over words of four
//! bytes, the lowest byte first (J. G. Fletcher, "An Arithmetic Checksum for Serial Transmissions",
//! IEEE Transactions on Communications 30, 1982; RFC 1146 states it with 8 and 16 bits).
//!
//! It differs from Fletcher-64 as it is mostly given in two ways. The sums are taken modulo 2^32, as
//! the processor adds, and not modulo 2^32 - 1. And it can be begun at an earlier checksum, so that
//! sums make a chain: the sum of all that was summed before stands for what came before.
#![tactic(auto)]

ghost use Rattle.std.specs.Prelude.{◌≡◌, ◌%◌, length};
ghost use Rattle.fx_sum.specs.Checksum.{fletch};

/// The checksum of `bytes`, begun at the checksum `start` of what stands before them; 0 begins anew.
/// The number of bytes is a multiple of 4. One pass over the bytes, and no memory.
pub fn fletch(start: u64, bytes: &[u8]) -> u64
    requires { length bytes.now % 4 ≡ 0 }
    ensures { result ≡ fletch start bytes.now }
{
    let mut low = (start & 0xffff_ffff) as u32;
    let mut high = (start >> 32) as u32;
    let mut rest = bytes;
    while let Some((word, after)) = rest.split_first_chunk::<4>() {
        low = low.wrapping_add(u32::from_le_bytes(*word));
        high = high.wrapping_add(low);
        rest = after;
    }
    (u64::from(high) << 32) | u64::from(low)
}

#[cfg(test)]
mod tests;
