//! The blocks of the journal, which is a write-ahead log: 4,096 bytes each, with a sequence number,
//! an epoch, record bytes and a checksum that begins at the checksum of the block before, so that
//! the blocks make a chain, and a torn or an older block ends it.
#![tactic(auto)]

ghost use Rattle.std.specs.Prelude.{◌≡◌, ◌<◌, ◌≤◌, ◌-◌, ◌↔◌, IsTrue, MatchOption, ℕ, List, length, drop, replicate};
ghost use Rattle.fx_sum.specs.Checksum.{fletch};
ghost use Rattle.byteorder.specs.Endian.{little_bytes};
ghost use Rattle.fx_jblock.specs.Block.{body, Holds, Continues, Judged, IsBody};

use byteorder::{ByteOrder, LittleEndian};
use fx_base::{BLOCK_BYTES, is_zero};
use fx_sum::fletch;

/// The most record bytes of a block.
pub const RECORD_BYTES: usize = 4064;

/// Where the record bytes begin in a block.
pub const HEADER_BYTES: usize = 24;

/// Where the sum stands in a block. It covers all bytes before it.
pub const SUM_AT: usize = 4088;

/// The place at which a stream of blocks begins.
#[derive(Clone, Copy, Debug, PartialEq, Eq)]
pub struct Start {
    /// The sequence number of its first block.
    pub sequence: u64,
    /// The sum that the sum of the first block begins at.
    pub chain: u64,
    /// The least epoch that the first block may have.
    pub floor: u64,
}

/// What a block that was read is in its stream.
#[derive(Clone, Copy, Debug, PartialEq, Eq)]
pub enum Fit {
    /// Its sum is wrong.
    Torn,
    /// Its sum is right, and it does not belong here: another sequence, an epoch out of range, or
    /// not of the form.
    Stale,
    /// It is the next block of the stream.
    Fits {
        /// The sum that the next block's sum begins at.
        chain: u64,
        /// The block's epoch, the least one of the next block.
        epoch: u64,
        /// How many record bytes there are, 1 to 4,064, from byte 24 on.
        used: u16,
    },
}

/// Fills a block with record bytes, and answers the chain after it. `text` has 1 to 4,064 bytes,
/// and an epoch is at least 1. One pass over the block, and no memory.
pub fn pack(seq: u64, epoch: u64, chain: u64, text: &[u8], into: &mut [u8; BLOCK_BYTES]) -> u64
    requires filled { 1 ≤ length text.now }
    requires room { length text.now ≤ RECORD_BYTES }
    requires begun { 1 ≤ epoch }
    ensures holds { Holds into.new seq epoch chain text.now }
    ensures chain { result ≡ fletch chain (body seq epoch text.now) }
{
    let (before, sum) = into.split_at_mut(SUM_AT);
    fill_body(seq, epoch, text, before);
    let after = fletch(chain, before);
    LittleEndian::write_u64(sum, after);
    after
}

/// Writes all of a block but its sum.
#[tactic(auto, unfolding(crate::specs::Block::body))]
fn fill_body(seq: u64, epoch: u64, text: &[u8], into: &mut [u8])
    requires room { length text.now ≤ RECORD_BYTES }
    requires len { length into.old ≡ SUM_AT }
    ensures { into.new ≡ body seq epoch text.now }
{
    let (header, rest) = into.split_at_mut(HEADER_BYTES);
    LittleEndian::write_u64(header, seq);
    LittleEndian::write_u64(&mut header[8..], epoch);
    LittleEndian::write_u16(&mut header[16..], text.len() as u16);
    header[18..].fill(0);
    let (records, padding) = rest.split_at_mut(text.len());
    records.copy_from_slice(text);
    padding.fill(0);
}

/// What the block is as the one of sequence `seq` after the chain `chain`, where the epochs from
/// `floor` to `generation` may stand. One pass over the block, and no memory.
pub fn fits(block: &[u8; BLOCK_BYTES], seq: u64, floor: u64, generation: u64, chain: u64) -> Fit
    ensures judged { Judged block.now seq floor generation chain result }
    // A block that continues the stream is told so, with the chain after it.
    ensures packed { (epoch : ℕ) (text : List ℕ)
        → Continues block.now seq floor generation chain epoch text
        → result ≡ Fit.Fits (fletch chain (body seq epoch text)) epoch (length text) }
{
    judge(block, seq, floor, generation, chain)
}

/// What the block is in its stream, by its sum and its fields.
fn judge(block: &[u8; BLOCK_BYTES], seq: u64, floor: u64, generation: u64, chain: u64) -> Fit
    ensures { Judged block.now seq floor generation chain result }
{
    let (before, sum) = block.split_at(SUM_AT);
    let after = fletch(chain, before);
    if LittleEndian::read_u64(sum) != after {
        return Fit::Torn;
    }
    let Some((epoch, used)) = form_of(before, seq) else {
        return Fit::Stale;
    };
    if epoch < floor || generation < epoch {
        return Fit::Stale;
    }
    Fit::Fits {
        chain: after,
        epoch,
        used,
    }
}

/// The epoch and the number of record bytes of a block that is of the form and has this sequence.
fn form_of(before: &[u8], seq: u64) -> Option<(u64, u16)>
    requires { length before.now ≡ SUM_AT }
    ensures { MatchOption result
        ((epoch : ℕ) (text : List ℕ) → IsBody before.now seq epoch text → ⊥)
        (λ x. (text : List ℕ) × (length text ≡ x.1) × IsBody before.now seq x.0 text) }
{
    let epoch = LittleEndian::read_u64(&before[8..]);
    let used = LittleEndian::read_u16(&before[16..]);
    if LittleEndian::read_u64(before) == seq
        && 0 < epoch
        && is_zero(&before[18..HEADER_BYTES])
        && is_filled(&before[HEADER_BYTES..], used)
    {
        return Some((epoch, used));
    }
    None
}

/// Whether `used` bytes, at least one, stand in the place of the record bytes, and zeros after
/// them.
fn is_filled(records: &[u8], used: u16) -> bool
    ensures { IsTrue result ↔ ((0 < used) × (used ≤ length records.now)
        × (drop used records.now ≡ replicate (length records.now - used) 0)) }
{
    let used = used as usize;
    0 < used && used <= records.len() && is_zero(&records[used..])
}

#[cfg(test)]
mod tests;
