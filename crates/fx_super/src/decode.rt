ghost use Rattle.std.specs.Prelude.{◌≡◌, ◌≤◌, ◌+◌, ◌-◌, ◌↔◌, ◌++◌, ℕ, IsTrue, IsOkAnd, MatchOption, length, replicate};
ghost use Rattle.byteorder.specs.Endian.{little_bytes};
ghost use Rattle.fx_super.specs.Super.{Fields, IsSuper, IsVersion, IsAfterVersion, AreSizes, AreCounters, Decoded, fields_of};

use crate::layers::LAYER_BYTES;
use crate::superblock::{AFTER_VERSION, COUNTER_BYTES, MAGIC, SIZE_BYTES, SUM_AT, VERSION_AT};
use crate::{LayerList, Super, VERSION};
use byteorder::{ByteOrder, LittleEndian};
use fx_base::{BLOCK_BYTES, is_zero};
use fx_sum::fletch;
use thiserror::Error;

/// Why a block is not read as a superblock.
#[derive(Clone, Copy, Debug, PartialEq, Eq, Error)]
pub enum SuperFault {
    /// It is no superblock of any version.
    #[error("no superblock")]
    Bad,
    /// The magic and the sum are right, and the version is another one.
    #[error("a superblock of version {0}")]
    Version(u32),
}

/// What the block says, if it is a superblock: `Version` exactly where the magic and the sum are
/// right and the version is another one, and `Bad` exactly where it is neither. The sum takes one
/// pass over the block, the fields another, and no memory is taken.
pub fn decode_super(block: &[u8; BLOCK_BYTES]) -> Result<Super, SuperFault>
    ensures decoded { Decoded block.now result }
    // A superblock is read as what it says.
    ensures found { (f : Fields) → IsSuper block.now f → IsOkAnd result (λ s. fields_of s ≡ f) }
    // Another version is told as that.
    ensures version { (v : ℕ) → IsVersion block.now v → result ≡ Err (SuperFault.Version v) }
{
    judge(block)
}

/// What the block says, by its sum, its magic, its version and its fields.
fn judge(block: &[u8; BLOCK_BYTES]) -> Result<Super, SuperFault>
    ensures { Decoded block.now result }
{
    let (body, sum) = block.split_at(SUM_AT);
    if LittleEndian::read_u64(sum) != fletch(0, body) {
        return Err(SuperFault::Bad);
    }
    if LittleEndian::read_u64(body) != MAGIC {
        return Err(SuperFault::Bad);
    }
    let version = LittleEndian::read_u32(&body[VERSION_AT..]);
    if version != VERSION {
        return Err(SuperFault::Version(version));
    }
    let Some(fields) = fields_at(&body[AFTER_VERSION..]) else {
        return Err(SuperFault::Bad);
    };
    if fields.keeps_rules() {
        return Ok(fields);
    }
    Err(SuperFault::Bad)
}

/// The fields that stand after the version, with version 1.
fn fields_at(bytes: &[u8]) -> Option<Super>
    requires { length bytes.now ≡ SUM_AT - AFTER_VERSION }
    ensures { MatchOption result ((f : Fields) → IsAfterVersion bytes.now f → ⊥)
        (λ s. (s.version ≡ VERSION) × IsAfterVersion bytes.now (fields_of s)) }
{
    let (sizes, rest) = bytes.split_at(SIZE_BYTES);
    let (counters, rest) = rest.split_at(COUNTER_BYTES);
    let (objects, rest) = rest.split_at(LAYER_BYTES);
    let (allocs, rest) = rest.split_at(LAYER_BYTES);
    let (floor, zeros) = take_u64(rest);
    if !is_zero(zeros) {
        return None;
    }
    let sizes = sizes_at(sizes)?;
    let counters = counters_at(counters)?;
    let objects = LayerList::read(objects, counters.objects)?;
    let allocs = LayerList::read(allocs, counters.allocs)?;
    Some(Super {
        version: VERSION,
        blocks: sizes.blocks,
        generation: sizes.generation,
        ring: sizes.ring,
        sequence: counters.sequence,
        chain: counters.chain,
        base: counters.base,
        next_id: counters.next_id,
        next_store: counters.next_store,
        objects,
        allocs,
        floor,
    })
}

/// The sizes, as they stand after the version.
#[derive(Clone, Copy)]
struct Sizes {
    blocks: u32,
    generation: u64,
    ring: u32,
}

/// The sizes that stand here.
fn sizes_at(bytes: &[u8]) -> Option<Sizes>
    requires { length bytes.now ≡ SIZE_BYTES }
    ensures { MatchOption result ((blocks generation ring : ℕ)
        → AreSizes bytes.now blocks generation ring → ⊥)
        (λ s. AreSizes bytes.now s.blocks s.generation s.ring) }
{
    let (blocks, rest) = take_u32(bytes);
    let (generation, rest) = take_u64(rest);
    let (ring, rest) = take_u32(rest);
    let (zero, _) = take_u32(rest);
    if zero != 0 {
        return None;
    }
    Some(Sizes {
        blocks,
        generation,
        ring,
    })
}

/// The counters, as they stand after the sizes, and how many layers each list has.
#[derive(Clone, Copy)]
struct Counters {
    sequence: u64,
    chain: u64,
    base: u64,
    next_id: u64,
    next_store: u32,
    objects: u32,
    allocs: u32,
}

/// The counters that stand here.
fn counters_at(bytes: &[u8]) -> Option<Counters>
    requires { length bytes.now ≡ COUNTER_BYTES }
    ensures { MatchOption result ((s c b i t o a : ℕ) → AreCounters bytes.now s c b i t o a → ⊥)
        (λ n. AreCounters bytes.now n.sequence n.chain n.base n.next_id n.next_store n.objects
        n.allocs) }
{
    let (sequence, rest) = take_u64(bytes);
    let (chain, rest) = take_u64(rest);
    let (base, rest) = take_u64(rest);
    let (next_id, rest) = take_u64(rest);
    let (next_store, rest) = take_u32(rest);
    let (objects, rest) = take_u32(rest);
    let (allocs, rest) = take_u32(rest);
    let (zero, _) = take_u32(rest);
    if zero != 0 {
        return None;
    }
    Some(Counters {
        sequence,
        chain,
        base,
        next_id,
        next_store,
        objects,
        allocs,
    })
}

/// The number in the first four bytes, and the bytes after it.
fn take_u32(bytes: &[u8]) -> (u32, &[u8])
    requires { 4 ≤ length bytes.now }
    ensures read { bytes.now ≡ little_bytes 4 result.0 ++ result.1.now }
    ensures left { 4 + length result.1.now ≡ length bytes.now }
{
    let (number, rest) = bytes.split_at(4);
    (LittleEndian::read_u32(number), rest)
}

/// The number in the first eight bytes, and the bytes after it.
fn take_u64(bytes: &[u8]) -> (u64, &[u8])
    requires { 8 ≤ length bytes.now }
    ensures read { bytes.now ≡ little_bytes 8 result.0 ++ result.1.now }
    ensures left { 8 + length result.1.now ≡ length bytes.now }
{
    let (number, rest) = bytes.split_at(8);
    (LittleEndian::read_u64(number), rest)
}
