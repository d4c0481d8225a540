ghost use Rattle.std.specs.Prelude.{◌≡◌, ◌-◌, length};
ghost use Rattle.fx_super.specs.Super.{KeepsRules, IsSuper, fields_of, super_block, super_body, after_version, sizes, counters, super_padding};

use crate::Super;
use crate::layers::LAYER_BYTES;
use crate::superblock::{
    AFTER_VERSION, COUNTER_BYTES, MAGIC, PADDING, SIZE_BYTES, SUM_AT, VERSION_AT,
};
use byteorder::{ByteOrder, LittleEndian};
use fx_base::BLOCK_BYTES;
use fx_sum::fletch;

/// Writes the superblock of these fields. One pass over the block, and no memory.
#[tactic(auto, unfolding(crate::specs::Super::super_block))]
pub fn encode_super(s: &Super, into: &mut [u8; BLOCK_BYTES])
    ensures bytes { into.new ≡ super_block (fields_of s.now) }
    // Where the fields keep the rules it is a superblock.
    ensures form { KeepsRules (fields_of s.now) → IsSuper into.new (fields_of s.now) }
{
    let (body, sum) = into.split_at_mut(SUM_AT);
    write_body(s, body);
    LittleEndian::write_u64(sum, fletch(0, body));
}

/// Writes all of a superblock but its sum.
#[tactic(auto, unfolding(crate::specs::Super::super_body))]
fn write_body(s: &Super, into: &mut [u8])
    requires { length into.old ≡ SUM_AT }
    ensures { into.new ≡ super_body (fields_of s.now) }
{
    let (magic, rest) = into.split_at_mut(VERSION_AT);
    let (version, rest) = rest.split_at_mut(AFTER_VERSION - VERSION_AT);
    LittleEndian::write_u64(magic, MAGIC);
    LittleEndian::write_u32(version, s.version);
    write_after_version(s, rest);
}

/// Writes what follows the version.
#[tactic(auto, unfolding(crate::specs::Super::after_version))]
fn write_after_version(s: &Super, into: &mut [u8])
    requires { length into.old ≡ SUM_AT - AFTER_VERSION }
    ensures { into.new ≡ after_version (fields_of s.now) }
{
    let (sizes, rest) = into.split_at_mut(SIZE_BYTES);
    let (counters, rest) = rest.split_at_mut(COUNTER_BYTES);
    let (objects, rest) = rest.split_at_mut(LAYER_BYTES);
    let (allocs, rest) = rest.split_at_mut(LAYER_BYTES);
    let (floor, zeros) = rest.split_at_mut(8);
    write_sizes(s, sizes);
    write_counters(s, counters);
    s.objects.write(objects);
    s.allocs.write(allocs);
    LittleEndian::write_u64(floor, s.floor);
    fill_zeros(zeros);
}

/// Writes the zeros after the floor.
fn fill_zeros(into: &mut [u8])
    requires { length into.old ≡ PADDING }
    ensures { into.new ≡ super_padding }
{
    into.fill(0);
}

/// Writes the sizes.
#[tactic(auto, unfolding(crate::specs::Super::sizes))]
fn write_sizes(s: &Super, into: &mut [u8])
    requires { length into.old ≡ SIZE_BYTES }
    ensures { into.new ≡ sizes s.now.blocks s.now.generation s.now.ring }
{
    LittleEndian::write_u32(into, s.blocks);
    LittleEndian::write_u64(&mut into[4..], s.generation);
    LittleEndian::write_u32(&mut into[12..], s.ring);
    LittleEndian::write_u32(&mut into[16..], 0);
}

/// Writes the counters.
#[tactic(auto, unfolding(crate::specs::Super::counters))]
fn write_counters(s: &Super, into: &mut [u8])
    requires { length into.old ≡ COUNTER_BYTES }
    ensures { into.new ≡ counters s.now.sequence s.now.chain s.now.base s.now.next_id
        s.now.next_store (length s.now.objects) (length s.now.allocs) }
{
    LittleEndian::write_u64(into, s.sequence);
    LittleEndian::write_u64(&mut into[8..], s.chain);
    LittleEndian::write_u64(&mut into[16..], s.base);
    LittleEndian::write_u64(&mut into[24..], s.next_id);
    LittleEndian::write_u32(&mut into[32..], s.next_store);
    LittleEndian::write_u32(&mut into[36..], s.objects.count());
    LittleEndian::write_u32(&mut into[40..], s.allocs.count());
    LittleEndian::write_u32(&mut into[44..], 0);
}
