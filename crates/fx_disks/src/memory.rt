//! A disk in memory, which keeps each write and flush.
ghost use Rattle.std.specs.Prelude.{◌≡◌, ℕ, ◌+◌, ◌-◌, ◌<◌, ◌≤◌, ◌^◌, min, Bool, true, false, IsTrue, ◌↔◌, IfOk, IfSome, IsSome, OnOk, OnErr, is_ok, Some, IsPermutation, List, [], ◌∷◌, ◌++◌, length, map, replicate, slice_index_or, slice_set, if◌then◌else◌};
ghost use Rattle.fx_disk.specs.Record as model;
ghost use Rattle.fx_disk.specs.Steps.{IsRecordOf, IsRecordOf-prop, with_flush};
ghost use Rattle.fx_disks.specs.Calls.{call_of, record_from};
ghost use Rattle.fx_disks.specs.Index.{IsIndex, IsIndex-prop};

use crate::call::Made;
use crate::image::Image;
use crate::left::{bytes_by, picked_blocks};
use crate::numbers::Numbers;
use crate::pick::Pick;
use fx_base::{BLOCK_BYTES, count_up, zero_block};
use fx_disk::{Disk, DiskFailed, MAX_CALLS};
use std::alloc::{AllocError, Global};

/// A disk in memory.
///
/// A write costs the memory of its block; the image at entry is kept, never copied. A read or a
/// write costs the logarithm of how many calls are to fail, beside the block.
#[derive(Drop)]
pub struct MemDisk {
    alloc: Global,
    entry: Vec<[u8; BLOCK_BYTES]>,
    calls: Vec<Made>,
    // For each block the number of its last good write, 0 for none. Empty before the first write.
    latest: Vec<u64>,
    reads: u64,
    faults: u64,
    starved: u64,
    last_made: bool,
    fail_calls: Numbers,
    fail_reads: Numbers,
    ghost recorded: { IsRecordOf (length entry.items) (length (map call_of calls.items))
        (record_from entry.items (map call_of calls.items)) } by { IsRecordOf-prop
            (length entry.items) (length (map call_of calls.items))
            (record_from entry.items (map call_of calls.items)) },
    ghost indexed: { IsIndex entry.items (map call_of calls.items)
        latest.items } by { IsIndex-prop entry.items (map call_of calls.items)
            latest.items },
    ghost few_blocks: { length entry.items < 2 ^ 32 },
    ghost few_calls: { length (map call_of calls.items) ≤ 2 ^ 63 },
    ghost few_reads: { reads ≤ 2 ^ 63 },
    ghost few_faults: { faults < 2 ^ 64 },
}

fn push_call(calls: &mut Vec<Made>, call: Made) -> bool
    ensures kept { result ≡ true →
        map call_of calls.new.items ≡ map call_of calls.old.items ++ call_of call ∷ [] }
    ensures refused { result ≡ false → calls.new.items ≡ calls.old.items }
{
    calls.push(call).is_ok()
}

// Makes the index one of so many blocks, unless memory is refused.
fn extend_index(latest: &mut Vec<u64>, blocks: usize) -> bool
    ensures len { result ≡ true → length latest.new.items ≡ blocks }
    ensures index { (entry : List (List ℕ)) (calls : List model.Call) → length entry ≡ blocks →
        IsIndex entry calls latest.old.items → IsIndex entry calls latest.new.items }
{
    latest.resize(blocks, 0).is_ok()
}

fn note_write(latest: &mut Vec<u64>, at: u32, number: u64, ok: bool)
    requires { at < length latest.old.items }
    ensures { latest.new.items
        ≡ (if ok then slice_set latest.old.items at number else latest.old.items) }
{
    if ok {
        latest[at as usize] = number;
    }
}

// Keeps a write, unless memory is refused.
fn keep_write(
    calls: &mut Vec<Made>,
    latest: &mut Vec<u64>,
    blocks: usize,
    alloc: Global,
    at: u32,
    from: &[u8; BLOCK_BYTES],
    ok: bool,
) -> bool
    requires at { at < blocks }
    requires room { length calls.old.items < 2 ^ 63 }
    ensures kept { result ≡ true →
        map call_of calls.new.items ≡ map call_of calls.old.items ++ model.Write at from.now ok
        ∷ [] }
    ensures refused { result ≡ false → calls.new.items ≡ calls.old.items }
    ensures index { (entry : List (List ℕ)) → length entry ≡ blocks →
        IsIndex entry (map call_of calls.old.items) latest.old.items →
        IsIndex entry (map call_of calls.new.items) latest.new.items }
{
    if !extend_index(latest, blocks) {
        return false;
    }
    let number = calls.len() as u64 + 1;
    let Ok(bytes) = Box::new(alloc, *from) else {
        return false;
    };
    if !push_call(calls, Made::Write { at, bytes, ok }) {
        return false;
    }
    note_write(latest, at, number, ok);
    true
}

impl MemDisk {
    ghost use Rattle.fx_disks.specs.State.{fresh_state, IsAfterRead, Asks, written_record};
    ghost use Rattle.fx_disks.specs.Picks.{ArePicks, IsImageOf};
    ghost use Rattle.fx_base.specs.Blocks.{zero_bytes};
    ghost use Rattle.fx_disks.specs.Memory.{memory_state, told_of};

    /// A disk of so many blocks of zeros.
    pub fn new(alloc: Global, blocks: u32) -> Result<MemDisk, AllocError>
        ensures { IfOk result (λ d. memory_state d ≡ fresh_state (replicate blocks zero_bytes)) }
    {
        let mut zeros = Vec::new(alloc);
        zeros.resize(blocks as usize, zero_block())?;
        Ok(MemDisk::from_image(alloc, Image::from_blocks(zeros)))
    }

    /// A disk that reads as the image, with nothing loose and no calls. It takes no memory.
    pub fn from_image(alloc: Global, image: Image) -> MemDisk
        requires { length image < 2 ^ 32 }
        ensures { memory_state result ≡ fresh_state image }
    {
        MemDisk {
            alloc,
            entry: image.into_blocks(),
            calls: Vec::new(alloc),
            latest: Vec::new(alloc),
            reads: 0,
            faults: 0,
            starved: 0,
            last_made: true,
            fail_calls: Numbers::none(alloc),
            fail_reads: Numbers::none(alloc),
        }
    }

    /// The writes and flushes with these numbers, from 1, are to fail, and no other ones. It takes
    /// no memory, and sorts the numbers in place.
    pub fn fail_calls(&mut self, calls: Vec<u64>)
        ensures listed { IsPermutation calls.items (memory_state self.new).fail_calls }
        ensures same { memory_state self.new
            ≡ record (memory_state self.old) { fail_calls = (memory_state self.new).fail_calls } }
    {
        self.fail_calls = Numbers::of(calls);
    }

    /// The reads with these numbers, from 1, are to fail, and no other ones. It takes no memory,
    /// and sorts the numbers in place.
    pub fn fail_reads(&mut self, reads: Vec<u64>)
        ensures listed { IsPermutation reads.items (memory_state self.new).fail_reads }
        ensures same { memory_state self.new
            ≡ record (memory_state self.old) { fail_reads = (memory_state self.new).fail_reads } }
    {
        self.fail_reads = Numbers::of(reads);
    }

    /// The writes and flushes that were not made for want of memory. At `u64::MAX` the count stands
    /// still.
    pub fn starved(&self) -> u64
        ensures { result ≡ (memory_state self.now).starved }
    {
        self.starved
    }

    // A read that is asked for, and whether it answers Ok.
    fn try_read(&mut self, at: u32, into: &mut [u8; BLOCK_BYTES]) -> bool
        requires { at < length (told_of self.old).entry }
        ensures state { IsAfterRead (memory_state self.old) (memory_state self.new) result }
        ensures bytes { result ≡ true →
            into.new ≡ slice_index_or (told_of self.old).contents at [] }
    {
        if self.reads >= MAX_CALLS {
            count_up(&mut self.faults);
            return false;
        }
        self.reads += 1;
        if self.fail_reads.contains(self.reads) {
            count_up(&mut self.faults);
            return false;
        }
        let number = self.latest.get(at as usize).copied().unwrap_or(0);
        *into = *bytes_by(&self.entry, &self.calls, at as usize, number);
        true
    }

    // A write that is asked for, and whether it answers Ok.
    fn try_write(&mut self, at: u32, from: &[u8; BLOCK_BYTES]) -> bool
        requires { at < length (told_of self.old).entry }
        ensures { Asks (memory_state self.old) (memory_state self.new) result
            (written_record (told_of self.old) at from.now result) }
    {
        if self.calls.len() as u64 >= MAX_CALLS {
            count_up(&mut self.faults);
            self.last_made = false;
            return false;
        }
        let listed = self.fail_calls.contains(self.calls.len() as u64 + 1);
        let blocks = self.entry.len();
        if !keep_write(
            &mut self.calls,
            &mut self.latest,
            blocks,
            self.alloc,
            at,
            from,
            !listed,
        ) {
            count_up(&mut self.starved);
            count_up(&mut self.faults);
            self.last_made = false;
            return false;
        }
        self.last_made = true;
        if listed {
            count_up(&mut self.faults);
            return false;
        }
        true
    }

    // A flush that is asked for, and whether it answers Ok.
    fn try_flush(&mut self) -> bool
        ensures { Asks (memory_state self.old) (memory_state self.new) result
            (with_flush (told_of self.old) result) }
    {
        if self.calls.len() as u64 >= MAX_CALLS {
            count_up(&mut self.faults);
            self.last_made = false;
            return false;
        }
        let listed = self.fail_calls.contains(self.calls.len() as u64 + 1);
        if !push_call(&mut self.calls, Made::Flush { ok: !listed }) {
            count_up(&mut self.starved);
            count_up(&mut self.faults);
            self.last_made = false;
            return false;
        }
        self.last_made = true;
        if listed {
            count_up(&mut self.faults);
            return false;
        }
        true
    }

    /// The image that a stop at this moment leaves where each loose block holds what is picked for
    /// it, or else its settled bytes: the last that it held while it was not loose.
    ///
    /// It is none exactly where the moment is beyond the calls, or where a pick is of a block that
    /// is not loose, of a block that has another pick, or of a call that did not write its block by
    /// the call after the moment. It costs the number of calls, of picks and of blocks together.
    pub fn image_at(
        &self,
        alloc: Global,
        moment: u64,
        picks: &[Pick],
    ) -> Result<Option<Image>, AllocError>
        ensures picks { IfOk result (λ o. IsSome o ↔ ArePicks (told_of self.now) moment picks.now) }
        ensures image { IfOk result
            (λ o. IfSome o (IsImageOf (told_of self.now) moment picks.now)) }
        ensures left { IfOk result (λ o. IfSome o (model.Left (told_of self.now) moment)) }
    {
        if moment > self.calls.len() as u64 {
            return Ok(None);
        }
        let blocks = picked_blocks(alloc, &self.entry, &self.calls, moment, picks)?;
        Ok(blocks.map(Image::from_blocks))
    }
}

impl Disk for MemDisk {
    ghost use Rattle.fx_disk.specs.Seen.{HasRead, HasWritten, HasFlushed};
    ghost use Rattle.fx_disks.specs.State.{seen_in, IsAfterRead, Asks, written_record};
    ghost use Rattle.fx_disks.specs.Memory.{memory_state, told_of};

    ghost seen = { λ d. seen_in (memory_state d) };

    fn blocks(&self) -> u32 {
        self.entry.len() as u32
    }

    fn calls(&self) -> u64 {
        self.calls.len() as u64
    }

    fn reads(&self) -> u64 {
        self.reads
    }

    fn faults(&self) -> u64 {
        self.faults
    }

    fn read(&mut self, at: u32, into: &mut [u8; BLOCK_BYTES]) -> Result<(), DiskFailed>
        requires { at < length (told_of self.old).entry }
        ensures state { IsAfterRead (memory_state self.old) (memory_state self.new) (is_ok result) }
        ensures bytes { OnOk result (into.new ≡ slice_index_or (told_of self.old).contents at []) }
        ensures read { HasRead (seen_in (memory_state self.old)) (seen_in (memory_state self.new))
            (is_ok result) }
    {
        if self.try_read(at, into) {
            Ok(())
        } else {
            Err(DiskFailed)
        }
    }

    fn write(&mut self, at: u32, from: &[u8; BLOCK_BYTES]) -> Result<(), DiskFailed>
        requires { at < length (told_of self.old).entry }
        ensures state { Asks (memory_state self.old) (memory_state self.new) (is_ok result)
            (written_record (told_of self.old) at from.now (is_ok result)) }
        ensures written { HasWritten (seen_in (memory_state self.old))
            (seen_in (memory_state self.new))
            at from.now (is_ok result) }
    {
        if self.try_write(at, from) {
            Ok(())
        } else {
            Err(DiskFailed)
        }
    }

    fn flush(&mut self) -> Result<(), DiskFailed>
        ensures state { Asks (memory_state self.old) (memory_state self.new) (is_ok result)
            (with_flush (told_of self.old) (is_ok result)) }
        ensures flushed { HasFlushed (seen_in (memory_state self.old))
            (seen_in (memory_state self.new))
            (is_ok result) }
    {
        if self.try_flush() {
            Ok(())
        } else {
            Err(DiskFailed)
        }
    }

    ghost in_range = { λ d. record {
      few_blocks = d.few_blocks;
      few_calls = d.few_calls;
      few_reads = d.few_reads;
      few_faults = d.few_faults;
    } };

    ghost told_ok = { λ d. d.recorded };
}
