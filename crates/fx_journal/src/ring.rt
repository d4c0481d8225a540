//! The ring: its reservations, and the queue of closed blocks that are not written yet.
ghost use Rattle.std.specs.Prelude.{◌≡◌, ◌↔◌, ℕ, ◌+◌, ◌-◌, ◌/◌, ◌^◌, ◌<◌, ◌≤◌, List, [], ◌∷◌, ◌++◌, length, drop, Some, None, Ok, Err, IsErr, IfOk, IfErr, OnOk, OnErr, is_ok};
ghost use Rattle.fx_disk.specs.Seen.{HasCalled};
ghost use Rattle.fx_pool.specs.Region.{IsSound};
ghost use Rattle.fx_journal.specs.Ring.{begun, want};

use crate::place::block_number;
use crate::ring_buffers::{give_first, give_last, pack_into, take_blocks, write_buffer};
use fx_disk::{Disk, DiskFailed};
use fx_item::Full;
use fx_jblock::{RECORD_BYTES, Start};
use fx_pool::{Buf, Pool};
use fx_super::{MAX_RING, MIN_RING, RING_AT};
use std::alloc::{AllocError, Global};
use std::collections::VecDeque;
use std::marker::Model;

/// What [`Ring::write_next`] wrote.
#[derive(Clone, Copy, Debug, PartialEq, Eq)]
pub enum Wrote {
    /// The block of this sequence number.
    Block(u64),
    /// No closed block below the bound was queued.
    Nothing,
}

/// The ring of the journal's blocks, from its start through the unfinished block.
///
/// Records are appended to the unfinished block, in the ring's own memory. A block that is full, or
/// padded, is closed: it is packed once into a buffer of the pool and waits there until it is
/// written. Block `s` stands in disk block `2 + s mod R`, where `R` is the ring's size, and keeps
/// that place until the blocks before a later one are freed. A ring has no `Drop`: it is spent by
/// [`Ring::close`].
///
/// Sequence numbers stand still at `u64::MAX`.
pub struct Ring {
    start: Start,
    size: u32,
    epoch: u64,
    closed: u32,
    chain: u64,
    text: Vec<u8>,
    promised: u32,
    queued: u32,
    buffers: VecDeque<Buf>,
}

impl Model for Ring {
    ghost use Rattle.std.specs.Prelude.{◌≤◌, vec_capacity};
    ghost use Rattle.std.specs.VecDeque.{deque_capacity};
    ghost use Rattle.fx_jblock.specs.declared.TheConstants.{RECORD_BYTES};
    ghost use Rattle.fx_journal.specs.Ring.{RingState, IsRing};

    ghost Value = { RingState };

    ghost view = { λ r. record {
      start = r.start;
      size = r.size;
      epoch = r.epoch;
      closed = r.closed;
      chain = r.chain;
      text = r.text.items;
      promised = r.promised;
      queued = r.queued;
      buffers = r.buffers.items;
    } };

    ghost invariant = { λ r. IsRing
        (record {
          start = r.start;
          size = r.size;
          epoch = r.epoch;
          closed = r.closed;
          chain = r.chain;
          text = r.text.items;
          promised = r.promised;
          queued = r.queued;
          buffers = r.buffers.items;
        })
        × (RECORD_BYTES ≤ vec_capacity r.text) × (r.size ≤ deque_capacity r.buffers) };
}

// How many blocks so many record bytes want.
fn want_of(bytes: usize) -> usize
    requires { bytes < 2 ^ 63 }
    ensures { result ≡ want bytes }
{
    (bytes + (RECORD_BYTES - 1)) / RECORD_BYTES
}

// 1 where there are bytes, else 0.
fn begun_of(text: &[u8]) -> u32
    ensures { result ≡ begun text.now }
{
    u32::from(!text.is_empty())
}

impl Ring {
    ghost use Rattle.fx_journal.specs.Ring.{RingState, Queued, IsRing, KeepsBuffers, KeepsRest, KeepsRing, Promises, Cancels, AppendCounts, HoldsQueue, Appended, blocks_out, want, live, begun, number, next_place, next_start, closes, unfinished, padded, padding, next_block, without_before, freed_queued};
    ghost use Rattle.fx_journal.specs.Writing.{WritesFirst, wrote, counts};

    /// The ring of `ring` blocks whose stream begins at `start` and goes on at `next`, which is the
    /// place `closed` blocks later. No block is queued, and nothing is promised. New blocks have
    /// this epoch. Takes all the memory that the ring will need.
    pub fn at(
        alloc: Global,
        start: Start,
        ring: u32,
        closed: u32,
        next: Start,
        epoch: u64,
    ) -> Result<Ring, AllocError>
        requires least { MIN_RING ≤ ring }
        requires most { ring ≤ MAX_RING }
        requires fits { closed ≤ ring }
        requires low { start.sequence < 2 ^ 62 }
        requires next { next.sequence ≡ start.sequence + closed }
        requires epoch { 1 ≤ epoch }
        ensures ring { IfOk result IsRing }
        ensures state { IfOk result (λ r. r ≡ record {
          start = start;
          size = ring;
          epoch = epoch;
          closed = closed;
          chain = next.chain;
          text = [];
          promised = 0;
          queued = 0;
          buffers = [];
        }) }
    {
        Ok(Ring {
            start,
            size: ring,
            epoch,
            closed,
            chain: next.chain,
            text: Vec::with_capacity(alloc, RECORD_BYTES)?,
            promised: 0,
            queued: 0,
            buffers: VecDeque::with_capacity(alloc, ring as usize)?,
        })
    }

    /// The blocks that are promised and not used yet.
    pub fn promised(&self) -> u32
        ensures { result ≡ self.now.promised }
    {
        self.promised
    }

    /// The blocks from the start through the unfinished one, plus one where that holds bytes.
    pub fn live(&self) -> u32
        ensures { result ≡ live self.now }
    {
        self.closed + 1 + begun_of(&self.text)
    }

    /// Promises the blocks that so many record bytes want, and takes them out of the pool. The pool
    /// has them. Takes no memory; costs the blocks.
    pub fn reserve(&mut self, pool: &mut Pool, bytes: u32) -> Result<(), Full>
        requires buffers { KeepsBuffers self.old.buffers pool.old }
        requires blocks { blocks_out pool.old + want bytes ≤ 2 ^ pool.old.order }
        ensures full { IsErr result
            ↔ (self.old.size < live self.old + self.old.promised + want bytes + 1) }
        ensures counts { IfErr result (λ full. full ≡ counts self.old bytes) }
        ensures refused { OnErr result ((self.new ≡ self.old) × (pool.new ≡ pool.old)) }
        ensures promised { OnOk result
            (Promises self.old self.new pool.old pool.new (want bytes)) }
        ensures queue { (queue : List Queued) → HoldsQueue self.old pool.old queue
            → HoldsQueue self.new pool.new queue }
        ensures kept { KeepsRing self.old self.new pool.old pool.new }
    {
        let want = want_of(bytes as usize) as u32;
        let live = self.live();
        if self.size < live + self.promised + want + 1 {
            return Err(Full {
                live,
                promised: self.promised,
                want,
            });
        }
        take_blocks(pool, &mut self.buffers, want);
        self.promised += want;
        Ok(())
    }

    /// Gives the blocks that so many record bytes want back, of those that are promised. Takes no
    /// memory; costs the blocks.
    pub fn cancel(&mut self, pool: &mut Pool, bytes: u32)
        requires promised { want bytes ≤ self.old.promised }
        requires buffers { KeepsBuffers self.old.buffers pool.old }
        ensures cancelled { Cancels self.old self.new pool.old pool.new (want bytes) }
        ensures queue { (queue : List Queued) → HoldsQueue self.old pool.old queue
            → HoldsQueue self.new pool.new queue }
        ensures kept { KeepsRing self.old self.new pool.old pool.new }
    {
        let want = want_of(bytes as usize) as u32;
        self.give_promised(pool, want);
    }

    // Gives so many promised blocks back.
    fn give_promised(&mut self, pool: &mut Pool, count: u32)
        requires promised { count ≤ self.old.promised }
        requires buffers { KeepsBuffers self.old.buffers pool.old }
        ensures cancelled { Cancels self.old self.new pool.old pool.new count }
        ensures queue { (queue : List Queued) → HoldsQueue self.old pool.old queue
            → HoldsQueue self.new pool.new queue }
        ensures kept { KeepsRing self.old self.new pool.old pool.new }
    {
        give_last(pool, &mut self.buffers, count);
        self.promised -= count;
    }

    /// Appends a record's bytes, and takes the blocks that they want from those that are promised.
    /// A block that is full is closed and queued. A promised block that the bytes do not need,
    /// since the unfinished block had room, goes back to the pool. Takes no memory; costs the
    /// bytes.
    pub fn append(&mut self, pool: &mut Pool, rec: &[u8])
        requires promised { want (length rec.now) ≤ self.old.promised }
        requires buffers { KeepsBuffers self.old.buffers pool.old }
        ensures queue { (queue : List Queued) → HoldsQueue self.old pool.old queue
            → Appended self.old self.new pool.new queue rec.now }
        ensures counts { AppendCounts self.old self.new pool.old pool.new (length rec.now) }
        ensures kept { KeepsRing self.old self.new pool.old pool.new }
    {
        let left = self.promised - want_of(rec.len()) as u32;
        let mut rest = rec;
        while let Some((piece, later)) = rest.split_at_checked(RECORD_BYTES - self.text.len()) {
            self.close_with(pool, piece);
            rest = later;
        }
        self.begin_with(rest);
        let unused = self.promised - left;
        self.give_promised(pool, unused);
    }

    // Closes the unfinished block with these further bytes.
    fn close_with(&mut self, pool: &mut Pool, piece: &[u8])
        requires some { 1 ≤ length self.old.text + length piece.now }
        requires room { length self.old.text + length piece.now ≤ RECORD_BYTES }
        requires promised { 1 ≤ begun self.old.text + self.old.promised }
        requires buffers { KeepsBuffers self.old.buffers pool.old }
        ensures closed { self.new ≡ closes self.old piece.now }
        ensures out { pool.new.out ≡ pool.old.out }
        ensures queue { (queue : List Queued) → HoldsQueue self.old pool.old queue
            → HoldsQueue self.new pool.new (queue ++ unfinished self.old piece.now ∷ []) }
        ensures kept { KeepsRing self.old self.new pool.old pool.new }
    {
        let sequence = self.next_sequence();
        self.promised = self.promised + begun_of(&self.text) - 1;
        let Ok(()) = self.text.extend_from_slice(piece) else {
            unreachable!();
        };
        let Some(buffer) = self.buffers.get(self.queued as usize) else {
            unreachable!();
        };
        self.chain = pack_into(pool, buffer, sequence, self.epoch, self.chain, &self.text);
        self.text.clear();
        self.closed += 1;
        self.queued += 1;
    }

    // Adds bytes to the unfinished block, fewer than it has room for.
    fn begin_with(&mut self, piece: &[u8])
        requires room { length self.old.text + length piece.now < RECORD_BYTES }
        requires promised { begun piece.now ≤ begun self.old.text + self.old.promised }
        ensures begun { self.new ≡ record self.old {
          text = self.old.text ++ piece.now;
          promised = self.old.promised + begun self.old.text - begun (self.old.text ++ piece.now);
        } }
        ensures ring { IsRing self.new }
    {
        let before = self.promised + begun_of(&self.text);
        let Ok(()) = self.text.extend_from_slice(piece) else {
            unreachable!();
        };
        self.promised = before - begun_of(&self.text);
    }

    // The sequence number of the unfinished block.
    fn next_sequence(&self) -> u64
        ensures { result ≡ number (next_place self.now) }
    {
        self.start.sequence.saturating_add(u64::from(self.closed))
    }

    /// Closes the unfinished block with zeros, if it holds bytes, and answers the place after it,
    /// with the ring's epoch as floor. Takes no memory; costs one block.
    pub fn pad(&mut self, pool: &mut Pool) -> Start
        requires buffers { KeepsBuffers self.old.buffers pool.old }
        ensures padded { self.new ≡ padded self.old }
        ensures live { live self.new ≡ live self.old }
        ensures place { result ≡ next_start self.new }
        ensures queue { (queue : List Queued) → HoldsQueue self.old pool.old queue
            → HoldsQueue self.new pool.new (queue ++ padding self.old) }
        ensures out { pool.new.out ≡ pool.old.out }
        ensures kept { KeepsRing self.old self.new pool.old pool.new }
    {
        if !self.text.is_empty() {
            self.close_with(pool, &[]);
        }
        Start {
            sequence: self.next_sequence(),
            chain: self.chain,
            floor: self.epoch,
        }
    }

    // The sequence number of the first block that is not written, if it lies below the bound.
    fn next_to_write(&self, before: u64) -> Option<u64>
        ensures { result ≡ next_block self.now before }
    {
        let first = self.closed - self.queued;
        let sequence = self.start.sequence.saturating_add(u64::from(first));
        if self.queued > 0 && sequence < before {
            return Some(sequence);
        }
        None
    }

    /// Writes the first closed block that is not written yet, if its sequence number lies below
    /// `before`, to its place on the disk, and gives its buffer back. After a fault the block stays
    /// queued. One write where there is such a block, else none. Takes no memory; costs one block.
    pub fn write_next<D: Disk>(
        &mut self,
        pool: &mut Pool,
        disk: &mut D,
        before: u64,
    ) -> Result<Wrote, DiskFailed>
        requires disk { self.old.size + RING_AT ≤ (D.seen disk.old).size }
        requires buffers { KeepsBuffers self.old.buffers pool.old }
        ensures answer { IfOk result (λ w. w ≡ wrote (next_block self.old before)) }
        ensures nothing { next_block self.old before ≡ None → (result ≡ Ok (wrote None))
            × (self.new ≡ self.old) × (pool.new ≡ pool.old) × (disk.new ≡ disk.old) }

        // Where there is such a block, its bytes are written to its place by one call.
        ensures first { (sequence : ℕ) → next_block self.old before ≡ Some sequence
            → WritesFirst self.old self.new pool.old pool.new
            (D.seen disk.old) (D.seen disk.new) sequence result }

        // A fault is the disk's, and leaves all else as it was.
        ensures fault { OnErr result ((self.new ≡ self.old) × (pool.new ≡ pool.old)) }
        ensures given { blocks_out pool.new + length self.old.buffers
            ≡ blocks_out pool.old + length self.new.buffers }
        ensures kept { KeepsRing self.old self.new pool.old pool.new }
        ensures disk { HasCalled (D.seen disk.old) (D.seen disk.new) (is_ok result) }
        ensures reads { (D.seen disk.new).reads ≡ (D.seen disk.old).reads }
    {
        let Some(sequence) = self.next_to_write(before) else {
            return Ok(Wrote::Nothing);
        };
        let at = block_number(self.size, sequence);
        let Some(buffer) = self.buffers.front() else {
            unreachable!();
        };
        if let Err(fault) = write_buffer(pool, buffer, disk, at) {
            return Err(fault);
        }
        give_first(pool, &mut self.buffers, 1);
        self.queued -= 1;
        Ok(Wrote::Block(sequence))
    }

    /// Frees the blocks before `sequence`: they leave the ring and the queue, and their places may
    /// be used again. The start's sequence is then `sequence`; its chain and floor stay. Takes no
    /// memory; costs the blocks of the queue that leave.
    pub fn free_before(&mut self, pool: &mut Pool, sequence: u64)
        requires low { self.old.start.sequence ≤ sequence }
        requires high { sequence ≤ number (next_place self.old) }
        requires buffers { KeepsBuffers self.old.buffers pool.old }
        ensures freed { self.new ≡ without_before self.old sequence }
        ensures given { blocks_out pool.new + freed_queued self.old sequence ≡ blocks_out pool.old }
        ensures queue { (queue : List Queued) → HoldsQueue self.old pool.old queue
            → HoldsQueue self.new pool.new (drop (freed_queued self.old sequence) queue) }
        ensures kept { KeepsRing self.old self.new pool.old pool.new }
    {
        let freed = (sequence - self.start.sequence) as u32;
        self.start.sequence = sequence;
        self.closed -= freed;
        let leaving = self.queued.saturating_sub(self.closed);
        give_first(pool, &mut self.buffers, leaving);
        self.queued -= leaving;
    }

    /// Gives all buffers back to the pool. Costs their number.
    pub fn close(self, pool: &mut Pool)
        requires buffers { KeepsBuffers self.buffers pool.old }
        ensures given { blocks_out pool.new + length self.buffers ≡ blocks_out pool.old }
        ensures sound { IsSound pool.new }
        ensures others { KeepsRest self.buffers pool.old pool.new }
    {
        let Ring {
            start: _,
            size: _,
            epoch: _,
            closed: _,
            chain: _,
            text: _,
            promised: _,
            queued: _,
            mut buffers,
        } = self;
        let count = buffers.len() as u32;
        give_first(pool, &mut buffers, count);
        buffers.into_vec().destroy_empty();
    }
}

#[cfg(test)]
mod tests;
