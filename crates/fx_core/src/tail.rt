//! The ring of a mounted disk in memory, its promises, and which commits lie in written blocks.
ghost use Rattle.std.specs.Prelude.{◌≡◌, ◌++◌, ℕ, ◌+◌, ◌-◌, ◌<◌, ◌≤◌, ◌^◌, ◌↔◌, [], List, IsErr, IfOk, IfErr, OnOk, OnErr, Ok, get_or, is_ok, replicate, length, set, None, Some};
ghost use Rattle.fx_disk.specs.Seen.{HasCalled};
ghost use Rattle.fx_journal.specs.Ring.{Appended, Cancels, HoldsQueue, Promises, Queued, live, next_block, next_place, number, padded, padding, want};
ghost use Rattle.fx_journal.specs.Writing.{WritesFirst, counts, wrote};
ghost use Rattle.fx_supers.specs.InMemory.{IsContinued};
ghost use Rattle.fx_super.specs.declared.superblock.TheConstants.{RING_AT};
ghost use Rattle.fx_core.specs.Tail.{HasRingBuffers, IsTail, last_in, reach};

use fx_disk::{Disk, DiskFailed};
use fx_jblock::RECORD_BYTES;
use fx_journal::{Full, Ring, Wrote};
use fx_pool::Pool;
use std::alloc::Global;
use std::marker::Model;

/// A ring for which no tail was opened, since no memory was to be had.
pub(crate) struct NotOpened {
    pub(crate) ring: Ring,
    pub(crate) pool: Pool,
}

pub(crate) struct Tail {
    ring: Ring,
    pool: Pool,
    wants: Vec<u32>,
    reached: Vec<u64>,
    written: u32,
    done: u64,
}

impl Model for Tail {
    ghost use Rattle.fx_core.specs.Tail.{IsTail, TailState};

    ghost Value = { TailState };

    ghost view = { λ t. record {
      ring = t.ring;
      pool = t.pool;
      wants = t.wants.items;
      reached = t.reached.items;
      written = t.written;
      done = t.done;
    } };

    ghost invariant = { λ t. IsTail (record {
      ring = t.ring;
      pool = t.pool;
      wants = t.wants.items;
      reached = t.reached.items;
      written = t.written;
      done = t.done;
    }) };
}

impl Tail {
    /// The tail of a ring that was just opened: nothing waits, and nothing is promised. Takes eight bytes
    /// a block of the ring.
    pub(crate) fn open(
        alloc: Global,
        ring: Ring,
        pool: Pool,
        size: u32,
        kept: u64,
    ) -> Result<Tail, NotOpened>
        requires buffers { HasRingBuffers ring pool }
        requires size { size ≡ ring.size }
        requires promised { ring.promised ≡ 0 }
        requires queued { ring.queued ≡ 0 }
        requires text { ring.text ≡ [] }
        ensures opened { IfOk result (λ t. t ≡ record {
          ring = ring;
          pool = pool;
          wants = replicate 33 0;
          reached = replicate (size + 2) 0;
          written = ring.closed;
          done = kept;
        }) }
        ensures refused { IfErr result (λ no. no ≡ record { ring = ring; pool = pool }) }
    {
        let Ok(wants) = vec![in alloc; 0; 33] else {
            return Err(NotOpened { ring, pool });
        };
        let Ok(reached) = vec![in alloc; 0; size as usize + 2] else {
            return Err(NotOpened { ring, pool });
        };
        let written = ring.live() - 1;
        Ok(Tail {
            ring,
            pool,
            wants,
            reached,
            written,
            done: kept,
        })
    }

    /// Gives all buffers back. What waits is dropped.
    pub(crate) fn close(self) {
        let Tail {
            ring,
            mut pool,
            wants: _,
            reached: _,
            written: _,
            done: _,
        } = self;
        ring.close(&mut pool);
    }

    /// The last commit whose record lies in blocks that are written.
    pub(crate) fn done(&self) -> u64
        ensures done { result ≡ self.now.done }
        ensures tail { IsTail self.now }
    {
        self.done
    }

    /// Promises the number the blocks that so many record bytes want. `Full` exactly where the ring
    /// has no room for these; then nothing has changed. Takes no memory.
    pub(crate) fn reserve(&mut self, who: u32, bytes: u32) -> Result<(), Full>
        requires who { who ≤ 32 }
        requires none { get_or self.old.wants who 0 ≡ 0 }
        ensures full { IsErr result
            ↔ (self.old.ring.size < live self.old.ring + self.old.ring.promised + want bytes + 1) }
        ensures seat { who < length self.old.wants }
        ensures counts { IfErr result (λ full. full ≡ counts self.old.ring bytes) }
        ensures refused { OnErr result (self.new ≡ self.old) }
        ensures promised { OnOk result (Promises self.old.ring self.new.ring
            self.old.pool self.new.pool (want bytes)) }
        ensures wants { OnOk result (self.new ≡ record self.old {
          ring = self.new.ring;
          pool = self.new.pool;
          wants = set self.old.wants who (want bytes);
        }) }
        ensures queue { (queue : List Queued) → HoldsQueue self.old.ring self.old.pool queue
            → HoldsQueue self.new.ring self.new.pool queue }
    {
        let want = want_of(bytes);
        let live = self.ring.live();
        let promised = self.ring.promised();
        if self.reached.len() < (live + promised) as usize + want as usize + 3 {
            return Err(Full {
                live,
                promised,
                want,
            });
        }
        let Ok(()) = self.ring.reserve(&mut self.pool, bytes) else {
            unreachable!();
        };
        self.wants[who as usize] = want;
        Ok(())
    }

    /// Gives back what is promised to the number. Takes no memory.
    pub(crate) fn cancel(&mut self, who: u32)
        requires who { who ≤ 32 }
        ensures seat { who < length self.old.wants }
        ensures cancelled { Cancels self.old.ring self.new.ring self.old.pool self.new.pool
            (get_or self.old.wants who 0) }
        ensures wants { self.new ≡ record self.old {
          ring = self.new.ring;
          pool = self.new.pool;
          wants = set self.old.wants who 0;
        } }
        ensures queue { (queue : List Queued) → HoldsQueue self.old.ring self.old.pool queue
            → HoldsQueue self.new.ring self.new.pool queue }
    {
        let promised = self.wants[who as usize];
        self.ring
            .cancel(&mut self.pool, promised * RECORD_BYTES as u32);
        self.wants[who as usize] = 0;
    }

    /// Appends the record bytes of the commit with this number, and takes the blocks from those that
    /// are promised to the number, of which the others are given back. Takes no memory; costs the
    /// bytes.
    pub(crate) fn append(&mut self, who: u32, rec: &[u8], commit: u64)
        requires who { who ≤ 32 }
        requires some { 1 ≤ length rec.now }
        requires promised { want (length rec.now) ≤ get_or self.old.wants who 0 }
        ensures seat { who < length self.old.wants }
        ensures tails { IsTail self.old × IsTail self.new }
        ensures queue { (queue : List Queued) → HoldsQueue self.old.ring self.old.pool queue
            → Appended self.old.ring self.new.ring self.new.pool queue rec.now }
        ensures continued { IsContinued self.old.ring self.new.ring }
        ensures promised { self.new.ring.promised + get_or self.old.wants who 0
            ≡ self.old.ring.promised }
        ensures rest { self.new ≡ record self.old {
          ring = self.new.ring;
          pool = self.new.pool;
          wants = set self.old.wants who 0;
          reached = set self.old.reached (reach self.new.ring) commit;
        } }
    {
        let left = self.wants[who as usize] - want_of(rec.len() as u32);
        self.ring.append(&mut self.pool, rec);
        self.ring.cancel(&mut self.pool, left * RECORD_BYTES as u32);
        self.wants[who as usize] = 0;
        let end = self.ring.live() as usize - 1;
        self.reached[end] = commit;
    }

    /// Closes the unfinished block, if it holds bytes, and answers the sequence number after the last
    /// closed block. Takes no memory.
    pub(crate) fn pad(&mut self) -> u64
        ensures tails { IsTail self.old × IsTail self.new }
        ensures padded { self.new.ring ≡ padded self.old.ring }
        ensures queue { (queue : List Queued) → HoldsQueue self.old.ring self.old.pool queue
            → HoldsQueue self.new.ring self.new.pool (queue ++ padding self.old.ring) }
        ensures live { live self.new.ring ≡ live self.old.ring }
        ensures number { result ≡ number (next_place self.new.ring) }
        ensures rest { self.new ≡ record self.old { ring = self.new.ring; pool = self.new.pool } }
    {
        self.ring.pad(&mut self.pool).sequence
    }

    /// Writes the first block that waits and lies below the bound, by one call of the disk.
    pub(crate) fn write_next<D: Disk>(
        &mut self,
        disk: &mut D,
        before: u64,
    ) -> Result<Wrote, DiskFailed>
        requires disk { self.old.ring.size + RING_AT ≤ (D.seen disk.old).size }
        ensures tails { IsTail self.old × IsTail self.new }
        ensures answer { IfOk result (λ w. w ≡ wrote (next_block self.old.ring before)) }
        ensures nothing { next_block self.old.ring before ≡ None → (result ≡ Ok (wrote None))
            × (self.new ≡ self.old) × (disk.new ≡ disk.old) }
        ensures first { (sequence : ℕ) → next_block self.old.ring before ≡ Some sequence
            → WritesFirst self.old.ring self.new.ring self.old.pool self.new.pool
            (D.seen disk.old) (D.seen disk.new) sequence result }
        ensures fault { OnErr result (self.new ≡ self.old) }
        ensures written { (sequence : ℕ) → result ≡ Ok (wrote (Some sequence)) →
            self.new ≡ record self.old {
              ring = self.new.ring;
              pool = self.new.pool;
              written = self.old.written + 1;
              done = last_in self.old.reached (self.old.written + 1) self.old.done;
            } }
        ensures disk { HasCalled (D.seen disk.old) (D.seen disk.new) (is_ok result) }
        ensures reads { (D.seen disk.new).reads ≡ (D.seen disk.old).reads }
    {
        match self.ring.write_next(&mut self.pool, disk, before) {
            Err(fault) => return Err(fault),
            Ok(Wrote::Nothing) => return Ok(Wrote::Nothing),
            Ok(Wrote::Block(sequence)) => {
                self.written += 1;
                self.done = self.done.max(self.reached[self.written as usize]);
                return Ok(Wrote::Block(sequence));
            }
        }
    }
}

// How many blocks so many record bytes want.
fn want_of(bytes: u32) -> u32
    ensures { result ≡ want bytes }
{
    ((bytes as usize + (RECORD_BYTES - 1)) / RECORD_BYTES) as u32
}
