//! The pool and its buffers.
ghost use Rattle.std.specs.Prelude.{◌≡◌, ◌+◌, ◌*◌, ◌^◌, ◌<◌, ◌≤◌, ◌≢◌, ◌↔◌, length, Some, None, IsNone, IfOk, IfSome, slice_set};
ghost use Rattle.std.specs.Borrow.{sem};
ghost use Rattle.fx_pool.specs.Region.{Run, IsSound, IsOut, HasFree, IsTaken, KeepsBytes, IsMultiple, IsBuddy, bytes_of, free_of, whole};

use crate::free::{FreeRun, FreeRuns};
use fx_base::BLOCK_BYTES;
use std::alloc::{AllocError, Global};
use std::marker::Model;
use std::ops::Range;

/// The greatest order of a region.
pub const MAX_ORDER: u8 = 12;

/// A buffer that was taken from a pool. It has no `Drop`: it is spent by [`Pool::give`].
pub struct Buf {
    start: u16,
    order: u8,
}

impl Model for Buf {
    ghost use Rattle.std.specs.Prelude.{◌^◌, ◌<◌, ◌≤◌};
    ghost use Rattle.fx_pool.specs.Region.{Run};
    ghost use Rattle.fx_pool.specs.declared.pool.TheConstants.{MAX_ORDER};

    ghost Value = { Run };

    ghost view = { λ b. record { start = b.start; order = b.order } };

    ghost invariant = { λ b. (b.start < 2 ^ MAX_ORDER) × (b.order ≤ MAX_ORDER) };
}

/// A region of blocks, each of which is free or in a buffer that is out.
#[derive(Drop)]
pub struct Pool {
    order: u8,
    free: FreeRuns,
    out: Vec<Option<u8>>,
    bytes: Vec<u8>,
}

impl Model for Pool {
    ghost use Rattle.fx_pool.specs.Region.{Region, IsPool};

    ghost Value = { Region };

    ghost view = { λ p. record {
      order = p.order;
      free = p.free;
      out = p.out.items;
      bytes = p.bytes.items;
    } };

    ghost invariant = { λ p. IsPool p.order p.free p.out.items p.bytes.items };
}

/// How many blocks a run of this order has.
fn blocks(order: u8) -> u16
    requires { order ≤ MAX_ORDER }
    ensures { result ≡ 2 ^ order }
{
    1 << order
}

/// Where the other half of the run of the next order begins.
fn buddy_of(start: u16, order: u8) -> u16
    requires start { start < 2 ^ MAX_ORDER }
    requires order { order ≤ MAX_ORDER }
    requires aligned { IsMultiple start (2 ^ order) }
    ensures { IsBuddy start result order }
{
    let len = blocks(order);
    if start % (2 * len) == 0 {
        start + len
    } else {
        start - len
    }
}

impl Buf {
    /// Where the bytes of the buffer begin and end in the region.
    fn range(&self) -> Range<usize>
        ensures start { result.start ≡ BLOCK_BYTES * self.now.start }
        ensures end { result.end ≡ BLOCK_BYTES * (self.now.start + 2 ^ self.now.order) }
    {
        let start = usize::from(self.start);
        let end = start + usize::from(blocks(self.order));
        BLOCK_BYTES * start..BLOCK_BYTES * end
    }
}

impl Pool {
    ghost use Rattle.fx_pool.specs.Lending.{LendsBuffer};

    /// A pool over `2^order` blocks of zeros, all of them free; `order` is at most [`MAX_ORDER`].
    /// Takes all the memory that the pool will need.
    pub fn new(alloc: Global, order: u8) -> Result<Pool, AllocError>
        requires { order ≤ MAX_ORDER }
        ensures whole { IfOk result (λ pool. pool ≡ whole order) }
        ensures sound { IfOk result IsSound }
    {
        let len = blocks(order);
        let mut free = FreeRuns::new(alloc, len)?;
        free.insert(FreeRun { start: 0, order });
        Ok(Pool {
            order,
            free,
            out: vec![in alloc; None; usize::from(len)]?,
            bytes: vec![in alloc; 0; BLOCK_BYTES * usize::from(len)]?,
        })
    }

    /// Takes a buffer of `2^order` blocks, which begins at a multiple of its length, out of a free
    /// run of the lowest order that serves; `None` exactly where no free run has that order or
    /// more. The bytes are as they were left. Takes no memory; costs the number of orders.
    pub fn take(&mut self, order: u8) -> Option<Buf>
        ensures none { IsNone result ↔ (HasFree self.old order → ⊥) }
        ensures unchanged { IsNone result → self.new ≡ self.old }
        ensures taken { IfSome result (IsTaken self.old self.new order) }
        ensures still_out { (run : Run) → IsOut self.old run → IsOut self.new run }
        ensures kept { KeepsBytes self.old self.new }
    {
        let FreeRun {
            start,
            order: found,
        } = self.free.lowest_from(order)?;
        self.free.remove(FreeRun {
            start,
            order: found,
        });
        let mut rest = found;
        while rest > order {
            rest -= 1;
            self.free.insert(FreeRun {
                start: start + blocks(rest),
                order: rest,
            });
        }
        self.out[usize::from(start)] = Some(order);
        Some(Buf { start, order })
    }

    /// Gives a buffer of this pool back, and merges it with its buddy for as long as that is free.
    /// Takes no memory; costs the number of orders.
    pub fn give(&mut self, buf: Buf)
        requires { IsOut self.old buf }
        ensures still_out { (run : Run) → run.start ≢ buf.start → IsOut self.old run
            → IsOut self.new run }
        ensures out { self.new.out ≡ slice_set self.old.out buf.start None }
        ensures kept { KeepsBytes self.old self.new }
    {
        let Buf { start, order } = buf;
        self.out[usize::from(start)] = None;
        let mut run = FreeRun { start, order };
        let mut buddy = buddy_of(start, order);
        while self.free.has(buddy, run.order) {
            self.free.remove(FreeRun {
                start: buddy,
                order: run.order,
            });
            run = FreeRun {
                start: run.start.min(buddy),
                order: run.order + 1,
            };
            buddy = buddy_of(run.start, run.order);
        }
        self.free.insert(run);
    }

    /// The bytes of a buffer of this pool.
    pub fn bytes(&self, buf: &Buf) -> &[u8]
        requires { IsOut self.now buf.now }
        ensures value { result.now ≡ bytes_of self.now buf.now }
        ensures len { length result.now ≡ BLOCK_BYTES * 2 ^ buf.now.order }
    {
        let Range { start, end } = buf.range();
        &self.bytes[start..end]
    }

    /// The bytes of a buffer of this pool, to be written. No other byte changes.
    pub fn bytes_mut(&mut self, buf: &Buf) -> &mut [u8]
        requires { IsOut self.old buf.now }
        ensures* writes_back { sem 𝓛 (LendsBuffer self.entry buf.now result) }
        ensures value { result.now ≡ bytes_of self.old buf.now }
        ensures len { length result.now ≡ BLOCK_BYTES * 2 ^ buf.now.order }
    {
        self.bytes.slice_mut(buf.range())
    }

    //// How many free runs have this order.
    pub fn free_of(&self, order: u8) -> u32
        ensures { result ≡ free_of self.now order }
    {
        self.free.count(order)
    }
}

#[cfg(test)]
mod tests;
