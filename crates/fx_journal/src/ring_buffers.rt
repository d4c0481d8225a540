//! The buffers of the ring: one block each, in one queue.
ghost use Rattle.std.specs.Prelude.{is_ok, ◌≡◌, ◌+◌, ◌-◌, ◌^◌, ◌<◌, ◌≤◌, length, take, drop};
ghost use Rattle.std.specs.VecDeque.{deque_len, deque_capacity};
ghost use Rattle.fx_sum.specs.Checksum.{fletch};
ghost use Rattle.fx_disk.specs.Seen.{HasWritten};
ghost use Rattle.fx_jblock.specs.Block.{body, Holds};
ghost use Rattle.fx_pool.specs.Region.{IsOut, IsSound, bytes_of};
ghost use Rattle.fx_journal.specs.Ring.{KeepsBuffers, blocks_out};
ghost use Rattle.fx_journal.specs.Buffers.{TookBuffers, GaveBuffers, WroteBuffer};

use fx_base::BLOCK_BYTES;
use fx_disk::{Disk, DiskFailed};
use fx_jblock::{RECORD_BYTES, pack};
use fx_pool::{Buf, Pool, laws};
use std::collections::VecDeque;

/// Takes so many blocks out of the pool.
pub(crate) fn take_blocks(pool: &mut Pool, buffers: &mut VecDeque<Buf>, count: u32)
    requires buffers { KeepsBuffers buffers.old.items pool.old }
    requires room { deque_len buffers.old + count ≤ deque_capacity buffers.old }
    requires blocks { blocks_out pool.old + count ≤ 2 ^ pool.old.order }
    ensures took { TookBuffers buffers.old.items buffers.new.items pool.old pool.new count }
    ensures capacity { deque_capacity buffers.old ≤ deque_capacity buffers.new }
{
    for _ in 0..count {
        take_block(pool, buffers);
    }
}

fn take_block(pool: &mut Pool, buffers: &mut VecDeque<Buf>)
    requires buffers { KeepsBuffers buffers.old.items pool.old }
    requires room { deque_len buffers.old < deque_capacity buffers.old }
    requires blocks { blocks_out pool.old < 2 ^ pool.old.order }
    ensures took { TookBuffers buffers.old.items buffers.new.items pool.old pool.new 1 }
    ensures capacity { deque_capacity buffers.old ≤ deque_capacity buffers.new }
{
    let Some(buffer) = pool.take(0) else {
        unreachable!();
    };
    match buffers.push_back(buffer) {
        Ok(()) => {}
        Err(_refused) => unreachable!(),
    }
}

/// Gives the first buffers back.
pub(crate) fn give_first(pool: &mut Pool, buffers: &mut VecDeque<Buf>, count: u32)
    requires buffers { KeepsBuffers buffers.old.items pool.old }
    requires enough { count ≤ length buffers.old.items }
    ensures gave { GaveBuffers buffers.old.items buffers.new.items pool.old pool.new count }
    ensures left { buffers.new.items ≡ drop count buffers.old.items }
    ensures capacity { deque_capacity buffers.new ≡ deque_capacity buffers.old }
{
    for _ in 0..count {
        give_front(pool, buffers);
    }
}

fn give_front(pool: &mut Pool, buffers: &mut VecDeque<Buf>)
    requires buffers { KeepsBuffers buffers.old.items pool.old }
    requires enough { 0 < length buffers.old.items }
    ensures gave { GaveBuffers buffers.old.items buffers.new.items pool.old pool.new 1 }
    ensures left { buffers.new.items ≡ drop 1 buffers.old.items }
    ensures capacity { deque_capacity buffers.new ≡ deque_capacity buffers.old }
{
    let Some(buffer) = buffers.pop_front() else {
        unreachable!();
    };
    pool.give(buffer);
}

/// Gives the last buffers back.
pub(crate) fn give_last(pool: &mut Pool, buffers: &mut VecDeque<Buf>, count: u32)
    requires buffers { KeepsBuffers buffers.old.items pool.old }
    requires enough { count ≤ length buffers.old.items }
    ensures gave { GaveBuffers buffers.old.items buffers.new.items pool.old pool.new count }
    ensures left { buffers.new.items ≡ take (length buffers.old.items - count) buffers.old.items }
    ensures capacity { deque_capacity buffers.new ≡ deque_capacity buffers.old }
{
    for _ in 0..count {
        give_back(pool, buffers);
    }
}

fn give_back(pool: &mut Pool, buffers: &mut VecDeque<Buf>)
    requires buffers { KeepsBuffers buffers.old.items pool.old }
    requires enough { 0 < length buffers.old.items }
    ensures gave { GaveBuffers buffers.old.items buffers.new.items pool.old pool.new 1 }
    ensures left { buffers.new.items ≡ take (length buffers.old.items - 1) buffers.old.items }
    ensures capacity { deque_capacity buffers.new ≡ deque_capacity buffers.old }
{
    let Some(buffer) = buffers.pop_back() else {
        unreachable!();
    };
    pool.give(buffer);
}

/// Packs a block into a buffer, and answers the chain after it.
pub(crate) fn pack_into(
    pool: &mut Pool,
    buffer: &Buf,
    sequence: u64,
    epoch: u64,
    chain: u64,
    text: &[u8],
) -> u64
    requires sound { IsSound pool.old }
    requires out { IsOut pool.old buffer.now }
    requires single { buffer.now.order ≡ 0 }
    requires filled { 1 ≤ length text.now }
    requires room { length text.now ≤ RECORD_BYTES }
    requires begun { 1 ≤ epoch }
    ensures chain { result ≡ fletch chain (body sequence epoch text.now) }
    ensures holds { Holds (bytes_of pool.new buffer.now) sequence epoch chain text.now }
    ensures wrote { WroteBuffer buffer.now pool.old pool.new }
{
    laws::written_buffers();
    let Some(block) = pool.bytes_mut(buffer).as_mut_array::<BLOCK_BYTES>() else {
        unreachable!();
    };
    pack(sequence, epoch, chain, text, block)
}

/// Writes a buffer of one block to the disk.
pub(crate) fn write_buffer<D: Disk>(
    pool: &Pool,
    buffer: &Buf,
    disk: &mut D,
    at: u32,
) -> Result<(), DiskFailed>
    requires out { IsOut pool.now buffer.now }
    requires single { buffer.now.order ≡ 0 }
    requires within { at < (D.seen disk.old).size }
    ensures written { HasWritten (D.seen disk.old) (D.seen disk.new)
        at (bytes_of pool.now buffer.now) (is_ok result) }
{
    let Some(block) = pool.bytes(buffer).as_array::<BLOCK_BYTES>() else {
        unreachable!();
    };
    disk.write(at, block)
}
