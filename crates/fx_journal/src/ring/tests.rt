ghost use Rattle.std.specs.Prelude.{◌≡◌, ◌+◌, ◌≤◌, ◌^◌, ◌<◌, IfOk};
ghost use Rattle.fx_pool.specs.Region.{whole, IsSound};
ghost use Rattle.fx_journal.specs.Ring.{want};
ghost use Rattle.fx_journal.specs.Ready.{HasPool};

use super::*;
use crate::fake::FakeDisk;
use fx_jblock::{Fit, fits};
use std::process::Abort;
use std::test::Fail;

fn at_start(
    alloc: Global,
    pool: &Pool,
    start: Start,
    closed: u32,
    next: Start,
) -> Result<Ring, AllocError>
    requires whole { pool.now ≡ whole 9 }
    requires sound { IsSound pool.now }
    requires fits { closed ≤ 256 }
    requires low { start.sequence < 2 ^ 62 }
    requires next { next.sequence ≡ start.sequence + closed }
    ensures { IfOk result (λ r. HasPool r pool.now) }
{
    let ring = Ring::at(alloc, start, 256, closed, next, 2)?;
    Ok(ring)
}

fn reserve(ring: &mut Ring, pool: &mut Pool, bytes: u32) -> Result<(), Full>
    requires ready { HasPool ring.old pool.old }
    requires few { bytes < 1040384 }
    ensures { HasPool ring.new pool.new }
{
    if let Err(full) = ring.reserve(pool, bytes) {
        return Err(full);
    }
    Ok(())
}

fn append(rt: &impl Abort, ring: &mut Ring, pool: &mut Pool, rec: &[u8])
    requires { HasPool ring.old pool.old }
    ensures { HasPool ring.new pool.new }
{
    assert!(rt; rec.len() <= RECORD_BYTES * ring.promised() as usize);
    ring.append(pool, rec);
}

fn cancel(rt: &impl Abort, ring: &mut Ring, pool: &mut Pool, bytes: u32)
    requires { HasPool ring.old pool.old }
    ensures { HasPool ring.new pool.new }
{
    assert!(rt; bytes as usize <= RECORD_BYTES * ring.promised() as usize);
    ring.cancel(pool, bytes);
}

fn pad(ring: &mut Ring, pool: &mut Pool) -> Start
    requires { HasPool ring.old pool.old }
    ensures { HasPool ring.new pool.new }
{
    ring.pad(pool)
}

fn write<D: Disk>(
    rt: &impl Abort,
    ring: &mut Ring,
    pool: &mut Pool,
    disk: &mut D,
    before: u64,
) -> Result<Wrote, DiskFailed>
    requires { HasPool ring.old pool.old }
    ensures { HasPool ring.new pool.new }
{
    assert!(rt; disk.blocks() >= 258);
    ring.write_next(pool, disk, before)
}

fn free_before(rt: &impl Abort, ring: &mut Ring, pool: &mut Pool, sequence: u64)
    requires { HasPool ring.old pool.old }
    ensures { HasPool ring.new pool.new }
{
    assert!(rt; ring.start.sequence <= sequence);
    assert!(rt; sequence <= ring.next_sequence());
    ring.free_before(pool, sequence);
}

fn read<D: Disk>(rt: &impl Abort, disk: &mut D, at: u32) -> [u8; 4096] {
    let mut block = [0xff; 4096];
    assert!(rt; at < disk.blocks());
    assert!(rt; disk.read(at, &mut block).is_ok());
    block
}

// The chain after the block, which has this sequence number, epoch 2 and so many record bytes.
fn chain_after(rt: &impl Abort, block: &[u8; 4096], sequence: u64, chain: u64, bytes: u16) -> u64 {
    match fits(block, sequence, 2, 2, chain) {
        Fit::Fits { chain, epoch, used } => {
            assert_eq!(rt; epoch, 2);
            assert_eq!(rt; used, bytes);
            chain
        }
        _ => panic!(rt; "block {sequence} does not fit"),
    }
}

/// A disk of 258 blocks of zeros, whose second write fails.
fn disk_with_a_fault(alloc: Global) -> Result<Option<FakeDisk>, AllocError> {
    let mut blocks = Vec::new(alloc);
    blocks.resize(258, [0; 4096])?;
    Ok(FakeDisk::of(blocks, 2, 0))
}

fn expect_reserved(rt: &impl Abort, ring: &mut Ring, pool: &mut Pool, bytes: u32)
    requires ready { HasPool ring.old pool.old }
    requires few { bytes < 1040384 }
    ensures { HasPool ring.new pool.new }
{
    assert!(rt; reserve(ring, pool, bytes).is_ok());
}

fn expect_full(rt: &impl Abort, ring: &mut Ring, pool: &mut Pool, bytes: u32, full: Full)
    requires ready { HasPool ring.old pool.old }
    requires few { bytes < 1040384 }
    ensures { HasPool ring.new pool.new }
{
    assert!(rt; reserve(ring, pool, bytes) == Err(full));
}

fn expect_write<D: Disk>(
    rt: &impl Abort,
    ring: &mut Ring,
    pool: &mut Pool,
    disk: &mut D,
    before: u64,
    wanted: Result<Wrote, DiskFailed>,
)
    requires { HasPool ring.old pool.old }
    ensures { HasPool ring.new pool.new }
{
    assert!(rt; write(rt, ring, pool, disk, before) == wanted);
}

// Appends 4,070 bytes in two records, pads, and writes the two blocks. The second write fails
// first.
fn write_two<D: Disk>(rt: &impl Abort, ring: &mut Ring, pool: &mut Pool, disk: &mut D) -> Start
    requires { HasPool ring.old pool.old }
    ensures { HasPool ring.new pool.new }
{
    expect_reserved(rt, ring, pool, 4070);
    expect_write(rt, ring, pool, disk, 256, Ok(Wrote::Nothing));
    append(rt, ring, pool, &[b'a'; 4060]);
    append(rt, ring, pool, b"0123456789");
    expect_write(rt, ring, pool, disk, 255, Ok(Wrote::Nothing));
    expect_write(rt, ring, pool, disk, 256, Ok(Wrote::Block(255)));
    expect_write(rt, ring, pool, disk, 257, Ok(Wrote::Nothing));
    let after = pad(ring, pool);
    expect_write(rt, ring, pool, disk, 257, Err(DiskFailed));
    expect_write(rt, ring, pool, disk, 257, Ok(Wrote::Block(256)));
    after
}

// The chain after the two blocks: 255 stands in the ring's last place, 256 in its first.
fn chain_after_two<D: Disk>(rt: &impl Abort, disk: &mut D) -> u64 {
    let last = read(rt, disk, 257);
    assert!(rt; last[24] == b'a' && last[4083] == b'a');
    assert!(rt; last[4084] == b'0' && last[4087] == b'3');
    let first = read(rt, disk, 2);
    assert!(rt; first[24] == b'4' && first[29] == b'9' && first[30] == 0);
    let chain = chain_after(rt, &last, 255, 9, 4064);
    chain_after(rt, &first, 256, chain, 6)
}

#[test]
fn goes_on_at_the_front(rt: HostRuntime) -> Result<(), Fail> {
    let mut disk = disk_with_a_fault(rt.alloc())?.ok_or("small")?;
    let mut pool = Pool::new(rt.alloc(), 9)?;
    let start = Start {
        sequence: 250,
        chain: 7,
        floor: 1,
    };
    let next = Start {
        sequence: 255,
        chain: 9,
        floor: 2,
    };
    let mut ring = at_start(rt.alloc(), &pool, start, 5, next)?;
    let after = write_two(&rt, &mut ring, &mut pool, &mut disk);
    assert!(rt; pad(&mut ring, &mut pool) == after);
    free_before(&rt, &mut ring, &mut pool, 257);
    ring.close(&mut pool);
    let wanted = Start {
        sequence: 257,
        chain: chain_after_two(&rt, &mut disk),
        floor: 2,
    };
    assert!(rt; after == wanted);
    assert_eq!(rt; disk.calls(), 3);
    assert_eq!(rt; pool.free_of(9), 1);
    Ok(())
}

fn counted(live: u32, promised: u32, want: u32) -> Full {
    Full {
        live,
        promised,
        want,
    }
}

// The ring of 256 blocks has 254 blocks to promise where none is closed.
fn fill(rt: &impl Abort, ring: &mut Ring, pool: &mut Pool, bytes: &[u8])
    requires { HasPool ring.old pool.old }
    ensures { HasPool ring.new pool.new }
{
    expect_full(rt, ring, pool, 1_032_257, counted(1, 0, 255));
    expect_reserved(rt, ring, pool, 1_032_256);
    expect_full(rt, ring, pool, 1, counted(1, 254, 1));
    cancel(rt, ring, pool, 4064);
    expect_reserved(rt, ring, pool, 1);
    append(rt, ring, pool, bytes);
    expect_full(rt, ring, pool, 1, counted(255, 0, 1));
}

#[test]
fn fills_to_the_last_block(rt: HostRuntime) -> Result<(), Fail> {
    let mut pool = Pool::new(rt.alloc(), 9)?;
    let bytes = vec![in rt.alloc(); 7; 1_032_256]?;
    let start = Start {
        sequence: 255,
        chain: 9,
        floor: 1,
    };
    let mut ring = at_start(rt.alloc(), &pool, start, 0, start)?;
    fill(&rt, &mut ring, &mut pool, &bytes);
    free_before(&rt, &mut ring, &mut pool, 256);
    expect_reserved(&rt, &mut ring, &mut pool, 1);
    append(&rt, &mut ring, &mut pool, b"x");
    let after = pad(&mut ring, &mut pool);
    assert_eq!(rt; after.sequence, 510);
    expect_full(&rt, &mut ring, &mut pool, 1, counted(255, 0, 1));
    ring.close(&mut pool);
    assert_eq!(rt; pool.free_of(9), 1);
    Ok(())
}
