ghost use Rattle.std.specs.Prelude.{◌≡◌, ◌≢◌, ◌*◌, ◌^◌, replicate};
ghost use Rattle.fx_pool.specs.Region.{Run, IsSound, IsOut, bytes_of};

use super::*;
use std::process::Abort;
use std::test::Fail;

fn is_send<T: Send>(_value: &T) {}

fn taken(rt: &impl Abort, pool: &mut Pool, order: u8) -> Buf
    ensures is_out { IsOut pool.new result }
    ensures apart { (run : Run) → IsOut pool.old run → run.start ≢ result.start }
    ensures still_out { (run : Run) → IsOut pool.old run → IsOut pool.new run }
    ensures sound { IsSound pool.new }
{
    match pool.take(order) {
        Some(buf) => buf,
        None => panic!(rt; "no buffer of order {order}"),
    }
}

// Whether the pool has no buffer of this order to give.
fn gives_none(pool: &mut Pool, order: u8) -> bool
    ensures still_out { (run : Run) → IsOut pool.old run → IsOut pool.new run }
    ensures sound { IsSound pool.new }
{
    match pool.take(order) {
        None => true,
        Some(buf) => {
            pool.give(buf);
            false
        }
    }
}

fn fill(pool: &mut Pool, buf: &Buf, byte: u8)
    requires out { IsOut pool.old buf.now }
    requires sound { IsSound pool.old }
    ensures still_out { (run : Run) → IsOut pool.old run → IsOut pool.new run }
    ensures filled { bytes_of pool.new buf.now ≡ replicate (BLOCK_BYTES * 2 ^ buf.now.order) byte }
    ensures others { (run : Run) → IsOut pool.old run → run.start ≢ buf.now.start
        → bytes_of pool.new run ≡ bytes_of pool.old run }
    ensures sound { IsSound pool.new }
{
    pool.bytes_mut(buf).fill(byte);
}

// Whether each byte of the buffer is this one.
fn holds(pool: &Pool, buf: &Buf, byte: u8) -> bool
    requires { IsOut pool.now buf.now }
{
    pool.bytes(buf).iter().all(|held| *held == byte)
}

#[test]
fn halves_and_merges(rt: HostRuntime) -> Result<(), Fail> {
    let mut pool = Pool::new(rt.alloc(), 3)?;
    let one = taken(&rt, &mut pool, 0);
    assert!(rt; gives_none(&mut pool, 3));
    let four = taken(&rt, &mut pool, 2);
    assert!(rt; gives_none(&mut pool, 2));
    pool.give(one);
    pool.give(four);
    let whole = taken(&rt, &mut pool, 3);
    is_send(&pool);
    is_send(&whole);
    pool.give(whole);
    Ok(())
}

#[test]
fn every_order_scrambled(rt: HostRuntime) -> Result<(), Fail> {
    let mut pool = Pool::new(rt.alloc(), 3)?;
    let zero = taken(&rt, &mut pool, 0);
    let one = taken(&rt, &mut pool, 1);
    let two = taken(&rt, &mut pool, 2);
    let last = taken(&rt, &mut pool, 0);
    assert!(rt; gives_none(&mut pool, 0));
    fill(&mut pool, &one, 1);
    fill(&mut pool, &last, 2);
    assert!(rt; holds(&pool, &one, 1));
    assert!(rt; holds(&pool, &zero, 0));
    assert!(rt; holds(&pool, &two, 0));
    assert!(rt; holds(&pool, &last, 2));
    assert_eq!(rt; pool.bytes(&two).len(), 4 * BLOCK_BYTES);
    pool.give(one);
    pool.give(last);
    assert_eq!(rt; pool.free_of(0), 1);
    assert_eq!(rt; pool.free_of(1), 1);
    pool.give(two);
    pool.give(zero);
    for order in 0..3 {
        assert_eq!(rt; pool.free_of(order), 0);
    }
    assert_eq!(rt; pool.free_of(3), 1);
    Ok(())
}

#[test]
fn smallest_and_greatest(rt: HostRuntime) -> Result<(), Fail> {
    let mut small = Pool::new(rt.alloc(), 0)?;
    let block = taken(&rt, &mut small, 0);
    assert!(rt; gives_none(&mut small, 0));
    small.give(block);
    assert_eq!(rt; small.free_of(0), 1);
    let mut great = Pool::new(rt.alloc(), MAX_ORDER)?;
    assert_eq!(rt; great.free_of(MAX_ORDER), 1);
    let region = taken(&rt, &mut great, MAX_ORDER);
    assert_eq!(rt; great.bytes(&region).len(), 4096 * BLOCK_BYTES);
    assert_eq!(rt; great.free_of(MAX_ORDER), 0);
    great.give(region);
    assert_eq!(rt; great.free_of(MAX_ORDER), 1);
    Ok(())
}
