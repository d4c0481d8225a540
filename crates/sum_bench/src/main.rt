//! The checksum of blocks beside a copy of the same blocks: `sum_bench 4096 5 times` sums and copies
//! 4,096 blocks in five rounds, each block once a round, and prints the checksum and the nanoseconds of
//! both. Without `times` it prints the checksum alone. `bench/sum.py` makes rates of them.
#![tactic(auto)]

use anyhow::{Context, Result};
use fx_sum::fletch;
use std::env;
use std::rt::Runtime;
use std::time::Instant;

const BLOCK: usize = 4096;

/// The checksum of all blocks, each begun at the one before it.
fn sum_all(bytes: &[u8]) -> u64 {
    let mut sum = 0;
    for block in bytes.chunks_exact(BLOCK) {
        sum = fletch(sum, block);
    }
    sum
}

/// Copies the blocks one by one.
fn copy_all(from: &[u8], into: &mut [u8]) {
    for (block, place) in from.chunks_exact(BLOCK).zip(into.chunks_exact_mut(BLOCK)) {
        place.copy_from_slice(block);
    }
}

/// One round, and its line: the checksum of the copy too, so that both are wanted.
fn round<R: Runtime>(rt: &R, from: &[u8], into: &mut [u8], tells_times: bool) -> Result<()> {
    let start = Instant::now(rt)?;
    let sum = sum_all(from);
    let summing = start.elapsed(rt)?.as_nanos();
    let start = Instant::now(rt)?;
    copy_all(from, into);
    let copying = start.elapsed(rt)?.as_nanos();
    let copied = sum_all(into);
    if tells_times {
        println!(rt; "{sum} {copied} {summing} {copying}")?;
    } else {
        println!(rt; "{sum} {copied}")?;
    }
    Ok(())
}

fn main(rt: HostRuntime) -> Result<()> {
    let mut args = env::args(&rt)?.skip(1);
    let blocks = args.next().context("a number of blocks is missing")?;
    let rounds = args.next().context("a number of rounds is missing")?;
    let tells_times = args.next().is_some();
    let blocks = blocks.as_str().parse::<u16>().context("blocks")?;
    let rounds = rounds.as_str().parse::<u16>().context("rounds")?;
    let size = usize::from(blocks) * BLOCK;
    let from = vec![in rt.alloc(); 0x5a; size]?;
    let mut into = vec![in rt.alloc(); 0; size]?;
    for _ in 0..rounds {
        round(&rt, &from, &mut into, tells_times)?;
    }
    Ok(())
}
