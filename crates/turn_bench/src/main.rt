//! Threads that count by turns, under a turn or under a mutex: `turn_bench turn 16 1000` has 16 threads
//! count to 1000 each, and prints what they came to. `bench/turn.py` takes the times.
#![tactic(auto)]

mod by_mutex;
mod by_turn;

use anyhow::{Context, Result, bail};
use std::env;

fn main(rt: HostRuntime) -> Result<()> {
    let mut args = env::args(&rt)?.skip(1);
    let lock = args.next().context("a lock is missing")?;
    let threads = args.next().context("a number of threads is missing")?;
    let turns = args.next().context("a number of turns is missing")?;
    let threads = threads.as_str().parse::<u32>().context("threads")?;
    let turns = turns.as_str().parse::<u32>().context("turns")?;
    if threads == 0 || threads > 64 {
        bail!("1 to 64 threads");
    }
    let count = match lock.as_str() {
        "turn" => by_turn::count(&rt, rt.alloc(), threads, turns)?,
        "mutex" => by_mutex::count(&rt, threads, turns),
        _ => bail!("no such lock"),
    };
    println!(rt; "{count}")?;
    Ok(())
}
