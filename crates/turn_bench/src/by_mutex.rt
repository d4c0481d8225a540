// Counting under a mutex.
ghost use Rattle.std.specs.Prelude.{◌<◌};
ghost use denote.Param.Send.{IsSync};

use std::sync::{Mutex, Wait};
use std::thread;
use std::thread::Threads;

fn count_alone<R: Wait>(rt: &R, counter: &Mutex<u64>, turns: u32) {
    for _ in 0..turns {
        let mut count = counter.lock(rt);
        *count = count.wrapping_add(1);
    }
}

fn count_in_threads<R: Threads + Wait + Sync>(
    rt: &R,
    counter: &Mutex<u64>,
    threads: u32,
    turns: u32,
)
    requires { 0 < threads }
{
    let rest = threads - 1;
    if rest == 0 {
        return count_alone(rt, counter, turns);
    }
    thread::join(
        rt,
        || count_alone(rt, counter, turns),
        ||
            requires { IsSync R.row × (0 < rest) }
        { count_in_threads(rt, counter, rest, turns) },
    );
}

/// What the threads came to.
pub fn count<R: Threads + Wait + Sync>(rt: &R, threads: u32, turns: u32) -> u64
    requires { 0 < threads }
{
    let counter = Mutex::new(0);
    count_in_threads(rt, &counter, threads, turns);
    counter.into_inner()
}
