//! A journal's ring that becomes full.
use crate::runs::{Run, expect, expect_behind, told_fresh};
use std::alloc::{AllocError, Global};
use std::process::Abort;

/// How many blocks a fresh ring of 256 takes.
const TAKEN: u64 = 254;

/// What is done where the ring is full, on the disk that filled it and after a mount.
const LINES: &str =
    "create /v/g\nmkdir /v\nstat /v\nwrite /v/f1 0 x\nread /v/f1 0 9\nsync\nmkdir /w\n";

/// A directory and files, each with a sync behind it, which fill the ring, and then the lines.
fn filling_script(alloc: Global) -> Result<String, AllocError> {
    let mut script = String::from_str(alloc, "mkdir /v\nsync\n")?;
    for number in 1..TAKEN {
        write!(script, "create /v/f{number}\nsync\n")?;
    }
    script.push_str(LINES)?;
    Ok(script)
}

/// What is told of the lines that fill the ring, each sync of which makes two calls of the disk,
/// and then this.
fn filling_told(alloc: Global, behind: &str) -> Result<String, AllocError> {
    let mut told = String::from_str(alloc, "0 512 ")?;
    for number in 1..=TAKEN {
        let line = 2 * number;
        let before = line - 1;
        let calls = line + 2;
        write!(
            told,
            "1 {before} ok {number}~1 {line} synced {number} {calls}~"
        )?;
    }
    told.push_str(behind)?;
    Ok(told)
}

/// What is told of the lines behind those that fill the ring, and after a mount.
const BEHIND: &str =
    "1 509 err 254 0 full~1 510 err 254 1 exists~1 511 stat 254 dir 253 0~1 512 err 254 0 full~1 513 read 254 0~1 514 synced 254 511~1 515 err 254 0 full~";

const AGAIN: &str =
    "0 4 1 1 err 254 0 full~1 2 err 254 1 exists~1 3 stat 254 dir 253 0~1 4 err 254 0 full~1 5 read 254 0~1 6 synced 254 3~1 7 err 254 0 full~";

/// Fills the ring, and then does the lines.
fn filled(alloc: Global) -> Result<Run, AllocError> {
    let script = filling_script(alloc)?;
    told_fresh(alloc, script.as_bytes())
}

/// Asserts what is told of a run that fills the ring.
fn expect_filled(rt: &(impl Abort + AllocGlobal), run: &Run) -> Result<(), AllocError> {
    let wanted = filling_told(rt.alloc(), BEHIND)?;
    expect(rt, run, wanted.as_str())
}

#[test]
fn a_full_ring_takes_no_commits(rt: HostRuntime) -> Result<(), AllocError> {
    let run = filled(rt.alloc())?;
    expect_filled(&rt, &run)?;
    expect_behind(&rt, &run, LINES.as_bytes(), AGAIN)?;
    Ok(())
}
