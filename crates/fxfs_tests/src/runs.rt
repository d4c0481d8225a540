//! Commands run on disks in memory, with both ends of the script in memory too. What these calls
//! promise is not said again here: a test looks at what it got.
use crate::images::{formatted, left_by};
use crate::rows::{halves, number_of, shown};
use fx_disk::Disk;
use fx_disks::MemDisk;
use fx_io::{MemSink, MemSource, Sink, Source};
use fxfs::{Ended, fxfs_top};
use std::alloc::{AllocError, Global};
use std::process::Abort;

/// How the call ended, and what the sink then has.
#[derive(Drop)]
pub(crate) struct Run {
    pub(crate) ended: Ended<MemDisk>,
    pub(crate) text: Vec<u8>,
}

/// The call of an end that fails, from 1; 0 is none.
#[derive(Clone, Copy)]
pub(crate) struct Fails {
    pub(crate) disk_call: u64,
    pub(crate) disk_read: u64,
    pub(crate) source: u64,
    pub(crate) sink: u64,
}

pub(crate) const NONE: Fails = Fails {
    disk_call: 0,
    disk_read: 0,
    source: 0,
    sink: 0,
};

/// The words of a text, which one space parts.
fn words_of(alloc: Global, text: &str) -> Result<Vec<String>, AllocError> {
    let mut words = Vec::new(alloc);
    for word in text.split(' ') {
        if !word.is_empty() {
            words.push(String::from_str(alloc, word)?)?;
        }
    }
    Ok(words)
}

/// Has these calls of the disk fail.
fn fail_disk(alloc: Global, disk: &mut MemDisk, fails: Fails) -> Result<(), AllocError> {
    disk.fail_calls([fails.disk_call].to_vec(alloc)?);
    disk.fail_reads([fails.disk_read].to_vec(alloc)?);
    Ok(())
}

/// A source of the script that gives at most `piece` bytes a call, and one at least.
fn source_of(
    alloc: Global,
    script: &[u8],
    piece: u32,
    fails: Fails,
) -> Result<MemSource, AllocError> {
    let text = script.to_vec(alloc)?;
    let fails = [fails.source].to_vec(alloc)?;
    Ok(MemSource::new(text, piece.max(1), fails))
}

/// A sink that takes at most `piece` bytes a call, and one at least.
fn sink_of(alloc: Global, piece: u32, fails: Fails) -> Result<MemSink, AllocError> {
    let fails = [fails.sink].to_vec(alloc)?;
    Ok(MemSink::new(alloc, piece.max(1), fails))
}

/// The top call.
fn end_of<D: Disk, S: Source, K: Sink>(
    alloc: Global,
    words: &[String],
    disk: D,
    source: &mut S,
    sink: &mut K,
) -> Ended<D> {
    fxfs_top(alloc, words, disk, source, sink)
}

/// Runs the words on the disk, from the source and to the sink.
fn run_of(
    alloc: Global,
    words: &[String],
    disk: MemDisk,
    mut source: MemSource,
    mut sink: MemSink,
) -> Result<Run, AllocError> {
    let ended = end_of(alloc, words, disk, &mut source, &mut sink);
    let text = sink.text().to_vec(alloc)?;
    Ok(Run { ended, text })
}

/// Runs the words, which one space parts, on the disk and over a script whose two ends move at most
/// `piece` bytes a call.
pub(crate) fn told(
    alloc: Global,
    mut disk: MemDisk,
    words: &str,
    script: &[u8],
    piece: u32,
    fails: Fails,
) -> Result<Run, AllocError> {
    let words = words_of(alloc, words)?;
    fail_disk(alloc, &mut disk, fails)?;
    let source = source_of(alloc, script, piece, fails)?;
    let sink = sink_of(alloc, piece, fails)?;
    run_of(alloc, words.as_slice(), disk, source, sink)
}

/// The script run by `shell` on the disk, with pieces of 4,096 bytes.
pub(crate) fn told_on(alloc: Global, disk: MemDisk, script: &[u8]) -> Result<Run, AllocError> {
    told(alloc, disk, "shell", script, 4096, NONE)
}

/// The script run by `shell` on a formatted disk.
pub(crate) fn told_fresh(alloc: Global, script: &[u8]) -> Result<Run, AllocError> {
    told_on(alloc, formatted(alloc)?, script)
}

/// The script run by `shell` on a formatted disk whose call with this number fails; 0 is none.
pub(crate) fn told_failing(
    alloc: Global,
    script: &[u8],
    disk_call: u64,
) -> Result<Run, AllocError> {
    let fails = Fails { disk_call, ..NONE };
    told(alloc, formatted(alloc)?, "shell", script, 4096, fails)
}

/// The script run by `shell` on the disk that the run leaves.
fn told_behind(alloc: Global, run: &Run, script: &[u8]) -> Result<Run, AllocError> {
    told_on(alloc, left_by(alloc, &run.ended.disk)?, script)
}

/// The status, the calls of the disk and the output, with a `~` in place of each line feed.
pub(crate) fn summary(alloc: Global, run: &Run) -> Result<String, AllocError> {
    let status = run.ended.status;
    let calls = run.ended.disk.calls();
    let text = shown(alloc, &run.text)?;
    format!(in alloc; "{status} {calls} {text}")
}

/// Asserts how a run ended: its status, the calls of its disk and its output, in which a `~` stands
/// for a line feed.
pub(crate) fn expect(
    rt: &(impl Abort + AllocGlobal),
    run: &Run,
    wanted: &str,
) -> Result<(), AllocError> {
    let told = summary(rt.alloc(), run)?;
    assert_eq!(rt; told.as_str(), wanted);
    Ok(())
}

/// The same, and gives the disk.
pub(crate) fn expect_disk(
    rt: &(impl Abort + AllocGlobal),
    run: Run,
    wanted: &str,
) -> Result<MemDisk, AllocError> {
    expect(rt, &run, wanted)?;
    Ok(run.ended.disk)
}

/// Asserts how the script ends on the disk that the run leaves.
pub(crate) fn expect_behind(
    rt: &(impl Abort + AllocGlobal),
    run: &Run,
    script: &[u8],
    wanted: &str,
) -> Result<(), AllocError> {
    let again = told_behind(rt.alloc(), run, script)?;
    expect(rt, &again, wanted)
}

/// What fails, by its name in a table: `call N` or `read N` of the disk, `source N`, `sink N`, or
/// nothing.
pub(crate) fn fails_of(name: &str) -> Fails {
    let (end, number) = halves(name, " ");
    let number = number_of(number);
    match end {
        "call" => Fails {
            disk_call: number,
            ..NONE
        },
        "read" => Fails {
            disk_read: number,
            ..NONE
        },
        "source" => Fails {
            source: number,
            ..NONE
        },
        _ => Fails {
            sink: number,
            ..NONE
        },
    }
}
