//! The program `fxfs IMAGE COMMAND ..`: the top call over a disk, standard input and standard
//! output.
#![tactic(auto)]

use fx_disk::Disk;
use fx_disks::{FileDisk, MemDisk};
use fx_io::{Sink, Source, StdSink, StdSource};
use fxfs::{ImageWord, MIN_RING, format_disk, fxfs_top, image_of, status};
use std::alloc::{AllocError, Global};
use std::fs::{File, OpenOptions};
use std::io::ErrorKind;
use std::process::ExitCode;
use std::rt::{Env, Files};
use std::{env, io, mem};
use thiserror::Error;

/// Why nothing was run.
#[derive(Clone, Copy, Debug, Error)]
enum Refusal {
    /// There is no fit image.
    #[error("image")]
    Image,
    /// There is no memory for the words, the disk or the streams.
    #[error("memory")]
    Memory,
}

impl Refusal {
    /// The status that the program ends with.
    fn status(self) -> u8 {
        match self {
            Refusal::Image => status::NO_IMAGE,
            Refusal::Memory => status::OUT_OF_MEMORY,
        }
    }
}

impl From<AllocError> for Refusal {
    fn from(_: AllocError) -> Refusal {
        Refusal::Memory
    }
}

/// The disk that the first word names.
#[derive(Drop)]
enum Opened {
    Memory(MemDisk),
    File(FileDisk),
}

/// A device that gives and takes nothing, open for reading.
fn nothing<R: Files<File = File>>(rt: &R) -> io::Result<File> {
    OpenOptions::new().read(true).open(rt, "/dev/null")
}

fn main(rt: HostRuntime) -> ExitCode {
    // Standard streams that are closed leave their numbers free, and a file that is opened takes
    // the least free one. So that the image is never written to as standard output, these are taken
    // first.
    let _held = (nothing(&rt), nothing(&rt), nothing(&rt));
    let words = match words_of(&rt) {
        Ok(words) => words,
        Err(refusal) => return refused(&rt, refusal),
    };
    let Some((image, command)) = words.as_slice().split_first() else {
        return refused(&rt, Refusal::Image);
    };
    let disk = match open(&rt, image.as_str()) {
        Ok(disk) => disk,
        Err(refusal) => return refused(&rt, refusal),
    };
    let (Ok(mut source), Ok(mut sink)) = (StdSource::on(&rt, rt.alloc()), StdSink::on(&rt)) else {
        return refused(&rt, Refusal::Memory);
    };
    let status = match disk {
        Opened::Memory(disk) => run(rt.alloc(), command, disk, &mut source, &mut sink),
        Opened::File(disk) => run(rt.alloc(), command, disk, &mut source, &mut sink),
    };
    ExitCode::from(status)
}

/// Does the command, and gives the status.
fn run<D: Disk + Drop, S: Source, K: Sink>(
    alloc: Global,
    words: &[String],
    disk: D,
    source: &mut S,
    sink: &mut K,
) -> u8 {
    let ended = fxfs_top(alloc, words, disk, source, sink);
    let status = ended.status;
    // The process ends here, and its memory with it.
    mem::forget(ended);
    status
}

/// The words behind the program's name. A word that is no text names no image.
fn words_of<R: Env + AllocGlobal>(rt: &R) -> Result<Vec<String>, Refusal> {
    match read_words(rt) {
        Ok(words) => Ok(words),
        Err(error) if error.kind() == ErrorKind::OutOfMemory => Err(Refusal::Memory),
        Err(_) => Err(Refusal::Image),
    }
}

fn read_words<R: Env + AllocGlobal>(rt: &R) -> io::Result<Vec<String>> {
    let mut words = Vec::new(rt.alloc());
    for word in env::args(rt)?.skip(1) {
        words.push(word)?;
    }
    Ok(words)
}

/// The disk that the word names.
fn open<R: Files<File = File> + AllocGlobal>(rt: &R, word: &str) -> Result<Opened, Refusal> {
    match image_of(word) {
        ImageWord::Memory(blocks) => Ok(Opened::Memory(formatted(rt.alloc(), blocks)?)),
        ImageWord::File => match FileDisk::on(rt, word) {
            Ok(disk) => Ok(Opened::File(disk)),
            Err(_) => Err(Refusal::Image),
        },
        ImageWord::Unfit => Err(Refusal::Image),
    }
}

/// A disk in memory that begins with what a format leaves, and has made no calls itself.
fn formatted(alloc: Global, blocks: u32) -> Result<MemDisk, AllocError> {
    let mut disk = MemDisk::new(alloc, blocks)?;
    if format_disk(&mut disk, MIN_RING).is_err() {
        return Err(AllocError);
    }
    let _blocks = disk.blocks();
    let Some(image) = disk.image_at(alloc, disk.calls(), &[])? else {
        return Err(AllocError);
    };
    Ok(MemDisk::from_image(alloc, image))
}

/// Tells on standard error why nothing was run, and gives the status, which stays where that fails.
fn refused(rt: &impl Eprint, refusal: Refusal) -> ExitCode {
    let _told = eprintln!(rt; "fxfs: {refusal}");
    ExitCode::from(refusal.status())
}
