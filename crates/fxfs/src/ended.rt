//! How a command ended.
ghost use Rattle.std.specs.Prelude.{◌≡◌};
ghost use Rattle.fxfs.specs.Outside.{IsIdle, ended};
ghost use Rattle.fxfs.specs.Stop.{status_of};

use crate::status;
use fx_history::{History, Outcomes};
use fx_mount::MountFault;
use fx_script::LineFault;
use std::alloc::Global;

/// Why a command ended.
#[derive(Clone, Copy, Debug, PartialEq, Eq)]
pub enum Stop {
    /// All is done.
    Done,
    /// The words are no command.
    BadWords,
    /// The disk was not mounted, for what it holds; no line was run. The fault is never
    /// `Device` nor `OutOfMemory`, which are causes of their own.
    NotMounted(MountFault),
    /// The disk failed.
    Device,
    /// The source failed.
    Read,
    /// The sink failed.
    Write,
    /// No memory was to be had outside a line.
    OutOfMemory,
    /// A line of the script is wrong, the first one; no line was run.
    BadLine { number: u32, fault: LineFault },
    /// The source gave more than `MAX_INPUT` bytes; no line was run.
    TooMuchInput,
    /// The disk has this number of blocks, which are too few for the ring or too many.
    DiskTooSmall(u32),
}

impl Stop {
    /// The status that the program ends with.
    pub fn status(self) -> u8
        ensures { result ≡ status_of self }
    {
        match self {
            Stop::Done => status::DONE,
            Stop::BadWords => status::BAD_WORDS,
            Stop::NotMounted(_) => status::NOT_MOUNTED,
            Stop::Device => status::DEVICE,
            Stop::Read => status::READ,
            Stop::Write => status::WRITE,
            Stop::OutOfMemory => status::OUT_OF_MEMORY,
            Stop::BadLine {
                number: _,
                fault: _,
            } => status::BAD_LINE,
            Stop::TooMuchInput => status::TOO_MUCH_INPUT,
            Stop::DiskTooSmall(_) => status::DISK_TOO_SMALL,
        }
    }
}

/// How a command ended, and what its lines did.
#[derive(Debug, Drop)]
pub struct Ended<D> {
    /// The status that the program ends with: 0 where all is done, else the cause's.
    pub status: u8,
    /// The cause of the status.
    pub stop: Stop,
    /// The disk.
    pub disk: D,
    /// The number of the last commit at the mount; 0 where no line was run.
    pub base: u64,
    /// What was committed since.
    pub history: History,
    /// How the lines ended, in their order; empty where none was run.
    pub outcomes: Outcomes,
}

impl<D> Ended<D> {
    /// An end with no line run. It takes no memory.
    pub(crate) fn idle(alloc: Global, stop: Stop, disk: D) -> Ended<D>
        ensures status { result.status ≡ status_of stop }
        ensures stop { result.stop ≡ stop }
        ensures disk { result.disk ≡ disk }
        ensures idle { IsIdle (ended result.stop result.base result.history result.outcomes) }
    {
        Ended {
            status: stop.status(),
            stop,
            disk,
            base: 0,
            history: History::new(Vec::new(alloc)),
            outcomes: Outcomes::new(Vec::new(alloc)),
        }
    }
}
