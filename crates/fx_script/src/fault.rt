//! Why a line is refused.
ghost use Rattle.std.specs.Prelude.{◌≡◌};
ghost use Rattle.fx_script.specs.declared.fault.LineFault.TheVariants.{OutOfMemory};
ghost use Rattle.fx_script.specs.Fault.{fault_word};

use std::alloc::AllocError;
use thiserror::Error;

/// Why a line was not read: the first fault in this order, but for `OutOfMemory`, which may come at
/// any line.
#[derive(Clone, Copy, Debug, PartialEq, Eq, Drop, Error)]
pub enum LineFault {
    /// The line comes after line 65,536.
    #[error("a script has at most 65,536 lines")]
    TooManyLines,
    /// A byte of the line is above 127.
    #[error("a byte is not ASCII")]
    NotAscii,
    /// The line says nothing.
    #[error("the line is empty")]
    Empty,
    /// The line does not begin with a client, a number from 1 to 16.
    #[error("the client is no number from 1 to 16")]
    BadClient,
    /// The first word names nothing that can be done.
    #[error("the first word is not known")]
    UnknownWord,
    /// There are more or fewer words than belong to the first one.
    #[error("the number of words is wrong")]
    WordCount,
    /// A word is no path.
    #[error("a path is wrong")]
    BadPath,
    /// A word is no number, or it is above 4,294,967,295.
    #[error("a number is wrong")]
    BadNumber,
    /// A text is empty.
    #[error("a text is wrong")]
    BadText,
    /// Memory ran out.
    #[error("out of memory")]
    OutOfMemory,
}

/// Why a script was not read. A call that reads one takes no memory, so it has no other fault.
#[derive(Clone, Copy, Debug, PartialEq, Eq, Drop, Error)]
pub enum ScriptFault {
    /// The first wrong line, numbered from 1, and its first fault, which is never `OutOfMemory`.
    #[error("line {number}: {fault}")]
    BadLine { number: u32, fault: LineFault },
}

impl LineFault {
    /// The word that tells the fault: its name in small letters.
    pub fn word(self) -> &'static str
        ensures { result.now ≡ fault_word self }
    {
        match self {
            LineFault::TooManyLines => "toomanylines",
            LineFault::NotAscii => "notascii",
            LineFault::Empty => "empty",
            LineFault::BadClient => "badclient",
            LineFault::UnknownWord => "unknownword",
            LineFault::WordCount => "wordcount",
            LineFault::BadPath => "badpath",
            LineFault::BadNumber => "badnumber",
            LineFault::BadText => "badtext",
            LineFault::OutOfMemory => "outofmemory",
        }
    }
}

impl From<AllocError> for LineFault {
    ghost from_gives = { λ _ fault. fault ≡ OutOfMemory };

    fn from(_error: AllocError) -> LineFault {
        LineFault::OutOfMemory
    }
}
