//! The steps of a script, and what they answer.
ghost use Rattle.std.specs.Prelude.{◌≡◌};
ghost use Rattle.fx_plain.specs.Table.{is_reading};
ghost use Rattle.fx_plain.specs.Words.{refusal_word};

use crate::kind::Kind;
use crate::names::Names;
use crate::path::{Path, copy_path};
use fx_base::List;
use fx_item::Bytes;
use std::alloc::AllocError;
use thiserror::Error;

/// One thing that a script asks of the tree.
#[derive(Debug, Drop)]
pub enum Step {
    /// Makes a directory.
    Mkdir { path: Path },
    /// Makes an empty file.
    Create { path: Path },
    /// Puts the text into a file, from byte `at` on.
    Write { path: Path, at: u32, text: Bytes },
    /// Reads at most `count` bytes of a file, from byte `at` on.
    Read { path: Path, at: u32, count: u32 },
    /// Names what lies in a directory.
    List { path: Path },
    /// Tells what lies at a path.
    Stat { path: Path },
}

impl Step {
    /// Whether the step looks at the tree and never changes it.
    pub fn is_reading(&self) -> bool
        ensures { result ≡ is_reading self.now }
    {
        match self {
            Step::Mkdir { .. } | Step::Create { .. } | Step::Write { .. } => false,
            Step::Read { .. } | Step::List { .. } | Step::Stat { .. } => true,
        }
    }
}

/// The same step in memory of its own. Costs its bytes.
impl Clone for Step {
    ghost is_clone = { λ x y. y ≡ x };

    fn clone(&self) -> Result<Step, AllocError> {
        match self {
            Step::Mkdir { path } => Ok(Step::Mkdir {
                path: copy_path(path)?,
            }),
            Step::Create { path } => Ok(Step::Create {
                path: copy_path(path)?,
            }),
            Step::Write { path, at, text } => Ok(Step::Write {
                path: copy_path(path)?,
                at: *at,
                text: text.clone()?,
            }),
            Step::Read { path, at, count } => Ok(Step::Read {
                path: copy_path(path)?,
                at: *at,
                count: *count,
            }),
            Step::List { path } => Ok(Step::List {
                path: copy_path(path)?,
            }),
            Step::Stat { path } => Ok(Step::Stat {
                path: copy_path(path)?,
            }),
        }
    }
}

/// Steps, one after another.
pub type Steps = List<Step>;

/// What a step that was done answers.
#[derive(Debug, Drop)]
pub enum Answer {
    /// The tree changed as the step says.
    Done,
    /// Bytes of a file.
    Text(Bytes),
    /// The names of a directory's children, in the order of their bytes.
    Names(Names),
    /// A directory with the number of its children, or a file with its bytes and the number of the
    /// blocks that are held for it.
    Stat { kind: Kind, size: u32, blocks: u32 },
}

/// Why a step was refused; the tree is as before it.
#[derive(Clone, Copy, Debug, PartialEq, Eq, Error)]
pub enum Refusal {
    /// Nothing lies at the path, or at a directory on the way to it.
    #[error("nothing lies there")]
    NotFound,
    /// A file stands on the way.
    #[error("a file stands on the way")]
    NotDir,
    /// The path names a directory where a file is wanted.
    #[error("it is a directory")]
    IsDir,
    /// Something lies at the path already.
    #[error("something lies there already")]
    Exists,
    /// A file would be a volume: its path is the root or has one name.
    #[error("a volume is a directory")]
    NotVolume,
    /// A file would be longer than 16,777,216 bytes, or a read than 1,048,576.
    #[error("it is too long")]
    TooLong,
}

impl Refusal {
    /// The word that tells the refusal: its name in small letters.
    pub fn word(self) -> &'static str
        ensures { result.now ≡ refusal_word self }
    {
        match self {
            Refusal::NotFound => "notfound",
            Refusal::NotDir => "notdir",
            Refusal::IsDir => "isdir",
            Refusal::Exists => "exists",
            Refusal::NotVolume => "notvolume",
            Refusal::TooLong => "toolong",
        }
    }
}
