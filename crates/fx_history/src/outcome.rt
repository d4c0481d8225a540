//! How lines end.
ghost use Rattle.std.specs.Prelude.{◌≡◌};

use fx_base::List;
use fx_item::Full;
use fx_plain::{Answer, Refusal};
use std::marker::Model;

/// How a line ended.
#[derive(Debug, Drop)]
pub enum EndKind {
    /// Its changes are in the tree, as one commit.
    Committed,
    /// It read the tree, and this is the answer.
    Seen(Answer),
    /// The step with this index, from 1, was refused, and nothing was changed.
    Refused(u32, Refusal),
    /// The journal's ring had no room for the commit, and nothing was changed.
    Full(Full),
    /// All commits up to the line's number are kept by a stop after so many device calls.
    Synced(u64),
    /// The disk failed, and this is its count of faults then.
    DeviceFault(u64),
    /// No memory was to be had, and nothing was changed.
    OutOfMemory,
}

/// How a line ended, and at which commit.
#[derive(Debug, Drop)]
pub struct Outcome {
    at: u64,
    kind: EndKind,
}

impl Model for Outcome {
    ghost use Rattle.fx_history.specs.Outcome.{LineEnd};

    ghost Value = { LineEnd };

    ghost view = { λ o. record { at = o.at; kind = o.kind } };
}

impl Outcome {
    /// The end of a line at a commit.
    pub fn new(at: u64, kind: EndKind) -> Outcome
        ensures { result ≡ record { at = at; kind = kind } }
    {
        Outcome { at, kind }
    }

    /// Where the line was committed, its number; else the number of the commit up to which
    /// the line looked at the tree.
    pub fn at(&self) -> u64
        ensures { result ≡ self.now.at }
    {
        self.at
    }

    /// How it ended.
    pub fn kind(&self) -> &EndKind
        ensures { result.now ≡ self.now.kind }
    {
        &self.kind
    }
}

/// How the lines ended, in the order of the lines.
pub type Outcomes = List<Outcome>;
