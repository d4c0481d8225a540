//! Why a line is refused.
ghost use Rattle.std.specs.Prelude.{◌≡◌};
ghost use Rattle.fx_words.specs.Faults.{word_fault_word};

use fx_script::LineFault;
use thiserror::Error;

/// Why a line was not read. The first fault counts: those of the whole line, then part by part of a
/// group and word by word, and last `TooManySteps`.
#[derive(Clone, Copy, Debug, PartialEq, Eq, Error)]
pub enum WordFault {
    /// What every line may have.
    #[error("{0}")]
    Basic(LineFault),
    /// A part of a group is no step that changes the tree.
    #[error("a group has steps that change the tree, and nothing else")]
    GroupedLine,
    /// A word is no name of an attribute.
    #[error("a name is wrong")]
    BadName,
    /// A group has more than 64 steps.
    #[error("a group has at most 64 steps")]
    TooManySteps,
}

impl WordFault {
    /// The word that tells the fault: its name in small letters.
    pub fn word(self) -> &'static str
        ensures { result.now ≡ word_fault_word self }
    {
        match self {
            WordFault::Basic(fault) => fault.word(),
            WordFault::GroupedLine => "groupedline",
            WordFault::BadName => "badname",
            WordFault::TooManySteps => "toomanysteps",
        }
    }
}
