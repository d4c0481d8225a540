//! Why a step is refused.
ghost use Rattle.std.specs.Prelude.{◌≡◌};
ghost use Rattle.fx_steps.specs.Refusals.{step_refusal_word};

use fx_plain::Refusal;
use thiserror::Error;

/// Why a step or a whole line was refused; the tree is as before it.
#[derive(Clone, Copy, Debug, PartialEq, Eq, Error)]
pub enum StepRefusal {
    /// What every step may meet.
    #[error("{0}")]
    Basic(Refusal),
    /// The directory has a child.
    #[error("the directory is not empty")]
    NotEmpty,
    /// The node has no attribute of that name.
    #[error("there is no such attribute")]
    NoAttr,
    /// A node would move to where it lies, or below itself.
    #[error("a node cannot move into itself")]
    IntoItself,
    /// A node would move to another volume.
    #[error("it lies in another volume")]
    CrossVolume,
    /// The line writes more than 256 blocks, or touches more than 4,096.
    #[error("the line is too big")]
    TooBig,
}

impl StepRefusal {
    /// The word that tells the refusal: its name in small letters.
    pub fn word(self) -> &'static str
        ensures { result.now ≡ step_refusal_word self }
    {
        match self {
            StepRefusal::Basic(refusal) => refusal.word(),
            StepRefusal::NotEmpty => "notempty",
            StepRefusal::NoAttr => "noattr",
            StepRefusal::IntoItself => "intoitself",
            StepRefusal::CrossVolume => "crossvolume",
            StepRefusal::TooBig => "toobig",
        }
    }
}
