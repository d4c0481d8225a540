//! The steps of a script.
ghost use Rattle.std.specs.Prelude.{◌≡◌};
ghost use Rattle.fx_steps.specs.Rows.{is_look};

use fx_base::List;
use fx_item::{Bytes, Name};
use fx_plain::{Path, Step, copy_path};
use std::alloc::AllocError;

/// One thing that a script asks of the tree.
#[derive(Debug, Drop)]
pub enum TreeStep {
    /// Makes a node, writes into a file, or looks at a file, a directory or what lies at a path.
    Basic(Step),
    /// Cuts a file at this number of bytes, or lets it grow to it with zeros.
    Truncate {
        path: Path,
        size: u32,
    },
    /// Takes away a file, or a directory without children.
    Remove {
        path: Path,
    },
    /// Moves what lies at a path, and all below it, to another path of the same volume.
    Rename {
        from: Path,
        to: Path,
    },
    /// Gives a node an attribute, in the place of one of that name if there is one.
    SetAttr {
        path: Path,
        name: Name,
        value: Bytes,
    },
    /// Takes an attribute away from a node.
    DelAttr {
        path: Path,
        name: Name,
    },
    /// Tells an attribute of a node.
    GetAttr {
        path: Path,
        name: Name,
    },
}

impl TreeStep {
    /// Whether the step looks at the tree and never changes it.
    pub fn is_look(&self) -> bool
        ensures { result ≡ is_look self.now }
    {
        match self {
            TreeStep::Basic(step) => step.is_reading(),
            TreeStep::GetAttr { .. } => true,
            _ => false,
        }
    }
}

/// The same step in memory of its own. Costs its bytes.
impl Clone for TreeStep {
    ghost is_clone = { λ x y. y ≡ x };

    fn clone(&self) -> Result<TreeStep, AllocError> {
        match self {
            TreeStep::Basic(step) => Ok(TreeStep::Basic(step.clone()?)),
            TreeStep::Truncate { path, size } => Ok(TreeStep::Truncate {
                path: copy_path(path)?,
                size: *size,
            }),
            TreeStep::Remove { path } => Ok(TreeStep::Remove {
                path: copy_path(path)?,
            }),
            TreeStep::Rename { from, to } => Ok(TreeStep::Rename {
                from: copy_path(from)?,
                to: copy_path(to)?,
            }),
            TreeStep::SetAttr { path, name, value } => Ok(TreeStep::SetAttr {
                path: copy_path(path)?,
                name: name.clone()?,
                value: value.clone()?,
            }),
            TreeStep::DelAttr { path, name } => Ok(TreeStep::DelAttr {
                path: copy_path(path)?,
                name: name.clone()?,
            }),
            TreeStep::GetAttr { path, name } => Ok(TreeStep::GetAttr {
                path: copy_path(path)?,
                name: name.clone()?,
            }),
        }
    }
}

/// Steps, one after another.
pub type TreeSteps = List<TreeStep>;
