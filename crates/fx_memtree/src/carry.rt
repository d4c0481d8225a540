//! The way of a node that is moved.
ghost use Rattle.std.specs.Prelude.{◌≡◌, ◌≤◌, ◌++◌, drop, length, IfOk};
ghost use Rattle.std.specs.List.{list_any};
ghost use Rattle.fx_memtree.specs.Carried.{carry_of, ends_deep};

use fx_base::List;
use fx_item::Name;
use fx_plain::{MAX_NAMES, Path};
use std::alloc::{AllocError, Global};

/// Where a node that is moved lies, and where it comes to lie.
#[derive(Debug, Drop)]
pub struct Carry {
    pub old: Path,
    pub new: Path,
}

/// The names one after another, in memory of their own.
fn joined(alloc: Global, above: &[Name], below: &[Name]) -> Result<Path, AllocError>
    ensures { IfOk result (λ path. path ≡ above.now ++ below.now) }
{
    let mut names = above.to_vec(alloc)?;
    names.extend_from_slice(below)?;
    Ok(Path::new(names))
}

/// The way of the node at this path, which lies at `from` or below it.
pub fn carry_of(
    alloc: Global,
    path: &Vec<Name>,
    from: &[Name],
    to: &[Name],
) -> Result<Carry, AllocError>
    requires { length from.now ≤ length path.now.items }
    ensures { IfOk result (λ carry. carry ≡ carry_of from.now to.now path.now.items) }
{
    let (_, below) = path.as_slice().split_at(from.len());
    Ok(Carry {
        old: Path::new(path.clone()?),
        new: joined(alloc, to, below)?,
    })
}

/// Whether a way ends at a path of too many names.
pub fn is_too_deep(carries: &[Carry]) -> bool
    ensures { result ≡ list_any ends_deep carries.now }
{
    carries.iter().any(|carry| carry.new.len() > MAX_NAMES)
}
