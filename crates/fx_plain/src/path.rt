//! Paths.
ghost use Rattle.std.specs.Prelude.{◌≡◌, IfOk};

use fx_base::List;
use fx_item::Name;
use std::alloc::AllocError;

/// The most names of a path.
pub const MAX_NAMES: usize = 64;

/// A list of names, from the root on. The empty one is the root's.
pub type Path = List<Name>;

/// The same path in memory of its own. Costs the bytes of its names.
pub fn copy_path(path: &Path) -> Result<Path, AllocError>
    ensures { IfOk result (λ copy. copy ≡ path.now) }
{
    path.clone()
}
