//! A list of names.

use fx_base::List;
use fx_item::Name;

/// Names, as those of a directory's children.
pub type Names = List<Name>;
