//! A law of layer sets: a function that does nothing, whose contract callers cite.
ghost use Rattle.fx_layerset.specs.Alike.{InstallLaw};

/// What stands stays where layers are installed that show what they replace: with tombstones where
/// older layers of the tree stay, and with or without them where none stays.
pub fn install_law()
    ensures { InstallLaw }
{}
