//! Which modes exclude one another.
ghost use Rattle.std.specs.Prelude.{◌≡◌};
ghost use Rattle.fx_keys.specs.Conflict.{are_conflicting};

use fx_item::Mode;

/// Whether a hold keeps another number from holding the same key in the mode that it asks for.
pub fn conflicts(held: Mode, asked: Mode) -> bool
    ensures { result ≡ are_conflicting held asked }
{
    match held {
        Mode::Share => matches!(asked, Mode::Change | Mode::Write),
        Mode::Change => !matches!(asked, Mode::Read),
        Mode::Write => true,
        Mode::Read => matches!(asked, Mode::Write),
    }
}
