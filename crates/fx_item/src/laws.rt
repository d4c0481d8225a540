//! Laws of places, looks and meetings: functions that do nothing, whose contracts callers cite.
ghost use Rattle.fx_item.specs.Meeting.{MeetLaw, CoverLaw, OverlayLaw, AfterAllLaw, SplitLaw, KeyLaw, OrderLaw, FollowLaw};

/// A key covers the points from where it begins to where it ends.
pub fn cover_law()
    ensures { CoverLaw }
{}

/// What is left of an item that meets a newer one.
pub fn meet_law()
    ensures { MeetLaw }
{}

/// Overlays of overlays.
pub fn overlay_law()
    ensures { OverlayLaw }
{}

/// What stands after lists, the oldest first, is the map of their overlay.
pub fn after_all_law()
    ensures { AfterAllLaw }
{}

/// How far two answers of one look may differ.
pub fn split_law()
    ensures { SplitLaw }
{}

/// A look from a place on finds the first point key.
pub fn key_law()
    ensures { KeyLaw }
{}

/// The order of point keys is that of their places.
pub fn order_law()
    ensures { OrderLaw }
{}

/// Which keys may follow each other.
pub fn follow_law()
    ensures { FollowLaw }
{}
