//! Numbers that keep to an order do not wait for one another in a circle.
ghost use Rattle.fx_keys.specs.Waiting.{NoCycle};

/// Whatever calls were made on a new table, each under its condition, where no number that holds a `Read` asked or
/// raised: no number waits for one that waits for a third, and so on, and last for the first. A number waits where its
/// last call was answered `Busy`, for all whose holds are in its way now.
pub fn waiting_has_no_cycle()
    ensures { NoCycle }
{}
