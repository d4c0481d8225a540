//! Laws on the number of transactions that an image keeps.
ghost use Rattle.fx_verify.specs.Kept.{KeptExists, KeptIsOne, LiveIsWritten};

/// Whatever the transactions state and whatever sums were found, some number is the greatest that passes: the base
/// always does.
pub fn kept_exists()
    ensures { KeptExists }
{}

/// And only one number is.
pub fn kept_is_one()
    ensures { KeptIsOne }
{}

/// What is live was written: a mount that sums what `blocks_of` names has all that it needs.
pub fn live_is_written()
    ensures { LiveIsWritten }
{}
