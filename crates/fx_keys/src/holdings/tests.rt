//! What a caller must know before it asks or raises, tested on the keys themselves.
ghost use Rattle.std.specs.Prelude.{◌≡◌, ◌≢◌, IsTrue};
ghost use Rattle.std.specs.List.{All};
ghost use Rattle.std.specs.declared.cmp.Ordering.TheVariants.{Less};
ghost use Rattle.fx_item.specs.LockKey.{key_cmp};

use super::*;

/// How many further keys there is place for.
pub(crate) fn places(holdings: &Holdings) -> usize
    ensures { result ≡ holdings.now.places }
{
    holdings.places
}

/// Whether all keys lie below this one: the last does.
pub(crate) fn are_below(holdings: &Holdings, key: LockKey) -> bool
    ensures { IsTrue result → All (λ h. key_cmp h.key key ≡ Less) holdings.now.holds }
{
    let len = holdings.holds.len();
    len == 0 || holdings.holds[len - 1].key.cmp(&key).is_lt()
}

/// Whether no key lies below this one: the first does not.
pub(crate) fn are_from(holdings: &Holdings, key: LockKey) -> bool
    ensures { IsTrue result → All (λ h. key_cmp h.key key ≢ Less) holdings.now.holds }
{
    let len = holdings.holds.len();
    len == 0 || !holdings.holds[0].key.cmp(&key).is_lt()
}
