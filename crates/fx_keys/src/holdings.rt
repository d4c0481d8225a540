//! The keys that one number holds, in their order, and how many more there is place for.
ghost use Rattle.std.specs.Prelude.{◌≡◌, ◌<◌, Some, OnOk, OnErr};
ghost use Rattle.std.specs.List.{All};
ghost use Rattle.std.specs.declared.cmp.Ordering.TheVariants.{Less};
ghost use Rattle.fx_item.specs.LockKey.{key_cmp};
ghost use Rattle.fx_keys.specs.Holdings.{IsKeyArray, Locates, mode_in, no_grants, granted};
ghost use Rattle.fx_keys.specs.Holdings.{roomier, IsRaised};

use fx_item::{LockKey, Mode};
use std::alloc::{AllocError, Global};
use std::marker::Model;

/// A key that is held, and how.
#[derive(Clone, Copy, Debug, PartialEq, Eq)]
pub(crate) struct Hold {
    pub(crate) key: LockKey,
    pub(crate) mode: Mode,
}

/// The keys of one number, in their order, each once, with memory for the further ones that it may take.
///
/// A number takes its keys in their order, so a new one goes to the end.
#[derive(Drop)]
pub(crate) struct Holdings {
    holds: Vec<Hold>,
    places: usize,
}

impl Model for Holdings {
    ghost use Rattle.fx_keys.specs.contracts.holdings.Hold as hold;
    ghost use Rattle.fx_keys.specs.Holdings.{Grants, grants_code, IsRoomy};

    ghost Value = { Grants };

    ghost coded = { grants_code hold.the_row.coded };

    ghost view = { λ h. record { holds = h.holds.items; places = h.places } };

    ghost invariant = { λ h. IsRoomy h.holds h.places };
}

impl Holdings {
    /// Nothing is held. Takes no memory.
    pub(crate) fn new(alloc: Global) -> Holdings
        ensures { result ≡ no_grants }
    {
        Holdings {
            holds: Vec::new(alloc),
            places: 0,
        }
    }

    /// Makes place for `count` further keys, or nothing has changed.
    pub(crate) fn reserve(&mut self, count: u32) -> Result<(), AllocError>
        ensures ok { OnOk result (self.new ≡ roomier count self.old) }
        ensures err { OnErr result (self.new ≡ self.old) }
    {
        self.holds.reserve(self.places + count as usize)?;
        self.places += count as usize;
        Ok(())
    }

    /// The mode in which the key is held. Costs a binary search.
    pub(crate) fn mode(&self, key: LockKey) -> Option<Mode>
        ensures { result ≡ mode_in self.now.holds key }
    {
        match locate(self.holds.as_slice(), key) {
            Ok(at) => Some(self.holds[at].mode),
            Err(_) => None,
        }
    }

    /// One more key, above all the others. Takes one of the places, and no memory.
    pub(crate) fn grant(&mut self, key: LockKey, mode: Mode)
        requires place { 0 < self.old.places }
        requires above { All (λ h. key_cmp h.key key ≡ Less) self.old.holds }
        ensures { self.new ≡ granted key mode self.old }
    {
        let pushed = self.holds.push(Hold { key, mode });
        prove!(pushed.is_ok());
        self.places -= 1;
    }

    /// The key is held for a write from now on. Costs a binary search.
    pub(crate) fn raise(&mut self, key: LockKey)
        requires { mode_in self.old.holds key ≡ Some Mode.Change }
        ensures { IsRaised self.old key self.new }
    {
        if let Ok(at) = locate(self.holds.as_slice(), key) {
            self.holds[at].mode = Mode::Write;
        }
    }
}

/// Where the key stands, or else where it would. Costs a binary search.
fn locate(holds: &[Hold], key: LockKey) -> Result<usize, usize>
    requires { IsKeyArray holds.now }
    ensures { Locates holds.now key result }
{
    holds.binary_search_by_key(&key, |hold| hold.key)
}

#[cfg(test)]
pub(crate) mod tests;
