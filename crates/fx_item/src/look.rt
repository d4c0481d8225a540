//! Looking items up, in one level of a tree and in a whole tree.
ghost use Rattle.std.specs.Prelude.{◌≡◌, ◌≢◌, ℕ, List, Contains, IfOk, IfErr, IfSome, Some, option_map};
ghost use Rattle.fx_item.specs.Item.{PlainItem, PlainKey, PlainValue, GoneValue, key_of, value_of, item_of};
ghost use Rattle.fx_item.specs.Place.{begins, edge_at};
ghost use Rattle.fx_item.specs.Overlay.{Said, AtKey, says};
ghost use Rattle.fx_item.specs.Look.{AllApart, FindsFrom, FindsLive, MayFail, map_of, spoken, is_point_key, is_gone};

use crate::item::{Item, Key, Value};
use crate::place::Edge;
use std::alloc::{AllocError, AllocFailed, Global};
use thiserror::Error;

/// Why a look has no answer.
#[derive(Clone, Copy, Debug, PartialEq, Eq, Error)]
pub enum LookFault {
    /// This block of a layer is needed and not at hand.
    #[error("block {0} is not at hand")]
    Need(u32),
    /// There is not enough memory.
    #[error("out of memory")]
    OutOfMemory,
}

impl From<AllocError> for LookFault {
    ghost use Rattle.std.specs.Prelude.{◌≡◌};
    ghost use Rattle.fx_item.specs.declared.look.LookFault.TheVariants.{OutOfMemory};

    ghost from_gives = { λ _ e. e ≡ OutOfMemory };

    fn from(_: AllocError) -> LookFault {
        LookFault::OutOfMemory
    }
}

impl<T: Drop> From<AllocFailed<T>> for LookFault {
    ghost use Rattle.std.specs.Prelude.{◌≡◌};
    ghost use Rattle.fx_item.specs.declared.look.LookFault.TheVariants.{OutOfMemory};

    ghost from_gives = { λ _ e. e ≡ OutOfMemory };

    fn from(_: AllocFailed<T>) -> LookFault {
        LookFault::OutOfMemory
    }
}

/// One level of a tree: items in order, tombstones among them.
pub trait Level {
    /// The items, in order.
    ghost items: { Self → List PlainItem };

    /// The blocks that are not at hand. A level in memory lacks none.
    ghost lacks: { Self → List ℕ };

    /// What stands under the key of a point, which may be a tombstone. Under a range nothing does.
    fn get(&self, alloc: Global, key: &Key) -> Result<Option<Value>, LookFault>
        ensures found { IfOk result (λ found. spoken (option_map value_of found)
            ≡ says (items self.now) (AtKey (key_of key.now))) }
        ensures fault { IfErr result (MayFail (lacks self.now)) }
    {
        if !key.is_point() {
            return Ok(None);
        }
        let found = match self.next(alloc, Edge::Begin, key) {
            Ok(found) => found,
            Err(fault) => return Err(fault),
        };
        let Some(item) = found else {
            return Ok(None);
        };
        if item.key.begins().compare(&key.begins()).is_le() {
            return Ok(Some(item.value));
        }
        Ok(None)
    }

    /// The first item that ends past where the key begins, which may be a tombstone. An item under
    /// the key itself does.
    fn next_from(&self, alloc: Global, key: &Key) -> Result<Option<Item>, LookFault>
        ensures found { IfOk result (λ found. FindsFrom (says (items self.now))
            (begins (key_of key.now)) (option_map item_of found)) }
        ensures fault { IfErr result (MayFail (lacks self.now)) }
    {
        self.next(alloc, Edge::Begin, key)
    }

    /// The first item that ends past where the key begins, or past where it ends: so it goes on
    /// behind an item, also where no key of its kind comes next. It may be a tombstone.
    fn next(&self, alloc: Global, edge: Edge, key: &Key) -> Result<Option<Item>, LookFault>
        ensures found { IfOk result (λ found. FindsFrom (says (items self.now))
            (edge_at edge (key_of key.now)) (option_map item_of found)) }
        ensures among { IfOk result
            (λ found. IfSome found (λ item. Contains (items self.now) (item_of item))) }
        ensures apart { AllApart (items self.now) }
        ensures fault { IfErr result (MayFail (lacks self.now)) };
}

/// A whole tree: what its levels say together. A tombstone is nothing.
pub trait Look {
    /// What its levels say of each point.
    ghost said: { Self → Said };

    /// Keys, among them each under which something stands.
    ghost keys: { Self → List PlainKey };

    /// The blocks that are not at hand. A tree in memory lacks none.
    ghost lacks: { Self → List ℕ };

    /// What stands under the key of a point. Under a range nothing does.
    fn get(&self, alloc: Global, key: &Key) -> Result<Option<Value>, LookFault>
        ensures found { IfOk result (λ found. option_map value_of found
            ≡ map_of (said self.now) (key_of key.now)) }
        ensures alive { IfOk result
            (λ found. IfSome found (λ value. value_of value ≢ GoneValue)) }
        ensures fault { IfErr result (MayFail (lacks self.now)) }
    {
        if !key.is_point() {
            return Ok(None);
        }
        let found = match self.next_from(alloc, key) {
            Ok(found) => found,
            Err(fault) => return Err(fault),
        };
        let Some(item) = found else {
            return Ok(None);
        };
        if item.key.begins().compare(&key.begins()).is_le() {
            return Ok(Some(item.value));
        }
        Ok(None)
    }

    /// The first item that ends past where the key begins. An item under the key itself does.
    fn next_from(&self, alloc: Global, key: &Key) -> Result<Option<Item>, LookFault>
        ensures found { IfOk result (λ found. FindsLive (said self.now)
            (begins (key_of key.now)) (option_map item_of found)) }
        ensures listed { (key : PlainKey) (value : PlainValue) →
            map_of (said self.now) key ≡ Some value → Contains (keys self.now) key }
        ensures fault { IfErr result (MayFail (lacks self.now)) };
}

impl Key {
    /// Whether the key is one of a single point: no extent, and no range of the device.
    pub fn is_point(&self) -> bool
        ensures { result ≡ is_point_key (key_of self.now) }
    {
        !matches!(self, Key::Extent { .. } | Key::Allocation { .. })
    }
}

impl Value {
    /// Whether this is a tombstone.
    pub fn is_gone(&self) -> bool
        ensures { result ≡ is_gone (value_of self.now) }
    {
        matches!(self, Value::Gone)
    }
}
