//! A few items in memory, for the tests.
ghost use Rattle.std.specs.Prelude.{◌≡◌, ◌<◌, ◌^◌, ◌++◌, ◌∷◌, [], ℕ, IfErr, IfOk, IsTrue, List, map, option_copied, option_map};
ghost use Rattle.fx_item.specs.Item.{PlainItem, item_of, key_of};
ghost use Rattle.fx_item.specs.Look.{FindsFrom, FindsLive, MayFail};
ghost use Rattle.fx_item.specs.Overlay.{Said, says};
ghost use Rattle.fx_item.specs.Place.{Place, begins};
ghost use Rattle.fx_dir.specs.Sample.{IsPlain};

use fx_item::{Item, Key, Look, LookFault, Value, is_name};
use std::alloc::{AllocError, Global};

/// Items in memory, in any order. Of items that are none, and of tombstones, it does not tell.
#[derive(Drop)]
pub(crate) struct Sample {
    pub(crate) items: Vec<Item>,
}

impl Look for Sample {
    ghost said = { λ s. says (map item_of s.items.items) };

    ghost keys = { λ s. map (λ x. key_of x.key) s.items.items };

    ghost lacks = { λ s. 0 ∷ [] };

    fn next_from(&self, _alloc: Global, key: &Key) -> Result<Option<Item>, LookFault> {
        let mut best = None;
        for item in &self.items {
            if !is_plain(item) {
                return Err(LookFault::Need(0));
            }
            best = earlier(key, best, item);
        }
        match best {
            None => Ok(None),
            Some(item) => told(item),
        }
    }
}

/// Whether this is an item that names a node, or tells its kind.
fn is_plain(item: &Item) -> bool
    ensures { IsTrue result → IsPlain (item_of item.now) }
{
    match (&item.key, &item.value) {
        (Key::Object { store, id }, Value::Dir) => is_node(*store, *id),
        (Key::Object { store, id }, Value::File { length }) => {
            is_node(*store, *id) && is_node(*length, 0)
        }
        (
            Key::Child { store, id, name },
            Value::Child {
                store: to_store,
                id: to_id,
            },
        ) => is_node(*store, *id) && is_node(*to_store, *to_id) && is_name(name.as_slice()),
        _ => false,
    }
}

/// True: each pair of such numbers is a node.
fn is_node(_store: u32, _id: u64) -> bool
    ensures { IsTrue result → (_store < 2 ^ 32) × (_id < 2 ^ 64) }
{
    true
}

/// The earlier one of two items from a key on, or the first that is found.
fn earlier<'a>(key: &Key, best: Option<&'a Item>, item: &'a Item) -> Option<&'a Item>
    requires { IsPlain (item_of item.now) }
    ensures { (xs : List PlainItem) → FindsFrom (says xs) (begins (key_of key.now))
        (option_map item_of (option_copied best.entry))
        → FindsFrom (says (xs ++ item_of item.now ∷ [])) (begins (key_of key.now))
        (option_map item_of (option_copied result)) }
{
    if item.key.ends_by(&key.begins()) {
        return best;
    }
    let Some(found) = best else {
        return Some(item);
    };
    if item.key.ends_by(&found.key.begins()) {
        return Some(item);
    }
    Some(found)
}

/// The item in memory of its own.
fn told(item: &Item) -> Result<Option<Item>, LookFault>
    ensures live { (said : Said) (from : Place) → FindsFrom said from (Some (item_of item.now))
        → IfOk result (λ found. FindsLive said from (option_map item_of found)) }
    ensures fault { IfErr result (MayFail (0 ∷ [])) }
{
    if item.value.is_gone() {
        return Err(LookFault::Need(0));
    }
    let copy = item.clone()?;
    Ok(Some(copy))
}
