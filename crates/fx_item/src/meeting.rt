//! How a newer and an older item meet.
ghost use Rattle.std.specs.Prelude.{◌≡◌, IfOk};
ghost use Rattle.fx_item.specs.Item.{item_of, IsItem};
ghost use Rattle.fx_item.specs.Meeting.{Meets};

use crate::item::Item;
use std::alloc::{AllocError, Global};

/// What a newer item leaves of an older one.
#[derive(Debug, Drop)]
pub enum Meet {
    /// They share no point.
    Apart,
    /// Nothing is left.
    Hidden,
    /// What is left before the newer one and after it.
    Cut {
        left: Option<Item>,
        right: Option<Item>,
    },
}

/// How items of two lists meet.
pub trait Merger {
    /// What the newer item leaves of the older one: the points of the older one that the newer one
    /// does not cover.
    fn meet(alloc: Global, newer: &Item, older: &Item) -> Result<Meet, AllocError>
        requires newer { IsItem (item_of newer.now) }
        requires older { IsItem (item_of older.now) }
        ensures { IfOk result (λ m. Meets (item_of newer.now) (item_of older.now) m) };
}
