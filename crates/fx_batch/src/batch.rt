//! Sorted items in memory.
ghost use Rattle.std.specs.Prelude.{◌≡◌, ◌<◌, ◌≤◌, ◌^◌, ◌+◌, ℕ, All, Some, IfOk, IfErr, length};
ghost use Rattle.std.specs.List.{slice_get};
ghost use Rattle.std.specs.Ordering.{is_le};
ghost use Rattle.fx_item.specs.Item.{PlainItem, IsItem, item_of, items_of, key_of};
ghost use Rattle.fx_item.specs.Place as line;
ghost use Rattle.fx_item.specs.Place.{bound_of};
ghost use Rattle.fx_item.specs.Look.{AllApart};
ghost use Rattle.fx_batch.specs.Batch.{IsOrderFault};

use fx_item::{Bound, Edge, Item, Items, Key, Level, LookFault};
use std::alloc::Global;
use std::marker::Model;
use thiserror::Error;

/// Items in order, none of which covers a point of another. It is looked up by binary search.
#[derive(Debug, Drop)]
pub struct Batch {
    items: Items,
}

impl Model for Batch {
    ghost use Rattle.std.specs.Prelude.{List};
    ghost use Rattle.fx_item.specs.Item.{PlainItem, items_of};
    ghost use Rattle.fx_item.specs.Look.{AllApart};

    ghost Value = { List PlainItem };

    ghost view = { λ b. items_of b.items };

    ghost invariant = { λ b. AllApart (items_of b.items) };
}

/// Why items do not make a batch.
#[derive(Clone, Copy, Debug, PartialEq, Eq, Error)]
pub enum BuildFault {
    /// The item at this place, counted from 0, is not behind the one before it. It is the first such.
    #[error("item {0} is out of order")]
    Order(u32),
}

impl Batch {
    /// The batch of these items, which keep the rules of items and are fewer than 2^32. It takes no
    /// memory, and goes over the items once.
    pub fn build(items: Items) -> Result<Batch, BuildFault>
        requires good { All IsItem (items_of items) }
        requires few { length items < 2 ^ 32 }
        ensures built { IfOk result (λ batch. (batch ≡ items_of items) × AllApart batch) }
        ensures order { IfErr result (IsOrderFault (items_of items)) }
    {
        let sorted = items.as_slice();
        for i in 1..sorted.len() {
            if !follows(&sorted[i - 1], &sorted[i]) {
                return Err(BuildFault::Order(i as u32));
            }
        }
        Ok(Batch { items })
    }

    /// The batch of items that are known to be in order, as those of a merge. It looks at none.
    pub fn of(items: Items) -> Batch
        requires { AllApart (items_of items) }
        ensures { result ≡ items_of items }
    {
        Batch { items }
    }

    /// The items, in order.
    pub fn as_slice(&self) -> &[Item]
        ensures { items_of result.now ≡ self.now }
    {
        self.items.as_slice()
    }

    /// The items, in order. It takes no memory.
    pub fn into_items(self) -> Items
        ensures { items_of result ≡ self }
    {
        self.items
    }
}

/// Whether the later item begins at the end of the earlier one, or behind that.
fn follows(earlier: &Item, later: &Item) -> bool
    ensures { result ≡ is_le
        (line.place_cmp (line.ends (key_of earlier.now.key)) (line.begins (key_of later.now.key))) }
{
    earlier.key.ends_by(&later.key.begins())
}

/// How many items end at the place or before it.
fn passed(items: &[Item], place: &Bound<'_>) -> usize
    requires { AllApart (items_of items.now) }
    ensures bound { result ≤ length items.now }
    ensures before { (i : ℕ) (x : PlainItem) → i < result
        → slice_get (items_of items.now) i ≡ Some x
        → line.Upto (line.ends x.key) (bound_of place.now) }
    ensures behind { (i : ℕ) (x : PlainItem) → result ≤ i
        → slice_get (items_of items.now) i ≡ Some x
        → line.Below (bound_of place.now) (line.ends x.key) }
{
    items.partition_point(|item| item.key.ends_by(place))
}

/// A look costs a binary search, and the copy of the item that is found.
impl Level for Batch {
    ghost items = { λ b. b };

    ghost use Rattle.std.specs.Prelude.{[]};

    ghost lacks = { λ b. [] };

    fn next(&self, alloc: Global, edge: Edge, key: &Key) -> Result<Option<Item>, LookFault> {
        let items = self.items.as_slice();
        let Some(item) = items.get(passed(items, &key.edge(edge))) else {
            return Ok(None);
        };
        let found = item.clone()?;
        Ok(Some(found))
    }
}
