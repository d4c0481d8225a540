//! Which of two items comes first in the overlay of two parts.
ghost use Rattle.std.specs.Prelude.{◌≡◌, ℕ, List, IfOk, option_map};
ghost use Rattle.std.specs.Ordering.{is_le};
ghost use Rattle.fx_item.specs.Item.{PlainItem, IsItem, item_of, key_of};
ghost use Rattle.fx_item.specs.Place.{Place, bound_of, begins, ends, place_cmp};
ghost use Rattle.fx_merge.specs.Choice.{head_item, chosen, leads_at, IfItem, ComesFirst, StaysOrGoes};
ghost use Rattle.fx_merge.specs.Cursor.{reaches};

use fx_item::{Bound, Item, Meet, Merger};
use std::alloc::{AllocError, Global};
use std::mem;

/// What is known of what comes first in a part of the levels.
#[derive(Drop)]
pub(crate) enum Head {
    /// It is still to be looked up.
    Unknown,
    /// This item, or that none follows.
    Known(Option<Item>),
}

impl Head {
    /// Whether what is known still holds from the place on: the item ends past it, or none follows.
    pub(crate) fn reaches(&self, place: &Bound<'_>) -> bool
        ensures { result ≡ reaches (bound_of place.now) self.now }
    {
        match self {
            Head::Unknown => false,
            Head::Known(None) => true,
            Head::Known(Some(item)) => !item.key.ends_by(place),
        }
    }

    /// The item, taken out.
    fn take(&mut self) -> Option<Item>
        ensures item { option_map item_of result ≡ head_item self.old }
        ensures gone { self.new ≡ Head.Unknown }
    {
        match mem::replace(self, Head::Unknown) {
            Head::Unknown => None,
            Head::Known(item) => item,
        }
    }
}

/// Which of two heads comes first, or a part of the older one.
#[derive(Drop)]
enum Choice {
    Newer,
    Older,
    Left(Item),
}

/// Whether the newer item begins no later than the older one, or no later than the place.
fn leads(place: &Bound<'_>, newer: &Item, older: &Item) -> bool
    ensures { result
        ≡ leads_at (bound_of place.now) (key_of newer.now.key) (key_of older.now.key) }
{
    let start = newer.key.begins();
    start.compare(&older.key.begins()).is_le() || start.compare(place).is_le()
}

/// Which of two items comes first from the place on. Items are asked how they meet only where the
/// older one begins first.
fn earlier<M: Merger>(
    alloc: Global,
    place: &Bound<'_>,
    newer: &Item,
    older: &Item,
) -> Result<Choice, AllocError>
    requires newer { IsItem (item_of newer.now) }
    requires older { IsItem (item_of older.now) }
    ensures { IfOk result (λ choice. ComesFirst (bound_of place.now)
        (Some (item_of newer.now)) (Some (item_of older.now))
        (chosen (Some (item_of newer.now)) (Some (item_of older.now)) choice)) }
{
    if leads(place, newer, older) {
        return Ok(Choice::Newer);
    }
    match M::meet(alloc, newer, older) {
        Err(fault) => Err(fault),
        Ok(Meet::Apart) => Ok(Choice::Older),
        Ok(Meet::Hidden) => unreachable!(),
        Ok(Meet::Cut { left, right: _ }) => {
            let Some(piece) = left else {
                unreachable!();
            };
            Ok(Choice::Left(piece))
        }
    }
}

/// Which of two heads comes first from the place on.
fn choose<M: Merger>(
    alloc: Global,
    place: &Bound<'_>,
    newer: &Head,
    older: &Head,
) -> Result<Choice, AllocError>
    requires newer { IfItem (head_item newer.now) }
    requires older { IfItem (head_item older.now) }
    ensures { IfOk result (λ choice. ComesFirst (bound_of place.now)
        (head_item newer.now) (head_item older.now)
        (chosen (head_item newer.now) (head_item older.now) choice)) }
{
    match (newer, older) {
        (Head::Known(Some(first)), Head::Known(Some(second))) => {
            earlier::<M>(alloc, place, first, second)
        }
        (Head::Known(Some(_)), _) => Ok(Choice::Newer),
        _ => Ok(Choice::Older),
    }
}

/// What comes first from the place on of two heads, taken out. On a fault both stay.
pub(crate) fn take_first<M: Merger>(
    alloc: Global,
    place: &Bound<'_>,
    newer: &mut Head,
    older: &mut Head,
) -> Result<Option<Item>, AllocError>
    requires newer { IfItem (head_item newer.old) }
    requires older { IfItem (head_item older.old) }
    ensures first { IfOk result (λ found. ComesFirst (bound_of place.now)
        (head_item newer.old) (head_item older.old) (option_map item_of found)) }
    ensures newer { StaysOrGoes newer.old newer.new }
    ensures older { StaysOrGoes older.old older.new }
{
    match choose::<M>(alloc, place, newer, older) {
        Err(fault) => Err(fault),
        Ok(Choice::Newer) => Ok(newer.take()),
        Ok(Choice::Older) => Ok(older.take()),
        Ok(Choice::Left(piece)) => Ok(Some(piece)),
    }
}
