//! What lists of items say together of one point.
ghost use Rattle.std.specs.Prelude.{◌≡◌, ◌+◌, true, get_or, map, option_map};
ghost use Rattle.fx_item.specs.Item.{item_of, items_of, key_of, value_of};
ghost use Rattle.fx_item.specs.Overlay.{BlockEntry, covers, entry_in, overlay, says};
ghost use Rattle.fx_worked.specs.Tried.{entry_told, point_of};

use fx_item::{Item, Items, Key, Value};

/// A point of a range.
#[derive(Clone, Copy, Debug)]
pub enum Spot {
    /// The block at this place of a file.
    FileBlock { store: u32, id: u64, place: u32 },
    /// A block of the device.
    DeviceBlock { block: u32 },
}

/// What stands at a point.
#[derive(Clone, Copy, Debug)]
pub enum Told<'a> {
    /// A value as it stands in its item.
    Value { value: &'a Value },
    /// A block of the device, with its sum.
    Block { block: u64, sum: u64 },
}

/// What the lists say together of the point, the newest first: nothing, that there is no entry, or which
/// one. It asks one list after another, and each item of it.
pub fn said_at(levels: &[Items], spot: Spot) -> Option<Option<Told<'_>>>
    ensures { option_map (option_map entry_told) result
        ≡ overlay (map (λ items. says (items_of items)) levels.now) (point_of spot) }
{
    for items in levels {
        let said = said_by(items.as_slice(), spot);
        if said.is_some() {
            return said;
        }
    }
    None
}

/// What one list says of it.
fn said_by(items: &[Item], spot: Spot) -> Option<Option<Told<'_>>>
    ensures { option_map (option_map entry_told) result
        ≡ says (items_of items.now) (point_of spot) }
{
    for item in items {
        if speaks_of(&item.key, spot) {
            return Some(told_by(item, spot));
        }
    }
    None
}

fn speaks_of(key: &Key, spot: Spot) -> bool
    ensures { result ≡ covers (key_of key.now) (point_of spot) }
{
    match spot {
        Spot::FileBlock { store, id, place } => match key {
            Key::Extent {
                store: of,
                id: node,
                start,
                end,
            } => *of == store && *node == id && *start <= place && place < *end,
            _ => false,
        },
        Spot::DeviceBlock { block } => match key {
            Key::Allocation { start, end } => *start <= block && block < *end,
            _ => false,
        },
    }
}

/// What an item says of a point that its key covers.
fn told_by(item: &Item, spot: Spot) -> Option<Told<'_>>
    requires { covers (key_of item.now.key) (point_of spot) ≡ true }
    ensures { option_map entry_told result
        ≡ entry_in (key_of item.now.key) (value_of item.now.value) (point_of spot) }
{
    match (&item.key, &item.value, spot) {
        (_, Value::Gone, _) => None,
        (Key::Extent { start, .. }, Value::Extent { block, sums }, Spot::FileBlock { place, .. }) =>
            Some(block_in(*block, sums.as_slice(), place.saturating_sub(*start))),
        _ => Some(Told::Value { value: &item.value }),
    }
}

fn block_in<'a>(first: u32, sums: &[u64], place: u32) -> Told<'a>
    ensures { entry_told result ≡ BlockEntry (first + place) (get_or sums.now place 0) }
{
    let sum = match sums.get(place as usize) {
        Some(sum) => *sum,
        None => 0,
    };
    Told::Block {
        block: u64::from(first) + u64::from(place),
        sum,
    }
}
