//! Looking for an item by halves.
ghost use Rattle.std.specs.Prelude.{◌≡◌, ◌<◌, ◌≤◌, ℕ, true, Some, length, option_copied, option_map};
ghost use Rattle.std.specs.List.{slice_get};
ghost use Rattle.fx_item.specs.Item.{PlainItem, items_of, key_of, value_of};
ghost use Rattle.fx_item.specs.Place as line;
ghost use Rattle.fx_item.specs.Place.{bound_of};
ghost use Rattle.fx_item.specs.Look.{is_point_key};
ghost use Rattle.fx_contents.specs.Points.{value_under};
ghost use Rattle.fx_sound.specs.Image.{AreStanding, points_in};

use fx_item::{Bound, Item, Key, Value};

/// How many items end at the place or before it.
fn passed(items: &[Item], place: &Bound<'_>) -> usize
    requires { AreStanding (items_of items.now) }
    ensures bound { result ≤ length items.now }
    ensures before { (i : ℕ) (x : PlainItem) → i < result
        → slice_get (items_of items.now) i ≡ Some x
        → line.Upto (line.ends x.key) (bound_of place.now) }
    ensures behind { (i : ℕ) (x : PlainItem) → result ≤ i
        → slice_get (items_of items.now) i ≡ Some x
        → line.Below (bound_of place.now) (line.ends x.key) }
{
    items.partition_point(|item| item.key.ends_by(place))
}

/// What stands under the key of a point.
pub(crate) fn value_at<'a>(items: &'a [Item], key: &Key) -> Option<&'a Value>
    requires standing { AreStanding (items_of items.now) }
    requires point { is_point_key (key_of key.now) ≡ true }
    ensures { option_map value_of (option_copied result)
        ≡ value_under (points_in (items_of items.now)) (key_of key.now) }
{
    let place = key.begins();
    let Some(item) = items.get(passed(items, &place)) else {
        return None;
    };
    if item.key.begins().compare(&place).is_le() {
        return Some(&item.value);
    }
    None
}
