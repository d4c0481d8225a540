//! The places that keys begin and end at, on one line of all points.
ghost use Rattle.std.specs.Prelude.{◌≡◌, [], Some};
ghost use Rattle.std.specs.Ordering.{is_le};
ghost use Rattle.fx_item.specs.Item.{key_of};
ghost use Rattle.fx_item.specs.Place as line;
ghost use Rattle.fx_item.specs.Place.{bound_of, edge_at};

use crate::item::Key;
use crate::writing::{ALLOCATION, ATTRIBUTE, CHILD, EXTENT, GRAVE, OBJECT};
use std::cmp::Ordering;

/// Where a key begins, or where it ends.
#[derive(Clone, Copy, Debug, PartialEq, Eq)]
pub enum Edge {
    Begin,
    End,
}

/// A place on the line of points: the parts are compared from left to right. `number` is that of a
/// block in a range, `past` is 1 just behind a point.
#[derive(Clone, Copy)]
pub struct Bound<'a> {
    pub tree: u8,
    pub store: u32,
    pub id: u64,
    pub kind: u8,
    pub number: u32,
    pub name: &'a [u8],
    pub past: u8,
}

impl Bound<'_> {
    /// How two places lie. At most one comparison of names.
    pub fn compare(&self, other: &Bound<'_>) -> Ordering
        ensures { result ≡ line.place_cmp (bound_of self.now) (bound_of other.now) }
    {
        let name = self.name.cmp(other.name).then(self.past.cmp(&other.past));
        let number = self.number.cmp(&other.number).then(name);
        let kind = self.kind.cmp(&other.kind).then(number);
        let id = self.id.cmp(&other.id).then(kind);
        self.tree
            .cmp(&other.tree)
            .then(self.store.cmp(&other.store).then(id))
    }
}

fn key_place(store: u32, id: u64, kind: u8, name: &[u8], past: u8) -> Bound<'_>
    ensures { bound_of result ≡ line.key_place store id kind name.now past }
{
    Bound {
        tree: 0,
        store,
        id,
        kind,
        number: 0,
        name,
        past,
    }
}

fn file_place<'a>(store: u32, id: u64, number: u32) -> Bound<'a>
    ensures { bound_of result ≡ line.file_place store id number }
{
    Bound {
        tree: 0,
        store,
        id,
        kind: EXTENT,
        number,
        name: &[],
        past: 0,
    }
}

fn device_place<'a>(number: u32) -> Bound<'a>
    ensures { bound_of result ≡ line.device_place number }
{
    Bound {
        tree: 1,
        store: 0,
        id: 0,
        kind: ALLOCATION,
        number,
        name: &[],
        past: 0,
    }
}

impl Key {
    /// Where the key begins.
    pub fn begins(&self) -> Bound<'_>
        ensures { bound_of result ≡ line.begins (key_of self.now) }
    {
        match self {
            Key::Object { store, id } => key_place(*store, *id, OBJECT, &[], 0),
            Key::Attribute { store, id, name } => {
                key_place(*store, *id, ATTRIBUTE, name.as_slice(), 0)
            }
            Key::Extent {
                store,
                id,
                start,
                ..
            } => file_place(*store, *id, *start),
            Key::Child { store, id, name } => key_place(*store, *id, CHILD, name.as_slice(), 0),
            Key::Grave { store, id } => key_place(*store, *id, GRAVE, &[], 0),
            Key::Allocation { start, .. } => device_place(*start),
        }
    }

    /// Where the key ends.
    pub fn ends(&self) -> Bound<'_>
        ensures { bound_of result ≡ line.ends (key_of self.now) }
    {
        match self {
            Key::Object { store, id } => key_place(*store, *id, OBJECT, &[], 1),
            Key::Attribute { store, id, name } => {
                key_place(*store, *id, ATTRIBUTE, name.as_slice(), 1)
            }
            Key::Extent { store, id, end, .. } => file_place(*store, *id, *end),
            Key::Child { store, id, name } => key_place(*store, *id, CHILD, name.as_slice(), 1),
            Key::Grave { store, id } => key_place(*store, *id, GRAVE, &[], 1),
            Key::Allocation { end, .. } => device_place(*end),
        }
    }

    /// One of the two.
    pub fn edge(&self, edge: Edge) -> Bound<'_>
        ensures { bound_of result ≡ edge_at edge (key_of self.now) }
    {
        match edge {
            Edge::Begin => self.begins(),
            Edge::End => self.ends(),
        }
    }

    /// Whether the key ends at the place or before it.
    pub fn ends_by(&self, place: &Bound<'_>) -> bool
        ensures { result
            ≡ is_le (line.place_cmp (line.ends (key_of self.now)) (bound_of place.now)) }
    {
        self.ends().compare(place).is_le()
    }
}
