//! How two items meet.
ghost use Rattle.std.specs.Prelude.{◌≡◌, IfOk};
ghost use Rattle.fx_item.specs.Item.{item_of, key_of, IsItem};
ghost use Rattle.fx_item.specs.Place.{Below, begins, ends};
ghost use Rattle.fx_item.specs.Meeting.{IsLeftPart, IsRightPart, Meets};

use crate::part::cut;
use fx_item::{Item, Meet, Merger};
use std::alloc::{AllocError, Global};

/// What is left of the older item before the newer one begins.
fn left_of(alloc: Global, newer: &Item, older: &Item) -> Result<Option<Item>, AllocError>
    requires good { IsItem (item_of older.now) }
    requires reaches { Below (begins (key_of newer.now.key)) (ends (key_of older.now.key)) }
    ensures { IfOk result (λ left. IsLeftPart (item_of newer.now) (item_of older.now) left) }
{
    let end = newer.key.begins();
    let begin = older.key.begins();
    if end.compare(&begin).is_le() {
        return Ok(None);
    }
    let piece = cut(alloc, older, begin.number, end.number)?;
    Ok(Some(piece))
}

/// What is left of the older item after the newer one ends.
fn right_of(alloc: Global, newer: &Item, older: &Item) -> Result<Option<Item>, AllocError>
    requires good { IsItem (item_of older.now) }
    requires reaches { Below (begins (key_of older.now.key)) (ends (key_of newer.now.key)) }
    ensures { IfOk result (λ right. IsRightPart (item_of newer.now) (item_of older.now) right) }
{
    let begin = newer.key.ends();
    let end = older.key.ends();
    if end.compare(&begin).is_le() {
        return Ok(None);
    }
    let piece = cut(alloc, older, begin.number, end.number)?;
    Ok(Some(piece))
}

/// What the newer item leaves of the older one, whatever their kinds: two comparisons where they are
/// apart, and two more, with the copies of the parts, where they meet.
fn meet_items(alloc: Global, newer: &Item, older: &Item) -> Result<Meet, AllocError>
    requires newer { IsItem (item_of newer.now) }
    requires older { IsItem (item_of older.now) }
    ensures { IfOk result (λ m. Meets (item_of newer.now) (item_of older.now) m) }
{
    if newer.key.ends_by(&older.key.begins()) {
        return Ok(Meet::Apart);
    }
    if older.key.ends_by(&newer.key.begins()) {
        return Ok(Meet::Apart);
    }
    let left = left_of(alloc, newer, older)?;
    let right = right_of(alloc, newer, older)?;
    match (left, right) {
        (None, None) => Ok(Meet::Hidden),
        (left, right) => Ok(Meet::Cut { left, right }),
    }
}

/// Items of the object tree: nodes, attributes, extents, children and graves.
pub struct ObjectMerger {}

impl Merger for ObjectMerger {
    fn meet(alloc: Global, newer: &Item, older: &Item) -> Result<Meet, AllocError> {
        meet_items(alloc, newer, older)
    }
}

/// Extents of files.
pub struct ExtentMerger {}

impl Merger for ExtentMerger {
    fn meet(alloc: Global, newer: &Item, older: &Item) -> Result<Meet, AllocError> {
        meet_items(alloc, newer, older)
    }
}

/// Items of the allocator's tree: ranges of the device.
pub struct AllocMerger {}

impl Merger for AllocMerger {
    fn meet(alloc: Global, newer: &Item, older: &Item) -> Result<Meet, AllocError> {
        meet_items(alloc, newer, older)
    }
}
