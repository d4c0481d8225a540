//! The first fault of an image.
ghost use Rattle.std.specs.Prelude.{◌≡◌, ◌↔◌, ◌<◌, ◌^◌, All, IfNone, IfOk, IfSome, IsTrue, false, length};
ghost use Rattle.fx_item.specs.Item.{item_of, items_of, value_of};
ghost use Rattle.fx_item.specs.Look.{is_gone};
ghost use Rattle.fx_sound.specs.Faults.{IsFirstFault};
ghost use Rattle.fx_sound.specs.Image.{AreStanding};
ghost use Rattle.fx_sound.specs.Parts.{IsSoundImage};
ghost use Rattle.fx_audit.specs.Audited.{plain_image};

use crate::blocks::unsound_block;
use crate::image::Audited;
use crate::nodes::bad_node;
use crate::room::cramped;
use fx_item::Item;
use fx_sound::ImageFault;
use std::alloc::{AllocError, Global};

/// The first fault of an image: the least node at which something is amiss, else the least unsound
/// block, else that it is cramped; none exactly where the image is sound. Costs a few passes over
/// the items, a search by halves for each, the check of names, and a pass over three tables of the
/// greatest device's blocks.
pub fn audit(alloc: Global, image: &Audited) -> Result<Option<ImageFault>, AllocError>
    requires standing { AreStanding (items_of image.now.items.now) }
    requires items { length image.now.items.now < 2 ^ 32 }
    requires layers { length image.now.layers.now < 2 ^ 32 }
    ensures sound { IfOk result (λ found. IfNone found (IsSoundImage (plain_image image.now))) }
    ensures first { IfOk result (λ found. IfSome found (IsFirstFault (plain_image image.now))) }
{
    if let Some(node) = bad_node(alloc, image)? {
        return Ok(Some(ImageFault::BadTree {
            store: node.store,
            id: node.id,
        }));
    }
    if let Some(block) = unsound_block(alloc, image)? {
        return Ok(Some(ImageFault::Unsound(block)));
    }
    if let Some(free) = cramped(image) {
        return Ok(Some(ImageFault::Cramped(free)));
    }
    Ok(None)
}

/// Whether no item is a tombstone. One pass.
pub fn has_no_tombstone(items: &[Item]) -> bool
    ensures { IsTrue result ↔ All (λ item. is_gone (value_of item.value) ≡ false) items.now }
{
    items.iter().all(|item| !item.value.is_gone())
}
