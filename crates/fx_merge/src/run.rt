//! Several items of a merge at once.
ghost use Rattle.std.specs.Prelude.{◌≡◌, IfOk, IfErr, option_map};
ghost use Rattle.fx_item.specs.Item.{item_of, items_of};
ghost use Rattle.fx_item.specs.Look.{FindsLive, MayFail};
ghost use Rattle.fx_merge.specs.Cursor.{says_all};
ghost use Rattle.fx_merge.specs.Run.{IsMerged, HasMoved, HasPassed, IsAtEnd, IsBehind};

use crate::merge::Merge;
use fx_item::{Item, Items, Level, LookFault, Merger};
use std::alloc::Global;

/// The next item of a merge that is no tombstone. It passes over the tombstones before it. After a
/// fault the call may be made again, and goes on behind the tombstones that it passed.
pub fn next_live<M: Merger, L: Level>(
    alloc: Global,
    merge: &mut Merge<'_, M, L>,
) -> Result<Option<Item>, LookFault>
    ensures found { IfOk result (λ found. FindsLive (says_all merge.old.levels)
        merge.old.place (option_map item_of found)) }
    ensures after { IfOk result (λ found. IsBehind merge.old merge.new (option_map item_of found)) }
    ensures again { IfErr result (λ _. HasPassed merge.old merge.new) }
    ensures fault { IfErr result (MayFail merge.old.lacks) }
{
    loop {
        let found = match merge.next(alloc) {
            Err(fault) => return Err(fault),
            Ok(found) => found,
        };
        let Some(item) = found else {
            return Ok(None);
        };
        if !item.value.is_gone() {
            return Ok(Some(item));
        }
    }
}

/// All items that a merge has still to give, in order; the merge is then at its end. After a fault it
/// is somewhere on its way, and the items before that are lost.
pub fn drain<M: Merger, L: Level>(
    alloc: Global,
    merge: &mut Merge<'_, M, L>,
) -> Result<Items, LookFault>
    ensures merged { IfOk result (λ items. IsMerged merge.old (items_of items)) }
    ensures end { IfOk result (λ _. IsAtEnd merge.old merge.new) }
    ensures moved { IfErr result (λ _. HasMoved merge.old merge.new) }
    ensures fault { IfErr result (MayFail merge.old.lacks) }
{
    let mut items = Vec::new(alloc);
    loop {
        let found = match merge.next(alloc) {
            Err(fault) => return Err(fault),
            Ok(found) => found,
        };
        let Some(item) = found else {
            return Ok(Items::new(items));
        };
        let Ok(()) = items.push(item) else {
            return Err(LookFault::OutOfMemory);
        };
    }
}
