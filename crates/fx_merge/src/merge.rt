//! The overlay of several levels, item by item.
ghost use Rattle.std.specs.Prelude.{◌≡◌, ℕ, List, Contains, Some, None, IfOk, IfErr, IfSome, option_map, map};
ghost use Rattle.fx_item.specs.Item.{PlainItem, IsItem, item_of, key_of};
ghost use Rattle.fx_item.specs.Place.{Place, Below, begins, ends, edge_at};
ghost use Rattle.fx_item.specs.Look.{FindsFrom, MayFail};
ghost use Rattle.fx_merge.specs.Cursor.{edges_of, says_all};
ghost use Rattle.fx_merge.specs.Merge.{MergeState, merge_state, place_now, IsOnward, IsRemainder, IsGiven, IsTrimmed, IsTrimmedLast, after_item};

#[cfg(test)]
use crate::cursor::stale_pairs;
use crate::cursor::{Cursor, cursor_of, first};
use fx_base::List;
use fx_item::{Edge, Item, Key, Level, LookFault, Meet, Merger, Value};
use std::alloc::{AllocError, Global};
use std::marker::{Model, PhantomData};

/// Levels, the newest first.
pub type LayerRefs<'a, L> = List<&'a L>;

/// What is left of an item behind another one, past whose end it ends, where that is not all of it.
fn behind<M: Merger>(alloc: Global, last: &Item, item: &Item) -> Result<Option<Item>, AllocError>
    requires last { IsItem (item_of last.now) }
    requires item { IsItem (item_of item.now) }
    requires reaches { Below (ends (key_of last.now.key)) (ends (key_of item.now.key)) }
    ensures { IfOk result (λ rest. IsRemainder (item_of last.now) (item_of item.now) rest) }
{
    match M::meet(alloc, last, item) {
        Err(fault) => Err(fault),
        Ok(Meet::Apart) => Ok(None),
        Ok(Meet::Hidden) => unreachable!(),
        Ok(Meet::Cut { left: _, right }) => {
            let Some(piece) = right else {
                unreachable!();
            };
            Ok(Some(piece))
        }
    }
}

/// What is left of an item behind another one, past whose end it ends.
fn trimmed<M: Merger>(alloc: Global, last: &Item, item: Item) -> Result<Item, AllocError>
    requires last { IsItem (item_of last.now) }
    requires item { IsItem (item_of item) }
    requires reaches { Below (ends (key_of last.now.key)) (ends (key_of item.key)) }
    ensures { IfOk result (λ x. IsTrimmed (item_of last.now) (item_of item) (item_of x)) }
{
    match behind::<M>(alloc, last, &item) {
        Err(fault) => Err(fault),
        Ok(None) => Ok(item),
        Ok(Some(part)) => Ok(part),
    }
}

/// What is left of an item behind the last one.
fn behind_last<M: Merger>(
    alloc: Global,
    last: &Option<Item>,
    item: Item,
) -> Result<Item, AllocError>
    requires last { IsGiven (option_map item_of last.now) }
    requires item { IsItem (item_of item) }
    requires reaches { IfSome last.now
        (λ last. Below (ends (key_of last.key)) (ends (key_of item.key))) }
    ensures { IfOk result
        (λ x. IsTrimmedLast (option_map item_of last.now) (item_of item) (item_of x)) }
{
    match last {
        None => Ok(item),
        Some(last) => trimmed::<M>(alloc, last, item),
    }
}

/// Where a merge goes on.
fn go_on<'a>(from: &'a Key, last: &'a Option<Item>) -> (Edge, &'a Key)
    ensures { edge_at result.0 (key_of result.1.now)
        ≡ place_now (key_of from.now) (option_map item_of last.now) }
{
    match last {
        None => (Edge::Begin, from),
        Some(item) => (Edge::End, &item.key),
    }
}

/// The items of the overlay of several levels, in order, tombstones among them.
#[derive(Drop)]
pub struct Merge<'a, M: Merger, L: Level> {
    cursor: Cursor<'a, L>,
    from: Key,
    /// A tombstone under the key of the item that was given last.
    last: Option<Item>,
    merger: PhantomData<M>,
}

impl<'a, M: Merger, L: Level> Model for Merge<'a, M, L> {
    ghost use Rattle.std.specs.Prelude.{option_map};
    ghost use Rattle.fx_item.specs.Item.{item_of, key_of};
    ghost use Rattle.fx_merge.specs.Cursor.{AllHold, levels_of};
    ghost use Rattle.fx_merge.specs.Merge.{MergeState, place_now, merge_state, IsGiven};

    ghost Value = { MergeState };

    ghost view = { λ m. merge_state (λ l. L.items l.now) (λ l. L.lacks l.now)
        (levels_of m.cursor) (key_of m.from) (option_map item_of m.last) };

    ghost invariant = { λ m.
        AllHold (λ l. L.items l.now)
        (place_now (key_of m.from) (option_map item_of m.last)) m.cursor
        × IsGiven (option_map item_of m.last) };
}

impl<'a, M: Merger, L: Level> Merge<'a, M, L> {
    /// The items of these levels that end past where a key begins. Costs a node of the tree for each
    /// level; nothing is looked up yet.
    pub fn new(
        alloc: Global,
        levels: LayerRefs<'a, L>,
        from: Key,
    ) -> Result<Merge<'a, M, L>, AllocError>
        ensures { IfOk result (λ merge. merge ≡ merge_state (λ l. L.items l.now)
            (λ l. L.lacks l.now) levels.entry (key_of from) None) }
    {
        let cursor = cursor_of(alloc, levels.as_slice())?;
        Ok(Merge {
            cursor,
            from,
            last: None,
            merger: PhantomData,
        })
    }

    /// The next item, which may be a tombstone; none where no level says anything more. The first one
    /// may begin before the key that the merge began at. Each item costs a look into its level, and
    /// a comparison with the best of as many nodes as the logarithm of the number of levels. After a
    /// fault the call may be made again.
    pub fn next(&mut self, alloc: Global) -> Result<Option<Item>, LookFault>
        ensures found { IfOk result (λ found. FindsFrom (says_all self.old.levels)
            self.old.place (option_map item_of found)) }
        ensures goes_on { IfOk result (λ found. IsOnward self.old (option_map item_of found)) }
        ensures edge { IfOk result (λ found. IfSome found
            (λ item. Contains (edges_of self.old.levels) (ends (key_of item.key)))) }
        ensures after { IfOk result (λ found. self.new
            ≡ after_item self.old (option_map item_of found)) }
        ensures fault { IfErr result (MayFail self.old.lacks) }
        ensures again { IfErr result (λ _. self.new ≡ self.old) }
    {
        let (edge, key) = go_on(&self.from, &self.last);
        let found = match first::<M, L>(&mut self.cursor, alloc, edge, key) {
            Err(fault) => return Err(fault),
            Ok(found) => found,
        };
        let Some(item) = found else {
            return Ok(None);
        };
        let item = match behind_last::<M>(alloc, &self.last, item) {
            Err(_) => return Err(LookFault::OutOfMemory),
            Ok(item) => item,
        };
        let Ok(key) = item.key.clone() else {
            return Err(LookFault::OutOfMemory);
        };
        self.last = Some(Item {
            key,
            value: Value::Gone,
        });
        Ok(Some(item))
    }

    /// How many pairs of heads the next call compares.
    #[cfg(test)]
    pub(crate) fn pairs_to_compare(&self) -> u64 {
        let (edge, key) = go_on(&self.from, &self.last);
        stale_pairs(&self.cursor, &key.edge(edge))
    }
}
