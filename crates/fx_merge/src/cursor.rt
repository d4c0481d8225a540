//! A tree over the levels of a merge: each node knows what comes first in its two halves.
ghost use Rattle.std.specs.Prelude.{◌≡◌, ℕ, List, map, IfOk, IfErr, option_map};
ghost use Rattle.std.specs.List.{flat_map};
ghost use Rattle.std.specs.Borrow.{Bor};
ghost use Rattle.fx_item.specs.Item.{PlainItem, item_of, key_of};
ghost use Rattle.fx_item.specs.Place.{Place, edge_at};
ghost use Rattle.fx_item.specs.Look.{MayFail};
ghost use Rattle.fx_merge.specs.Choice.{head_item};
ghost use Rattle.fx_merge.specs.Cursor.{levels_of, level_lists, AllHold, HeadHolds, FindsIn};

use crate::choice::{Head, take_first};
#[cfg(test)]
use fx_item::Bound;
use fx_item::{Edge, Item, Key, Level, LookFault, Merger};
use std::alloc::{AllocError, Global};

/// The levels below a node, the newest first.
#[cycle(tree)]
#[derive(Drop)]
pub(crate) enum Cursor<'a, L> {
    Empty,
    One(&'a L),
    Two(Box<Fork<'a, L>>),
}

/// Newer levels and older ones.
#[cycle(tree)]
#[derive(Drop)]
pub(crate) struct Fork<'a, L> {
    newer: Half<'a, L>,
    older: Half<'a, L>,
}

/// Levels, and what was found first in them and was not given yet.
#[cycle(tree)]
#[derive(Drop)]
pub(crate) struct Half<'a, L> {
    head: Head,
    levels: Cursor<'a, L>,
}

/// A tree over these levels, in which nothing was looked up.
pub(crate) fn cursor_of<'a, L>(alloc: Global, levels: &[&'a L]) -> Result<Cursor<'a, L>, AllocError>
    ensures levels { IfOk result (λ cursor. levels_of cursor ≡ levels.now) }
    ensures holds { IfOk result (λ cursor. (items : Bor L → List PlainItem) (place : Place)
        → AllHold items place cursor) }
{
    match levels {
        [] => Ok(Cursor::Empty),
        [level] => Ok(Cursor::One(level)),
        _ => {
            let (newer, older) = levels.split_at(levels.len() / 2);
            let newer = cursor_of(alloc, newer)?;
            let older = cursor_of(alloc, older)?;
            let newer = Half {
                head: Head::Unknown,
                levels: newer,
            };
            let older = Half {
                head: Head::Unknown,
                levels: older,
            };
            let fork = Box::new(alloc, Fork { newer, older })?;
            Ok(Cursor::Two(fork))
        }
    }
}

/// What comes first in the levels from where a key begins or ends. On a fault the call may be made
/// again.
#[cycle(looking)]
pub(crate) fn first<M: Merger, L: Level>(
    cursor: &mut Cursor<'_, L>,
    alloc: Global,
    edge: Edge,
    key: &Key,
) -> Result<Option<Item>, LookFault>
    requires { AllHold (λ l. L.items l.now) (edge_at edge (key_of key.now)) cursor.old }
    ensures levels { levels_of cursor.new ≡ levels_of cursor.old }
    ensures holds { AllHold (λ l. L.items l.now) (edge_at edge (key_of key.now)) cursor.new }
    ensures found { IfOk result (λ found. FindsIn (level_lists (λ l. L.items l.now) cursor.old)
        (edge_at edge (key_of key.now)) (option_map item_of found)) }
    ensures fault { IfErr result
        (MayFail (flat_map (λ l. L.lacks l.now) (levels_of cursor.old))) }
{
    match cursor {
        Cursor::Empty => Ok(None),
        Cursor::One(level) => level.next(alloc, edge, key),
        Cursor::Two(fork) => {
            let fork: &mut Fork<'_, L> = fork;
            if let Err(fault) = bring_up::<M, L>(&mut fork.newer, alloc, edge, key) {
                return Err(fault);
            }
            if let Err(fault) = bring_up::<M, L>(&mut fork.older, alloc, edge, key) {
                return Err(fault);
            }
            let first = take_first::<M>(
                alloc,
                &key.edge(edge),
                &mut fork.newer.head,
                &mut fork.older.head,
            )?;
            Ok(first)
        }
    }
}

/// What comes first in one half, unless that is known.
#[cycle(looking)]
fn bring_up<M: Merger, L: Level>(
    half: &mut Half<'_, L>,
    alloc: Global,
    edge: Edge,
    key: &Key,
) -> Result<(), LookFault>
    requires head { HeadHolds (level_lists (λ l. L.items l.now) half.old.levels)
        (edge_at edge (key_of key.now)) half.old.head }
    requires half { AllHold (λ l. L.items l.now) (edge_at edge (key_of key.now)) half.old.levels }
    ensures levels { levels_of half.new.levels ≡ levels_of half.old.levels }
    ensures head { HeadHolds (level_lists (λ l. L.items l.now) half.old.levels)
        (edge_at edge (key_of key.now)) half.new.head }
    ensures half { AllHold (λ l. L.items l.now) (edge_at edge (key_of key.now)) half.new.levels }
    ensures first { IfOk result (λ _. FindsIn (level_lists (λ l. L.items l.now) half.old.levels)
        (edge_at edge (key_of key.now)) (head_item half.new.head)) }
    ensures fault { IfErr result
        (MayFail (flat_map (λ l. L.lacks l.now) (levels_of half.old.levels))) }
{
    if half.head.reaches(&key.edge(edge)) {
        return Ok(());
    }
    match first::<M, L>(&mut half.levels, alloc, edge, key) {
        Err(fault) => Err(fault),
        Ok(found) => {
            half.head = Head::Known(found);
            Ok(())
        }
    }
}

/// How many pairs of heads `first` compares.
#[cfg(test)]
pub(crate) fn stale_pairs<L>(cursor: &Cursor<'_, L>, place: &Bound<'_>) -> u64 {
    match cursor {
        Cursor::Empty => 0,
        Cursor::One(_) => 0,
        Cursor::Two(fork) => {
            let mut pairs: u64 = 1;
            if !fork.newer.head.reaches(place) {
                pairs = pairs.saturating_add(stale_pairs(&fork.newer.levels, place));
            }
            if !fork.older.head.reaches(place) {
                pairs = pairs.saturating_add(stale_pairs(&fork.older.levels, place));
            }
            pairs
        }
    }
}
