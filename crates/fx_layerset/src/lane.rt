//! Lists of levels, the oldest first.
ghost use Rattle.std.specs.Prelude.{◌≡◌, ◌+◌, ◌<◌, ◌≤◌, ◌++◌, ◌∷◌, length, drop, reverse, map, IfOk, IfErr, vec_capacity, vec_len, option_map};
ghost use Rattle.std.specs.Arc.{arc_value};
ghost use Rattle.fx_item.specs.Item.{key_of, value_of};
ghost use Rattle.fx_item.specs.Overlay.{AtKey};
ghost use Rattle.fx_item.specs.Look.{MayFail, spoken};
ghost use Rattle.fx_layerset.specs.Levels.{level_in, levels_in, lacked_by, said_over, below_newest, batch_level};

use crate::layered::{Layered, LevelList, share};
use fx_batch::Batch;
use fx_item::{Key, Level, LookFault, Value};
use std::alloc::{AllocError, Global};
use std::sync::Arc;

/// The levels of one kind.
pub(crate) type Lane<L> = Vec<Layered<L>>;

/// Takes the oldest levels away.
pub(crate) fn drop_oldest<L: Level + Drop>(lane: &mut Lane<L>, count: usize)
    requires { count ≤ vec_len lane.old }
    ensures items { lane.new.items ≡ drop count lane.old.items }
    ensures room { vec_capacity lane.new ≡ vec_capacity lane.old }
{
    lane.drain(..count);
}

/// Puts one level in the place of the oldest ones.
pub(crate) fn put_oldest<L: Level + Drop>(lane: &mut Lane<L>, count: usize, level: Layered<L>)
    requires some { 0 < count }
    requires all { count ≤ vec_len lane.old }
    ensures items { lane.new.items ≡ level ∷ drop count lane.old.items }
    ensures room { vec_capacity lane.new ≡ vec_capacity lane.old }
{
    lane[0] = level;
    lane.drain(1..count);
}

/// Puts levels in the place of the newest ones.
pub(crate) fn put_newest<L: Level + Drop>(lane: &mut Lane<L>, count: usize, new: LevelList<L>)
    requires { length (below_newest count lane.old.items) + length new ≤ vec_capacity lane.old }
    ensures items { lane.new.items ≡ below_newest count lane.old.items ++ new }
    ensures room { vec_capacity lane.old ≤ vec_capacity lane.new }
{
    let stay = lane.len().saturating_sub(count);
    lane.truncate(stay);
    let mut new = new.into_vec();
    let Ok(()) = lane.append(&mut new) else {
        unreachable!();
    };
}

/// The same levels, shared.
pub(crate) fn share_all<L: Level + Drop>(
    alloc: Global,
    lane: &[Layered<L>],
) -> Result<Lane<L>, AllocError>
    ensures { IfOk result (λ shared. levels_in L.items L.lacks shared.items
        ≡ levels_in L.items L.lacks lane.now) }
{
    let mut shared = Vec::with_capacity(alloc, lane.len())?;
    for level in lane {
        let one = share(level)?;
        shared.push_reserved(one);
    }
    Ok(shared)
}

/// Appends levels to those that are looked up, the newest first.
pub(crate) fn push_newest_first<'a, L: Level + Drop>(
    refs: &mut Vec<&'a Layered<L>>,
    lane: &'a [Layered<L>],
) -> Result<(), AllocError>
    ensures { IfOk result (λ _. map (λ l. level_in L.items L.lacks l.now) refs.new.items
        ≡ map (λ l. level_in L.items L.lacks l.now) refs.old.items
        ++ reverse (levels_in L.items L.lacks lane.now)) }
{
    let mut rest = lane;
    while let Some((newest, older)) = rest.split_last() {
        refs.push(newest)?;
        rest = older;
    }
    Ok(())
}

/// What the newest level says that says something under the key of a point: a binary search in each
/// level before it.
pub(crate) fn newest_value<L: Level + Drop>(
    lane: &[Layered<L>],
    alloc: Global,
    key: &Key,
) -> Result<Option<Value>, LookFault>
    ensures found { IfOk result (λ found. spoken (option_map value_of found)
        ≡ said_over (reverse (levels_in L.items L.lacks lane.now)) (AtKey (key_of key.now))) }
    ensures fault { IfErr result
        (MayFail (lacked_by (reverse (levels_in L.items L.lacks lane.now)))) }
{
    let mut rest = lane;
    while let Some((level, older)) = rest.split_last() {
        match level.get(alloc, key) {
            Err(fault) => return Err(fault),
            Ok(Some(value)) => return Ok(Some(value)),
            Ok(None) => {}
        }
        rest = older;
    }
    Ok(None)
}
