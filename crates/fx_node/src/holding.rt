//! What a node holds: its attributes and its blocks.
ghost use Rattle.std.specs.Prelude.{◌≡◌, ◌≤◌, IfErr, IfOk, option_map, length};
ghost use Rattle.fx_item.specs.Item.{IsItem, item_of};
ghost use Rattle.fx_item.specs.Look.{MayFail};
ghost use Rattle.fx_item.specs.Overlay.{live_in};
ghost use Rattle.fx_item.specs.Place.{Below, ends, file_place};
ghost use Rattle.fx_node.specs.Held.{AreFirstNames, AreFirstRuns, IsNextAttribute, IsNextRun, attribute_name_at, extent_run};

use fx_dir::name_after;
use fx_item::{Item, Key, LockKey, Look, LookFault, Name, Value};
use std::alloc::Global;

/// Blocks of a file that lie in blocks of the device that follow each other: its places from
/// `start` on, up to `end`, lie from `block` on.
#[derive(Clone, Copy)]
pub(crate) struct BlockRun {
    pub(crate) start: u32,
    pub(crate) end: u32,
    pub(crate) block: u32,
}

/// The names of a node's first attributes, and whether these are all.
#[derive(Drop)]
pub(crate) struct FirstNames {
    pub(crate) names: Vec<Name>,
    pub(crate) all: bool,
}

/// The first runs of a node's blocks, and whether these are all.
#[derive(Drop)]
pub(crate) struct FirstRuns {
    pub(crate) runs: Vec<BlockRun>,
    pub(crate) all: bool,
}

/// The first attributes of a node, at most so many. One look for each, and one more.
pub(crate) fn first_attributes<L: Look>(
    alloc: Global,
    look: &L,
    at: LockKey,
    most: usize,
) -> Result<FirstNames, LookFault>
    ensures first { IfOk result (λ first.
        AreFirstNames (live_in (L.said look.now)) at most first.names.items first.all) }
    ensures fault { IfErr result (MayFail (L.lacks look.now)) }
{
    let mut names = Vec::new(alloc);
    let mut from = Name::new(Vec::new(alloc));
    'names: while names.len() < most {
        let Some(name) = next_attribute(alloc, look, at, from)? else {
            return Ok(FirstNames { names, all: true });
        };
        from = name_after(alloc, &name)?;
        names.push(name)?;
    }
    let next = next_attribute(alloc, look, at, from)?;
    Ok(FirstNames {
        names,
        all: next.is_none(),
    })
}

/// The first attribute's name from a name on. One look.
fn next_attribute<L: Look>(
    alloc: Global,
    look: &L,
    at: LockKey,
    from: Name,
) -> Result<Option<Name>, LookFault>
    ensures next { IfOk result (λ found.
        IsNextAttribute (live_in (L.said look.now)) at from found) }
    ensures fault { IfErr result (MayFail (L.lacks look.now)) }
{
    let key = Key::Attribute {
        store: at.store,
        id: at.id,
        name: from,
    };
    Ok(attribute_name(at, look.next_from(alloc, &key)?))
}

/// The name under which an item is an attribute of a node, if it is one.
fn attribute_name(at: LockKey, item: Option<Item>) -> Option<Name>
    ensures { result ≡ attribute_name_at at (option_map item_of item) }
{
    let Some(Item { key, .. }) = item else {
        return None;
    };
    match key {
        Key::Attribute { store, id, name } if LockKey { store, id } == at => Some(name),
        _ => None,
    }
}

/// The first runs of a node's blocks, at most so many. One look for each, and one more.
pub(crate) fn first_runs<L: Look>(
    alloc: Global,
    look: &L,
    at: LockKey,
    most: usize,
) -> Result<FirstRuns, LookFault>
    ensures first { IfOk result (λ first.
        AreFirstRuns (live_in (L.said look.now)) at most first.runs.items first.all) }
    ensures fault { IfErr result (MayFail (L.lacks look.now)) }
{
    let mut runs = Vec::new(alloc);
    let mut from = 0;
    'runs: while runs.len() < most {
        let Some(run) = next_run(alloc, look, at, from)? else {
            return Ok(FirstRuns { runs, all: true });
        };
        from = run.end;
        runs.push(run)?;
    }
    let next = next_run(alloc, look, at, from)?;
    Ok(FirstRuns {
        runs,
        all: next.is_none(),
    })
}

/// The first run of a node's blocks from a place on. One look.
fn next_run<L: Look>(
    alloc: Global,
    look: &L,
    at: LockKey,
    from: u32,
) -> Result<Option<BlockRun>, LookFault>
    ensures next { IfOk result (λ found. IsNextRun (live_in (L.said look.now)) at from found) }
    ensures fault { IfErr result (MayFail (L.lacks look.now)) }
{
    let key = Key::Extent {
        store: at.store,
        id: at.id,
        start: from,
        end: from,
    };
    match look.next_from(alloc, &key) {
        Ok(Some(item)) => Ok(run_in(&item, at, from)),
        Ok(None) => Ok(None),
        Err(fault) => Err(fault),
    }
}

/// The run of an item that ends past a place of a file, from that place on, if it is an extent of
/// that file.
fn run_in(item: &Item, at: LockKey, from: u32) -> Option<BlockRun>
    requires good { IsItem (item_of item.now) }
    requires reaches { Below (file_place at.store at.id from) (ends (item_of item.now).key) }
    ensures { result ≡ extent_run at from (item_of item.now) }
{
    let (
        Key::Extent {
            store,
            id,
            start,
            end,
        },
        Value::Extent { block, .. },
    ) = (&item.key, &item.value)
    else {
        return None;
    };
    if *store != at.store || *id != at.id {
        return None;
    }
    let first = (*start).max(from);
    Some(BlockRun {
        start: first,
        end: *end,
        block: *block + (first - *start),
    })
}
