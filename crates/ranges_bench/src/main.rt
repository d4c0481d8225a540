//! Looks and merges of items beside std's maps and std's sort. `ranges_bench 6400 3 times` makes a
//! batch, a map of keys and a map of names, of 6,400 each, and in each of three rounds prints the
//! nanoseconds of 1,000 looks in each, of a merge of 64 levels with all the items, and of a sort of as
//! many keys. Without `times` it prints counts alone. `bench/ranges.py` makes ratios of them.
#![tactic(auto)]

ghost use Rattle.std.specs.Prelude.{◌≡◌, All, IfOk};
ghost use Rattle.fx_item.specs.Item.{IsItem, item_of, items_of};

use anyhow::{Context, Result};
use fx_batch::Batch;
use fx_extmerge::ObjectMerger;
use fx_item::{Item, Items, Key, Level, LookFault, Name, decode};
use fx_merge::{LayerRefs, Merge, drain};
use std::alloc::{AllocError, Global};
use std::collections::BTreeMap;
use std::env;
use std::rt::Runtime;
use std::time::Instant;

const LEVELS: u32 = 64;

const LOOKS: usize = 1000;

/// The letters of a number, from the lowest on: neighbours lie far apart.
fn letters(alloc: Global, number: u32) -> Result<Vec<u8>, AllocError> {
    let mut letters = Vec::with_capacity(alloc, 8)?;
    let mut rest = number;
    for _ in 0..8 {
        letters.push(b'a' + (rest % 16) as u8)?;
        rest /= 16;
    }
    Ok(letters)
}

fn push_all(bytes: &mut Vec<u8>, more: &[u8]) -> Result<(), AllocError> {
    for byte in more {
        bytes.push(*byte)?;
    }
    Ok(())
}

/// The child with that number of one directory.
fn child(alloc: Global, number: u32) -> Result<Item, AllocError>
    ensures { IfOk result (λ item. IsItem (item_of item)) }
{
    let letters = letters(alloc, number)?;
    let mut bytes = [4, 1, 0, 0, 0, 1, 0, 0, 0, 0, 0, 0, 0, 8].to_vec(alloc)?;
    push_all(&mut bytes, letters.as_slice())?;
    push_all(&mut bytes, &[4, 1, 0, 0, 0, 2, 0, 0, 0, 0, 0, 0, 0])?;
    match decode(alloc, bytes.as_slice()) {
        Ok((item, _)) => Ok(item),
        Err(_) => Err(AllocError),
    }
}

fn list_of_one(alloc: Global, number: u32) -> Result<Items, AllocError>
    ensures { IfOk result (λ items. All IsItem (items_of items)) }
{
    let mut items = Vec::new(alloc);
    let item = child(alloc, number)?;
    items.push(item)?;
    Ok(Items::new(items))
}

fn one(alloc: Global, number: u32) -> Result<Batch, AllocError> {
    let items = list_of_one(alloc, number)?;
    if items.len() >= 1 << 32 {
        return Err(AllocError);
    }
    match Batch::build(items) {
        Ok(batch) => Ok(batch),
        Err(_) => Err(AllocError),
    }
}

/// The numbers `first`, `first + step` and so on, so many, each in a batch of its own.
fn ones(alloc: Global, first: u32, step: u32, count: u32) -> Result<Vec<Batch>, AllocError> {
    let mut ones = Vec::new(alloc);
    for i in 0..count {
        let batch = one(alloc, first.wrapping_add(i.wrapping_mul(step)))?;
        ones.push(batch)?;
    }
    Ok(ones)
}

fn refs(alloc: Global, levels: &[Batch]) -> Result<LayerRefs<'_, Batch>, AllocError> {
    let mut refs = Vec::new(alloc);
    for level in levels {
        refs.push(level)?;
    }
    Ok(LayerRefs::new(refs))
}

fn merge_of(alloc: Global, levels: &[Batch]) -> Result<Merge<'_, ObjectMerger, Batch>, AllocError> {
    let refs = refs(alloc, levels)?;
    Merge::new(alloc, refs, Key::Object { store: 0, id: 0 })
}

/// All items of the levels as one batch.
fn merged(alloc: Global, levels: &[Batch]) -> Result<Batch, LookFault> {
    let mut merge = merge_of(alloc, levels)?;
    match drain(alloc, &mut merge) {
        Err(fault) => Err(fault),
        Ok(items) => Ok(Batch::of(items)),
    }
}

fn batch_of(alloc: Global, first: u32, step: u32, count: u32) -> Result<Batch, LookFault> {
    let ones = ones(alloc, first, step, count)?;
    merged(alloc, ones.as_slice())
}

/// So many numbers, in levels that lie in one another.
fn levels_of(alloc: Global, count: u32) -> Result<Vec<Batch>, LookFault> {
    let mut levels = Vec::new(alloc);
    for first in 0..LEVELS {
        let level = batch_of(alloc, first, LEVELS, count / LEVELS)?;
        levels.push(level)?;
    }
    Ok(levels)
}

/// The same numbers as keys, in no order.
fn keys_of(alloc: Global, count: u32) -> Result<Vec<Key>, AllocError> {
    let mut keys = Vec::new(alloc);
    for i in 0..count {
        let number = u64::from(i) * 7_919 % u64::from(count.max(1));
        let item = child(alloc, (number % (1 << 32)) as u32)?;
        keys.push(item.key)?;
    }
    Ok(keys)
}

fn map_of(alloc: Global, keys: &[Key]) -> Result<BTreeMap<Key, u32>, AllocError> {
    let mut map = BTreeMap::new(alloc);
    for key in keys {
        let key = key.clone()?;
        map.insert(key, 0)?;
    }
    Ok(map)
}

fn names_of(alloc: Global, keys: &[Key]) -> Result<Vec<Name>, AllocError> {
    let mut names = Vec::new(alloc);
    for key in keys {
        if let Key::Child { name, .. } = key {
            let name = name.clone()?;
            names.push(name)?;
        }
    }
    Ok(names)
}

fn name_map_of(alloc: Global, names: &[Name]) -> Result<BTreeMap<Name, u32>, AllocError> {
    let mut map = BTreeMap::new(alloc);
    for name in names {
        let name = name.clone()?;
        map.insert(name, 0)?;
    }
    Ok(map)
}

fn look_in_batch(alloc: Global, batch: &Batch, keys: &[Key]) -> Result<u32, LookFault> {
    let mut found: u32 = 0;
    for key in keys {
        if batch.get(alloc, key)?.is_some() {
            found = found.wrapping_add(1);
        }
    }
    Ok(found)
}

fn look_in_map(map: &BTreeMap<Key, u32>, keys: &[Key]) -> u32 {
    let mut found: u32 = 0;
    for key in keys {
        if map.get(key).is_some() {
            found = found.wrapping_add(1);
        }
    }
    found
}

fn look_in_names(map: &BTreeMap<Name, u32>, names: &[Name]) -> u32 {
    let mut found: u32 = 0;
    for name in names {
        if map.get(name).is_some() {
            found = found.wrapping_add(1);
        }
    }
    found
}

/// A map of names, and the names in no order.
#[derive(Drop)]
struct Names {
    names: Vec<Name>,
    map: BTreeMap<Name, u32>,
}

fn names_beside(alloc: Global, keys: &[Key]) -> Result<Names, AllocError> {
    let names = names_of(alloc, keys)?;
    let map = name_map_of(alloc, names.as_slice())?;
    Ok(Names { names, map })
}

/// What is measured, with the keys of all items.
#[derive(Drop)]
struct Sides {
    keys: Vec<Key>,
    batch: Batch,
    map: BTreeMap<Key, u32>,
    levels: Vec<Batch>,
}

fn sides_of(alloc: Global, count: u32) -> Result<Sides, LookFault> {
    let keys = keys_of(alloc, count)?;
    let map = map_of(alloc, keys.as_slice())?;
    let levels = levels_of(alloc, count)?;
    let batch = merged(alloc, levels.as_slice())?;
    Ok(Sides {
        keys,
        batch,
        map,
        levels,
    })
}

/// What was found in the batch and in the map of keys, and the nanoseconds of both.
fn looks<R: Runtime>(rt: &R, alloc: Global, sides: &Sides) -> Result<(u32, u32, u128, u128)> {
    let keys = &sides.keys[..LOOKS.min(sides.keys.len())];
    let start = Instant::now(rt)?;
    let in_batch = look_in_batch(alloc, &sides.batch, keys)?;
    let by_batch = start.elapsed(rt)?.as_nanos();
    let start = Instant::now(rt)?;
    let in_map = look_in_map(&sides.map, keys);
    let by_map = start.elapsed(rt)?.as_nanos();
    Ok((in_batch, in_map, by_batch, by_map))
}

/// What was found in the map of names, and the nanoseconds.
fn name_looks<R: Runtime>(rt: &R, names: &Names) -> Result<(u32, u128)> {
    let some = &names.names[..LOOKS.min(names.names.len())];
    let start = Instant::now(rt)?;
    let found = look_in_names(&names.map, some);
    let spent = start.elapsed(rt)?.as_nanos();
    Ok((found, spent))
}

/// How many items the merge gave, and its nanoseconds.
fn merging<R: Runtime>(rt: &R, alloc: Global, levels: &[Batch]) -> Result<(usize, u128)> {
    let start = Instant::now(rt)?;
    let batch = merged(alloc, levels)?;
    let spent = start.elapsed(rt)?.as_nanos();
    Ok((batch.as_slice().len(), spent))
}

/// The nanoseconds of a sort of so many keys.
fn sorting<R: Runtime>(rt: &R, alloc: Global, count: u32) -> Result<u128> {
    let mut keys = keys_of(alloc, count)?;
    let start = Instant::now(rt)?;
    keys.sort()?;
    let spent = start.elapsed(rt)?.as_nanos();
    Ok(spent)
}

/// One round, and its line.
fn round<R: Runtime>(
    rt: &R,
    alloc: Global,
    sides: (&Sides, &Names),
    count: u32,
    tells_times: bool,
) -> Result<()> {
    let (sides, names) = sides;
    let (in_batch, in_keys, by_batch, by_keys) = looks(rt, alloc, sides)?;
    let (in_names, by_names) = name_looks(rt, names)?;
    let (items, merge) = merging(rt, alloc, sides.levels.as_slice())?;
    let sort = sorting(rt, alloc, count)?;
    if tells_times {
        println!(rt; "{by_batch} {by_keys} {by_names} {merge} {sort}")?;
    } else {
        println!(rt; "{in_batch} {in_keys} {in_names} {items}")?;
    }
    Ok(())
}

fn rounds<R: Runtime>(
    rt: &R,
    alloc: Global,
    count: u32,
    rounds: u16,
    tells_times: bool,
) -> Result<()> {
    let sides = sides_of(alloc, count)?;
    let names = names_beside(alloc, sides.keys.as_slice())?;
    for _ in 0..rounds {
        round(rt, alloc, (&sides, &names), count, tells_times)?;
    }
    Ok(())
}

fn main(rt: HostRuntime) -> Result<()> {
    let mut args = env::args(&rt)?.skip(1);
    let count = args.next().context("a number of names is missing")?;
    let times = args.next().context("a number of rounds is missing")?;
    let tells_times = args.next().is_some();
    let count = count.as_str().parse::<u16>().context("names")?;
    let times = times.as_str().parse::<u16>().context("rounds")?;
    rounds(&rt, rt.alloc(), u32::from(count), times, tells_times)
}
