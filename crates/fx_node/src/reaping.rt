//! Portions of the graveyard.
ghost use Rattle.std.specs.Prelude.{◌≡◌, ◌+◌, ◌-◌, ◌≤◌, ◌++◌, ℕ, List, Some, All, IfErr, IfOk, OnOk, IsPermutation, IsSorted, IsTrue, length, map, slice_get};
ghost use Rattle.std.specs.List.{flat_map};
ghost use Rattle.std.specs.Ordering.{nat_cmp};
ghost use Rattle.fx_contents.specs.Standing.{StandForTree};
ghost use Rattle.fx_item.specs.Item.{IsItem, items_of, key_of};
ghost use Rattle.fx_item.specs.Look.{MayFail, map_of};
ghost use Rattle.fx_item.specs.Order.{is_ascending};
ghost use Rattle.fx_item.specs.Overlay.{live_in, over, says};
ghost use Rattle.fx_plain.specs.Tree.{Tree};
ghost use Rattle.fx_item.specs.declared.item.TheConstants.{MAX_DEVICE_BLOCKS};
ghost use Rattle.fx_node.specs.Portions.{IsPortionOf, TakesPart, attribute_gone, gone, portion_items, reaped_alone, blocks_of_run, run_gone, when};
ghost use Rattle.fx_node.specs.Waiting.{Waits};
ghost use Rattle.fx_node.specs.declared.holding.BlockRun.{BlockRun};

use crate::holding::{BlockRun, first_attributes, first_runs};
use fx_item::{BlockList, Delta, Item, Items, Key, LockKey, Look, LookFault, Name, Sizes, Value};
use std::alloc::{AllocError, Global};

/// The most attributes and runs of blocks that one portion takes away.
pub const MAX_PORTION: usize = 256;

/// What one portion takes away of a node in the graveyard.
#[derive(Drop)]
pub struct Portion {
    /// Tombstones, in order: of attributes and of runs of blocks, and in the last portion of the
    /// node's Object and of its grave.
    pub items: Items,
    /// The blocks of the device in which these runs lie, in order.
    pub frees: BlockList,
    /// Whether the node has nothing more.
    pub last: bool,
    /// The graveyard loses what the portion takes, and the tree nothing.
    pub delta: Delta,
}

/// The next portion of a node in the graveyard: at most 256 of its attributes and runs of blocks,
/// and with the last of them the node itself. One look for each, and two more.
pub fn reap_plan<L: Look>(alloc: Global, look: &L, at: LockKey) -> Result<Portion, LookFault>
    requires { Waits (map_of (L.said look.now)) at }
    ensures portion { IfOk result
        (λ portion. IsPortionOf (live_in (L.said look.now)) at portion) }
    ensures items { IfOk result (λ portion. All IsItem (items_of portion.items)
        × (length (items_of portion.items) ≤ MAX_PORTION + 2)) }
    ensures ascending { IfOk result
        (λ portion. IsTrue (is_ascending (items_of portion.items))) }
    // Where the items stand for a tree, they stand for it afterwards too.
    ensures tree { IfOk result (λ portion. (f : ℕ → List ℕ) (t : Tree)
        → StandForTree (live_in (L.said look.now)) f t
        → StandForTree (live_in (over (says (items_of portion.items)) (L.said look.now))) f t) }
    ensures fault { IfErr result (MayFail (L.lacks look.now)) }
{
    match portion_of(alloc, look, at) {
        Ok(portion) => Ok(portion),
        Err(fault) => Err(fault),
    }
}

/// The next portion of a node.
fn portion_of<L: Look>(alloc: Global, look: &L, at: LockKey) -> Result<Portion, LookFault>
    ensures portion { IfOk result
        (λ portion. IsPortionOf (live_in (L.said look.now)) at portion) }
    ensures fault { IfErr result (MayFail (L.lacks look.now)) }
{
    let part = part_of(alloc, look, at)?;
    let frees = freed_blocks(alloc, &part.runs)?;
    let sizes = Sizes {
        nodes: part.last as u32,
        attributes: part.names.len() as u32,
        blocks: frees.len() as u32,
    };
    let items = gone_items(alloc, at, part.last, part.names, &part.runs)?;
    Ok(Portion {
        items,
        frees,
        last: part.last,
        delta: reaped_alone(sizes),
    })
}

/// Attributes and runs of blocks of a node, and whether they are all.
#[derive(Drop)]
struct Part {
    names: Vec<Name>,
    runs: Vec<BlockRun>,
    last: bool,
}

/// What a portion of a node takes.
fn part_of<L: Look>(alloc: Global, look: &L, at: LockKey) -> Result<Part, LookFault>
    ensures takes { IfOk result (λ part.
        TakesPart (live_in (L.said look.now)) at part.names.items part.runs.items part.last) }
    ensures fault { IfErr result (MayFail (L.lacks look.now)) }
{
    let first = first_attributes(alloc, look, at, MAX_PORTION)?;
    if !first.all {
        return Ok(Part {
            names: first.names,
            runs: Vec::new(alloc),
            last: false,
        });
    }
    let rest = first_runs(alloc, look, at, MAX_PORTION - first.names.len())?;
    Ok(Part {
        names: first.names,
        runs: rest.runs,
        last: rest.all,
    })
}

/// The blocks of the device in which these runs lie, in order. Costs sorting them.
fn freed_blocks(alloc: Global, runs: &[BlockRun]) -> Result<BlockList, AllocError>
    requires start { (i : ℕ) (run : BlockRun) → slice_get runs.now i ≡ Some run
        → run.start ≤ run.end }
    requires inside { (i : ℕ) (run : BlockRun) → slice_get runs.now i ≡ Some run
        → run.block + (run.end - run.start) ≤ MAX_DEVICE_BLOCKS }
    ensures freed { IfOk result
        (λ blocks. IsPermutation (flat_map blocks_of_run runs.now) blocks) }
    ensures sorted { IfOk result (λ blocks. IsSorted nat_cmp blocks) }
{
    let mut blocks = Vec::new(alloc);
    for run in runs {
        push_blocks(&mut blocks, *run)?;
    }
    blocks.sort_unstable();
    Ok(BlockList::new(blocks))
}

/// Appends the blocks of the device in which a run lies.
fn push_blocks(blocks: &mut Vec<u32>, run: BlockRun) -> Result<(), AllocError>
    requires start { run.start ≤ run.end }
    requires inside { run.block + (run.end - run.start) ≤ MAX_DEVICE_BLOCKS }
    ensures { OnOk result (blocks.new.items ≡ blocks.old.items ++ blocks_of_run run) }
{
    for place in 0..run.end - run.start {
        blocks.push(run.block + place)?;
    }
    Ok(())
}

/// The tombstones of a portion.
fn gone_items(
    alloc: Global,
    at: LockKey,
    last: bool,
    names: Vec<Name>,
    runs: &[BlockRun],
) -> Result<Items, AllocError>
    ensures { IfOk result
        (λ items. items_of items ≡ portion_items at last names.items runs.now) }
{
    let LockKey { store, id } = at;
    let mut items = Vec::new(alloc);
    push_when(&mut items, last, Key::Object { store, id })?;
    push_names(&mut items, at, names)?;
    push_runs(&mut items, at, runs)?;
    push_when(&mut items, last, Key::Grave { store, id })?;
    Ok(Items::new(items))
}

/// Appends the tombstone of a key in the last portion.
fn push_when(items: &mut Vec<Item>, last: bool, key: Key) -> Result<(), AllocError>
    ensures { OnOk result
        (items_of items.new.items ≡ items_of items.old.items ++ when last (gone (key_of key))) }
{
    if !last {
        return Ok(());
    }
    items.push(Item {
        key,
        value: Value::Gone,
    })?;
    Ok(())
}

/// Appends the tombstones of attributes.
fn push_names(items: &mut Vec<Item>, at: LockKey, names: Vec<Name>) -> Result<(), AllocError>
    ensures { OnOk result (items_of items.new.items
        ≡ items_of items.old.items ++ map (attribute_gone at) names.items) }
{
    for name in names {
        items.push(Item {
            key: Key::Attribute {
                store: at.store,
                id: at.id,
                name,
            },
            value: Value::Gone,
        })?;
    }
    Ok(())
}

/// Appends the tombstones of runs of blocks.
fn push_runs(items: &mut Vec<Item>, at: LockKey, runs: &[BlockRun]) -> Result<(), AllocError>
    ensures { OnOk result (items_of items.new.items
        ≡ items_of items.old.items ++ map (run_gone at) runs.now) }
{
    for run in runs {
        items.push(Item {
            key: Key::Extent {
                store: at.store,
                id: at.id,
                start: run.start,
                end: run.end,
            },
            value: Value::Gone,
        })?;
    }
    Ok(())
}

/// The graveyard loses these, and the tree nothing.
fn reaped_alone(reaped: Sizes) -> Delta
    ensures { result ≡ reaped_alone reaped }
{
    let none = Sizes {
        nodes: 0,
        attributes: 0,
        blocks: 0,
    };
    Delta {
        more: none,
        less: none,
        buried: none,
        reaped,
    }
}
