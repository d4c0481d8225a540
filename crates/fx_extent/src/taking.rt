//! The items that say which blocks of the device are taken and which are free again.
ghost use Rattle.std.specs.Prelude.{◌≡◌, ◌+◌, ◌<◌, ◌≤◌, true, false, length, IfOk};
ghost use Rattle.fx_item.specs.Item.{IsItem, item_of, items_of};
ghost use Rattle.fx_item.specs.declared.item.TheConstants.{MAX_DEVICE_BLOCKS};
ghost use Rattle.fx_extent.specs.Allocations.{AreAllocationsOf, AreAscending, GoesFirst, IsFirstRow, IsLongestRow, ShareNone, nth_number, range_item};

use fx_item::{Item, Items, Key, Value};
use std::alloc::{AllocError, Global};

/// The items that say that these blocks are taken, and that those are free again, in order. Both lists
/// ascend. Blocks that follow each other on a list are one range. Costs the blocks.
pub fn allocations(alloc: Global, taken: &[u32], freed: &[u32]) -> Result<Items, AllocError>
    requires taken { AreAscending 0 taken.now }
    requires freed { AreAscending 0 freed.now }
    requires apart { ShareNone taken.now freed.now }
    ensures { IfOk result (λ items. AreAllocationsOf taken.now freed.now (items_of items)) }
{
    let mut items = Vec::new(alloc);
    let mut taken_left = taken;
    let mut freed_left = freed;
    'rows: while !taken_left.is_empty() || !freed_left.is_empty() {
        let next = first_row(taken_left, freed_left);
        items.push(range(next.row, next.is_taken))?;
        taken_left = next.taken;
        freed_left = next.freed;
    }
    Ok(Items::new(items))
}

/// The first blocks of two lists that follow each other on one of them, and what is left of both.
#[derive(Clone, Copy)]
struct FirstRow<'a> {
    is_taken: bool,
    row: &'a [u32],
    taken: &'a [u32],
    freed: &'a [u32],
}

/// The row that goes first.
fn first_row<'a>(taken: &'a [u32], freed: &'a [u32]) -> FirstRow<'a>
    requires some { 0 < length taken.now + length freed.now }
    requires taken { AreAscending 0 taken.now }
    requires freed { AreAscending 0 freed.now }
    ensures taken { result.is_taken ≡ true → (result.freed.now ≡ freed.now)
        × IsFirstRow taken.now freed.now result.row.now result.taken.now }
    ensures freed { result.is_taken ≡ false → (result.taken.now ≡ taken.now)
        × IsFirstRow freed.now taken.now result.row.now result.freed.now }
{
    if is_next(taken, freed) {
        let (row, after) = taken.split_at(row_length(taken));
        return FirstRow {
            is_taken: true,
            row,
            taken: after,
            freed,
        };
    }
    let (row, after) = freed.split_at(row_length(freed));
    FirstRow {
        is_taken: false,
        row,
        taken,
        freed: after,
    }
}

/// Whether the first block of one list goes before that of the other. An empty list goes last.
fn is_next(blocks: &[u32], others: &[u32]) -> bool
    requires { 0 < length blocks.now + length others.now }
    ensures yes { result ≡ true → GoesFirst blocks.now others.now }
    ensures no { result ≡ false → GoesFirst others.now blocks.now }
{
    match (blocks.first(), others.first()) {
        (Some(block), Some(other)) => *block < *other,
        (first, _) => first.is_some(),
    }
}

/// How many of the first blocks follow each other.
fn row_length(blocks: &[u32]) -> usize
    requires some { 0 < length blocks.now }
    requires ascending { AreAscending 0 blocks.now }
    ensures { IsLongestRow blocks.now result }
{
    let first = blocks[0];
    let mut count = 1;
    'blocks: while count < blocks.len() {
        if blocks[count] as usize != first as usize + count {
            return count;
        }
        count += 1;
    }
    count
}

/// The range of blocks that follow each other.
fn range(row: &[u32], taken: bool) -> Item
    requires some { 0 < length row.now }
    requires fits { nth_number row.now 0 + length row.now ≤ MAX_DEVICE_BLOCKS }
    ensures item { item_of result ≡ range_item taken (nth_number row.now 0) (length row.now) }
    ensures good { IsItem (range_item taken (nth_number row.now 0) (length row.now)) }
{
    let start = row[0];
    let end = start + row.len() as u32;
    let value = if taken { Value::Taken } else { Value::Gone };
    Item {
        key: Key::Allocation { start, end },
        value,
    }
}
