//! The blocks that transactions write.
ghost use Rattle.std.specs.Prelude.{◌≡◌, ◌↔◌, ◌||◌, ℕ, true, IfOk, OnOk, Contains};
ghost use Rattle.std.specs.List.Sorted.{IsStrictlySortedBy};
ghost use Rattle.std.specs.Ordering.{nat_cmp};
ghost use Rattle.fx_item.specs.Item.{items_of};
ghost use Rattle.fx_verify.specs.Kept.{is_written, plain_txns, writes_block};
ghost use Rattle.fx_verify.specs.Wrong.{holds_block};

use crate::written::written;
use fx_item::{BlockList, Item, Items};
use std::alloc::{AllocError, Global};
use std::collections::BTreeSet;

/// The blocks that the transactions write, each once, ascending: those that a mount has to sum. Some may
/// lie where no data can. Costs the items, and the logarithm of the blocks for each sum that they state.
pub fn blocks_of(alloc: Global, txns: &[(u64, Items)]) -> Result<BlockList, AllocError>
    ensures ascending { IfOk result (λ blocks. IsStrictlySortedBy nat_cmp blocks) }
    ensures each { IfOk result (λ blocks. (block : ℕ)
        → Contains blocks block ↔ (is_written (plain_txns txns.now) block ≡ true)) }
{
    let mut blocks = BTreeSet::new(alloc);
    for (_, items) in txns {
        add_written(alloc, &mut blocks, items.as_slice())?;
    }
    Ok(BlockList::new(blocks.into_iter().collect(alloc)?))
}

/// Adds the blocks that a transaction writes.
fn add_written(alloc: Global, blocks: &mut BTreeSet<u32>, items: &[Item]) -> Result<(), AllocError>
    ensures { OnOk result ((block : ℕ) → holds_block blocks.new block
        ≡ (holds_block blocks.old block || writes_block (items_of items.now) block)) }
{
    let pairs = written(alloc, items)?;
    for (block, _) in &pairs {
        blocks.insert(*block)?;
    }
    Ok(())
}
