//! The levels of an image: a batch for each transaction that is kept, over the layers of both trees.
ghost use Rattle.std.specs.Prelude.{◌≡◌, ◌++◌, ℕ, All, IfOk, OnOk, length, map, reverse};
ghost use Rattle.fx_record.specs.Commits.{IsCommit};
ghost use Rattle.fx_record.specs.Txns.{txns_of};
ghost use Rattle.fx_layerset.specs.Levels.{levels_in};
ghost use Rattle.fx_found.specs.Image.{batch_levels, blocks_of_layers, layer_levels};
ghost use Rattle.fx_found.specs.Reading.{layers_seen};

use crate::layers::LayerVec;
use fx_batch::Batch;
use fx_item::{BlockList, Items};
use fx_layerset::{LayerSet, Layered, Layers, LevelList};
use fx_layfile::Layer;
use fx_record::Txns;
use std::alloc::{AllocError, Global};
use std::sync::Arc;

/// The levels of these layers, of which the newest stands first, and of these transactions. No item
/// is copied.
pub(crate) fn gather(
    alloc: Global,
    objects: LayerVec,
    allocs: LayerVec,
    txns: Txns,
) -> Result<LayerSet<Layer>, AllocError>
    requires { All (λ t. IsCommit t.1) (txns_of txns) }
    ensures { IfOk result (λ set. set.levels ≡ record {
      batches = batch_levels (txns_of txns);
      objects = layer_levels objects.items;
      allocs = layer_levels allocs.items;
    }) }
{
    let objects = shared(alloc, objects)?;
    let allocs = shared(alloc, allocs)?;
    let mut set = LayerSet::new(alloc, Layers { objects, allocs });
    let mut txns = txns.into_vec();
    set.reserve(txns.len())?;
    txns.reverse();
    while let Some((_, items)) = txns.pop() {
        let batch = Arc::new(alloc, Batch::of(items))?;
        set.push(batch);
    }
    Ok(set)
}

/// The layers, the oldest first.
fn shared(alloc: Global, layers: LayerVec) -> Result<LevelList<Layer>, AllocError>
    ensures { IfOk result (λ levels. layers_seen levels ≡ layer_levels layers.items) }
{
    let mut layers = layers;
    let mut levels = Vec::new(alloc);
    while let Some(layer) = layers.pop() {
        levels.push(Layered::Layer(Arc::new(alloc, layer)?))?;
    }
    Ok(LevelList::new(levels))
}

/// All blocks of the layers, those of objects first.
pub(crate) fn all_blocks(
    alloc: Global,
    objects: &[Layer],
    allocs: &[Layer],
) -> Result<BlockList, AllocError>
    ensures { IfOk result (λ blocks. blocks ≡ blocks_of_layers (objects.now ++ allocs.now)) }
{
    let mut blocks = Vec::new(alloc);
    add_blocks(&mut blocks, objects)?;
    add_blocks(&mut blocks, allocs)?;
    Ok(BlockList::new(blocks))
}

fn add_blocks(blocks: &mut Vec<u32>, layers: &[Layer]) -> Result<(), AllocError>
    ensures { OnOk result (blocks.new.items ≡ blocks.old.items ++ blocks_of_layers layers.now) }
{
    for layer in layers {
        blocks.extend_from_slice(layer.blocks().as_slice())?;
    }
    Ok(())
}
