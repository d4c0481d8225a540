//! Levels of two kinds in one list.
ghost use Rattle.std.specs.Prelude.{◌≡◌, IfOk};
ghost use Rattle.fx_layerset.specs.Levels.{level_in};

use fx_base::List;
use fx_batch::Batch;
use fx_item::{Edge, Item, Key, Level, LookFault};
use std::alloc::{AllocError, Global};
use std::sync::Arc;

/// A level that is shared: a batch, or a layer of another type.
#[derive(Drop)]
pub enum Layered<L> {
    Batch(Arc<Batch>),
    Layer(Arc<L>),
}

/// Levels, the oldest first.
pub type LevelList<L> = List<Layered<L>>;

/// The layers of the tree of objects and those of the tree of allocations, the oldest first.
#[derive(Drop)]
pub struct Layers<L> {
    pub objects: LevelList<L>,
    pub allocs: LevelList<L>,
}

/// A look costs what it costs in the batch or the layer.
impl<L: Level> Level for Layered<L> {
    ghost items = { λ x. (level_in L.items L.lacks x).items };

    ghost lacks = { λ x. (level_in L.items L.lacks x).lacks };

    fn next(&self, alloc: Global, edge: Edge, key: &Key) -> Result<Option<Item>, LookFault> {
        match self {
            Layered::Batch(batch) => batch.next(alloc, edge, key),
            Layered::Layer(layer) => layer.next(alloc, edge, key),
        }
    }
}

/// One more owner of a level. No item is copied.
pub(crate) fn share<L: Level>(level: &Layered<L>) -> Result<Layered<L>, AllocError>
    ensures { IfOk result (λ shared. level_in L.items L.lacks shared
        ≡ level_in L.items L.lacks level.now) }
{
    match level {
        Layered::Batch(batch) => {
            let batch = Arc::try_clone(batch)?;
            Ok(Layered::Batch(batch))
        }
        Layered::Layer(layer) => {
            let layer = Arc::try_clone(layer)?;
            Ok(Layered::Layer(layer))
        }
    }
}
