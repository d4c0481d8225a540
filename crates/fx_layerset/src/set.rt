//! The set of all levels of the two trees.
ghost use Rattle.std.specs.Prelude.{◌≡◌, ◌+◌, ◌<◌, ◌≤◌, [], length, take, IfOk, OnErr};
ghost use Rattle.std.specs.Arc.{arc_value};
ghost use Rattle.fx_layerset.specs.Levels.{SetState, SetLevels, levels_in, said_in_set, NoLessRoom, below_newest, pushed_batch, installed_levels, tidied};
ghost use Rattle.fx_layerset.specs.Alike.{SayAlike, IsMergeOf};

use crate::lane::{Lane, drop_oldest, put_newest, put_oldest, share_all};
use crate::layered::{Layered, Layers};
use fx_batch::Batch;
use fx_item::Level;
use std::alloc::{AllocError, Global};
use std::marker::Model;
use std::sync::Arc;

/// Batches over the layers of two trees, each list the oldest first.
#[derive(Drop)]
pub struct LayerSet<L: Level + Drop> {
    pub(crate) batches: Lane<L>,
    pub(crate) objects: Lane<L>,
    pub(crate) allocs: Lane<L>,
}

impl<L: Level + Drop> Model for LayerSet<L> {
    ghost use Rattle.std.specs.Prelude.{vec_capacity};
    ghost use Rattle.fx_layerset.specs.Levels.{SetState, SetLevels, SetRoom, levels_in};

    ghost Value = { SetState };

    ghost view = { λ s. record {
      levels = record {
        batches = levels_in L.items L.lacks s.batches.items;
        objects = levels_in L.items L.lacks s.objects.items;
        allocs = levels_in L.items L.lacks s.allocs.items;
      };
      room = record {
        batches = vec_capacity s.batches;
        objects = vec_capacity s.objects;
        allocs = vec_capacity s.allocs;
      };
    } };
}

impl<L: Level + Drop> LayerSet<L> {
    /// The set of these layers, with no batch. It takes no memory, and promises no room.
    pub fn new(alloc: Global, layers: Layers<L>) -> LayerSet<L>
        ensures batches { result.levels.batches ≡ [] }
        ensures objects { result.levels.objects ≡ levels_in L.items L.lacks layers.objects }
        ensures allocs { result.levels.allocs ≡ levels_in L.items L.lacks layers.allocs }
    {
        LayerSet {
            batches: Vec::new(alloc),
            objects: layers.objects.into_vec(),
            allocs: layers.allocs.into_vec(),
        }
    }

    /// The same levels, shared: it costs the number of levels, and no item is copied. It promises no
    /// room.
    pub fn snapshot(&self, alloc: Global) -> Result<LayerSet<L>, AllocError>
        ensures { IfOk result (λ set. set.levels ≡ self.now.levels) }
    {
        let batches = share_all(alloc, self.batches.as_slice())?;
        let objects = share_all(alloc, self.objects.as_slice())?;
        let allocs = share_all(alloc, self.allocs.as_slice())?;
        Ok(LayerSet {
            batches,
            objects,
            allocs,
        })
    }

    /// Room for so many more batches. Where memory is refused all is as before.
    pub fn reserve(&mut self, batches: usize) -> Result<(), AllocError>
        ensures levels { self.new.levels ≡ self.old.levels }
        ensures room { IfOk result (λ _.
            length self.new.levels.batches + batches ≤ self.new.room.batches) }
        ensures keeps { NoLessRoom self.old.room self.new.room }
        ensures refused { OnErr result (self.new ≡ self.old) }
    {
        self.batches.reserve(batches)
    }

    /// Room for so many more layers of each tree. Where memory is refused the levels are as before.
    pub fn reserve_layers(&mut self, layers: usize) -> Result<(), AllocError>
        ensures levels { self.new.levels ≡ self.old.levels }
        ensures objects { IfOk result (λ _.
            length self.new.levels.objects + layers ≤ self.new.room.objects) }
        ensures allocs { IfOk result (λ _.
            length self.new.levels.allocs + layers ≤ self.new.room.allocs) }
        ensures keeps { NoLessRoom self.old.room self.new.room }
    {
        self.objects.reserve(layers)?;
        self.allocs.reserve(layers)
    }

    /// How many batches there are.
    pub fn batch_count(&self) -> usize
        ensures { result ≡ length self.now.levels.batches }
    {
        self.batches.len()
    }

    /// How many layers the tree of objects has.
    pub fn object_count(&self) -> usize
        ensures { result ≡ length self.now.levels.objects }
    {
        self.objects.len()
    }

    /// How many layers the tree of allocations has.
    pub fn alloc_count(&self) -> usize
        ensures { result ≡ length self.now.levels.allocs }
    {
        self.allocs.len()
    }

    /// One more batch, the newest level. It takes no memory.
    pub fn push(&mut self, batch: Arc<Batch>)
        requires { length self.old.levels.batches < self.old.room.batches }
        ensures { self.new ≡ pushed_batch self.old (arc_value batch) }
    {
        self.batches.push_reserved(Layered::Batch(batch));
    }

    /// Puts layers in the place of the oldest `below` batches and of the newest `newest` layers of
    /// each tree. It takes no memory, and costs the number of levels. `install_law` says when what
    /// stands stays.
    pub fn install(&mut self, below: usize, newest: usize, layers: Layers<L>)
        requires below { below ≤ length self.old.levels.batches }
        requires objects { length (below_newest newest self.old.levels.objects)
            + length layers.objects ≤ self.old.room.objects }
        requires allocs { length (below_newest newest self.old.levels.allocs)
            + length layers.allocs ≤ self.old.room.allocs }
        ensures levels { self.new.levels ≡ installed_levels self.old.levels below newest
            (levels_in L.items L.lacks layers.objects) (levels_in L.items L.lacks layers.allocs) }
        ensures room { NoLessRoom self.old.room self.new.room }
    {
        let Layers { objects, allocs } = layers;
        drop_oldest(&mut self.batches, below);
        put_newest(&mut self.objects, newest, objects);
        put_newest(&mut self.allocs, newest, allocs);
    }

    /// Puts one batch in the place of the oldest `below` ones, whose merge it is, as `merged_batches`
    /// of a snapshot of these gives it. The look stays. It takes no memory, and costs the number of
    /// batches.
    pub fn tidy(&mut self, below: usize, batch: Arc<Batch>)
        requires some { 0 < below }
        requires below { below ≤ length self.old.levels.batches }
        requires merged { IsMergeOf (take below self.old.levels.batches) (arc_value batch) }
        ensures set { self.new ≡ tidied self.old below (arc_value batch) }
        ensures look { SayAlike (said_in_set self.new.levels) (said_in_set self.old.levels) }
    {
        put_oldest(&mut self.batches, below, Layered::Batch(batch));
    }
}
