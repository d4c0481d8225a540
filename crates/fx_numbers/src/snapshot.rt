//! Snapshots: the levels as they were at a commit, shared.
ghost use Rattle.std.specs.Prelude.{◌≡◌, length, IfOk, IfErr, reverse};
ghost use Rattle.fx_item.specs.Look.{MayFail};
ghost use Rattle.fx_layerset.specs.Alike.{IsMergeOf};
ghost use Rattle.fx_layerset.specs.Levels.{SetState, lacked_by};

use fx_batch::Batch;
use fx_item::{Item, Key, Look, LookFault, Value};
use fx_layerset::LayerSet;
use std::alloc::{AllocError, Global};
use std::marker::Model;
use std::sync::Arc;

/// The levels and the number of the last commit in them.
#[derive(Drop)]
struct Shown {
    point: u64,
    set: LayerSet<Batch>,
}

/// The items as they were at a commit. The number's part keeps one handle, and whoever took it another.
#[derive(Drop)]
pub struct Snapshot {
    shared: Arc<Shown>,
}

impl Model for Snapshot {
    ghost use Rattle.std.specs.Arc.{arc_value};
    ghost use Rattle.fx_numbers.specs.Shots.{Shot};

    ghost Value = { Shot };

    ghost view = { λ s. record {
      point = (arc_value s.shared).point;
      levels = (arc_value s.shared).set.levels;
    } };
}

impl Snapshot {
    /// What these levels hold now. It costs the number of levels; no item is copied.
    pub(crate) fn take(
        alloc: Global,
        point: u64,
        set: &LayerSet<Batch>,
    ) -> Result<Snapshot, AllocError>
        ensures { IfOk result (λ s. s ≡ record { point = point; levels = set.now.levels }) }
    {
        let set = set.snapshot(alloc)?;
        let shared = Arc::new(alloc, Shown { point, set })?;
        Ok(Snapshot { shared })
    }

    /// Another handle of the same.
    pub(crate) fn share(&self) -> Result<Snapshot, AllocError>
        ensures { IfOk result (λ s. s ≡ self.now) }
    {
        let shared = Arc::try_clone(&self.shared)?;
        Ok(Snapshot { shared })
    }

    /// The number of the last commit that it shows.
    pub fn point(&self) -> u64
        ensures { result ≡ self.now.point }
    {
        let shown: &Shown = &self.shared;
        shown.point
    }

    /// How many batches it has.
    pub fn batch_count(&self) -> usize
        ensures { result ≡ length self.now.levels.batches }
    {
        let shown: &Shown = &self.shared;
        shown.set.batch_count()
    }

    /// All its batches as one, tombstones included, as `Numbers::tidy` takes it. It costs the items,
    /// and for each as many comparisons as the logarithm of the batches.
    pub fn merged_batches(&self, alloc: Global) -> Result<Batch, LookFault>
        ensures batch { IfOk result (λ batch. IsMergeOf self.now.levels.batches batch) }
        ensures fault { IfErr result (MayFail (lacked_by (reverse self.now.levels.batches))) }
    {
        let shown: &Shown = &self.shared;
        shown.set.merged_batches(alloc)
    }
}

/// As the levels are looked up.
impl Look for Snapshot {
    ghost use Rattle.fx_layerset.specs.Levels.{said_in_set, newest_first, keys_in, lacked_by};

    ghost said = { λ s. said_in_set s.levels };

    ghost keys = { λ s. keys_in (newest_first s.levels) };

    ghost lacks = { λ s. lacked_by (newest_first s.levels) };

    fn get(&self, alloc: Global, key: &Key) -> Result<Option<Value>, LookFault> {
        let shown: &Shown = &self.shared;
        shown.set.get(alloc, key)
    }

    fn next_from(&self, alloc: Global, key: &Key) -> Result<Option<Item>, LookFault> {
        let shown: &Shown = &self.shared;
        shown.set.next_from(alloc, key)
    }
}
