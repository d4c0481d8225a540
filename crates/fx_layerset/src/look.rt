//! Looking up in a set, and merging its levels.
ghost use Rattle.std.specs.Prelude.{◌≡◌, ◌++◌, map, reverse, IfOk, IfErr, option_map};
ghost use Rattle.fx_item.specs.Item.{key_of, value_of};
ghost use Rattle.fx_item.specs.Place.{begins};
ghost use Rattle.fx_item.specs.Overlay.{AtKey};
ghost use Rattle.fx_item.specs.Look.{MayFail, spoken};
ghost use Rattle.fx_layerset.specs.Levels.{SetLevels, level_in, levels_in, newest_first, said_in_set, lacked_by, merge_over, newest, upper_levels};
ghost use Rattle.fx_layerset.specs.Alike.{IsMergeOf};

use crate::lane::{newest_value, push_newest_first};
use crate::layered::Layered;
use crate::set::LayerSet;
use fx_batch::Batch;
use fx_extmerge::ObjectMerger;
use fx_item::{Item, Key, Level, Look, LookFault, Value};
use fx_merge::{LayerRefs, Merge, drain, next_live};
use std::alloc::{AllocError, Global};

/// A merge of levels of a set.
pub type SetMerge<'a, L> = Merge<'a, ObjectMerger, Layered<L>>;

/// All of these levels, the newest first.
fn refs_of<'a, L: Level + Drop>(
    alloc: Global,
    batches: &'a [Layered<L>],
    objects: &'a [Layered<L>],
    allocs: &'a [Layered<L>],
) -> Result<LayerRefs<'a, Layered<L>>, AllocError>
    ensures { IfOk result (λ refs. map (λ l. level_in L.items L.lacks l.now) refs
        ≡ newest_first (record {
          batches = levels_in L.items L.lacks batches.now;
          objects = levels_in L.items L.lacks objects.now;
          allocs = levels_in L.items L.lacks allocs.now;
        })) }
{
    let mut refs = Vec::new(alloc);
    push_newest_first(&mut refs, batches)?;
    push_newest_first(&mut refs, objects)?;
    push_newest_first(&mut refs, allocs)?;
    Ok(LayerRefs::new(refs))
}

/// A merge of these levels from where a key begins.
fn merge_of<'a, L: Level + Drop>(
    alloc: Global,
    batches: &'a [Layered<L>],
    objects: &'a [Layered<L>],
    allocs: &'a [Layered<L>],
    from: Key,
) -> Result<SetMerge<'a, L>, AllocError>
    ensures { IfOk result (λ merge. merge ≡ merge_over (record {
      batches = levels_in L.items L.lacks batches.now;
      objects = levels_in L.items L.lacks objects.now;
      allocs = levels_in L.items L.lacks allocs.now;
    }) (begins (key_of from))) }
{
    let refs = refs_of(alloc, batches, objects, allocs)?;
    Merge::new(alloc, refs, from)
}

/// The newest levels of a list; all where there are fewer.
fn newest_of<L>(lane: &[Layered<L>], count: usize) -> &[Layered<L>]
    ensures { result.now ≡ newest count lane.now }
{
    &lane[lane.len().saturating_sub(count)..]
}

impl<L: Level + Drop> LayerSet<L> {
    /// A merge of all batches and of the newest `newest` layers of each tree, from where a key begins,
    /// tombstones included: objects first, then allocations. It costs a node for each level, and
    /// looks nothing up yet.
    pub fn upper(
        &self,
        alloc: Global,
        newest: usize,
        from: Key,
    ) -> Result<SetMerge<'_, L>, AllocError>
        ensures { IfOk result (λ merge. merge
            ≡ merge_over (upper_levels newest self.now.levels) (begins (key_of from))) }
    {
        merge_of(
            alloc,
            self.batches.as_slice(),
            newest_of(self.objects.as_slice(), newest),
            newest_of(self.allocs.as_slice(), newest),
            from,
        )
    }

    /// All batches as one, tombstones included. It costs the items, and for each as many comparisons
    /// as the logarithm of the batches.
    pub fn merged_batches(&self, alloc: Global) -> Result<Batch, LookFault>
        ensures batch { IfOk result (λ batch. IsMergeOf self.now.levels.batches batch) }
        ensures fault { IfErr result (MayFail (lacked_by (reverse self.now.levels.batches))) }
    {
        let from = Key::Object { store: 0, id: 0 };
        let mut merge = match self.upper(alloc, 0, from) {
            Err(_) => return Err(LookFault::OutOfMemory),
            Ok(merge) => merge,
        };
        match drain(alloc, &mut merge) {
            Err(fault) => Err(fault),
            Ok(items) => Ok(Batch::of(items)),
        }
    }

    /// What the newest level says that says something under the key of a point.
    fn value_at(&self, alloc: Global, key: &Key) -> Result<Option<Value>, LookFault>
        ensures found { IfOk result (λ found. spoken (option_map value_of found)
            ≡ said_in_set self.now.levels (AtKey (key_of key.now))) }
        ensures fault { IfErr result (MayFail (lacked_by (newest_first self.now.levels))) }
    {
        match newest_value(self.batches.as_slice(), alloc, key) {
            Err(fault) => return Err(fault),
            Ok(Some(value)) => return Ok(Some(value)),
            Ok(None) => {}
        }
        match newest_value(self.objects.as_slice(), alloc, key) {
            Err(fault) => return Err(fault),
            Ok(Some(value)) => return Ok(Some(value)),
            Ok(None) => {}
        }
        newest_value(self.allocs.as_slice(), alloc, key)
    }
}

/// `get` costs a binary search in each level down to the newest that says something. `next_from` costs
/// a look into each level, and passes over the tombstones before what it finds, each once.
impl<L: Level + Drop> Look for LayerSet<L> {
    ghost use Rattle.fx_layerset.specs.Levels.{said_in_set, newest_first, keys_in, lacked_by};

    ghost said = { λ s. said_in_set s.levels };

    ghost keys = { λ s. keys_in (newest_first s.levels) };

    ghost lacks = { λ s. lacked_by (newest_first s.levels) };

    fn get(&self, alloc: Global, key: &Key) -> Result<Option<Value>, LookFault> {
        let found = match self.value_at(alloc, key) {
            Err(fault) => return Err(fault),
            Ok(found) => found,
        };
        let Some(value) = found else {
            return Ok(None);
        };
        if value.is_gone() {
            return Ok(None);
        }
        Ok(Some(value))
    }

    fn next_from(&self, alloc: Global, key: &Key) -> Result<Option<Item>, LookFault> {
        let Ok(from) = key.clone() else {
            return Err(LookFault::OutOfMemory);
        };
        let merge = merge_of(
            alloc,
            self.batches.as_slice(),
            self.objects.as_slice(),
            self.allocs.as_slice(),
            from,
        );
        let Ok(mut merge) = merge else {
            return Err(LookFault::OutOfMemory);
        };
        next_live(alloc, &mut merge)
    }
}
