//! The free runs of a region, found by their order.
ghost use Rattle.std.specs.Prelude.{◌≡◌, ℕ, ◌+◌, ◌^◌, ◌<◌, ◌≤◌, ◌≢◌, ◌↔◌, length, Some, None, IsSome, IsNone, IfOk, IfSome, IsTrue, replicate, slice_set, slice_index_or, count_by, All, [], vec_len, vec_capacity};
ghost use Rattle.fx_pool.specs.Region.{RunBegins, is_order};

use crate::pool::MAX_ORDER;
use std::alloc::{AllocError, Global};
use std::marker::Model;

/// How many orders a run may have: 0 to [`MAX_ORDER`].
pub const ORDERS: u8 = MAX_ORDER + 1;

/// A free run: where it begins, and its order.
#[derive(Clone, Copy)]
pub struct FreeRun {
    pub start: u16,
    pub order: u8,
}

/// The free runs: the order of each by the block at which it begins, and the starts by the order.
#[derive(Drop)]
pub struct FreeRuns {
    orders: Vec<Option<u8>>,
    places: Vec<u16>,
    lists: Vec<Vec<u16>>,
}

impl Model for FreeRuns {
    ghost use Rattle.std.specs.Prelude.{ℕ, List, Option};
    ghost use Rattle.fx_pool.specs.Indexed.{IsKept};

    ghost Value = { List (Option ℕ) };

    ghost view = { λ f. f.orders.items };

    ghost invariant = { λ f. IsKept f.orders.items f.places.items f.lists.items };
}

/// For each order an empty list, with room for so many starts.
fn empty_lists(alloc: Global, room: u16) -> Result<Vec<Vec<u16>>, AllocError>
    ensures len { IfOk result (λ lists. vec_len lists ≡ ORDERS) }
    ensures empty { IfOk result
        (λ lists. All (λ list. (list.items ≡ []) × (room ≤ vec_capacity list)) lists.items) }
{
    let mut lists = Vec::new(alloc);
    for order in 0..ORDERS {
        lists.push(Vec::with_capacity(alloc, usize::from(room))?)?;
    }
    Ok(lists)
}

impl FreeRuns {
    /// No free run, in a region of so many blocks.
    pub fn new(alloc: Global, blocks: u16) -> Result<Self, AllocError>
        requires { blocks ≤ 2 ^ MAX_ORDER }
        ensures { IfOk result (λ f. f ≡ replicate blocks None) }
    {
        Ok(FreeRuns {
            orders: vec![in alloc; None; usize::from(blocks)]?,
            places: vec![in alloc; 0; usize::from(blocks)]?,
            lists: empty_lists(alloc, blocks)?,
        })
    }

    /// Whether a free run of this order begins at this block.
    pub fn has(&self, start: u16, order: u8) -> bool
        ensures { IsTrue result ↔ RunBegins self.now start order }
    {
        self.orders.get(usize::from(start)).copied().flatten() == Some(order)
    }

    /// How many free runs have this order.
    pub fn count(&self, order: u8) -> u32
        ensures { result ≡ count_by (is_order order) self.now }
    {
        match self.lists.get(usize::from(order)) {
            Some(list) => list.len() as u32,
            None => 0,
        }
    }

    /// A free run of the lowest order from `order` up.
    pub fn lowest_from(&self, order: u8) -> Option<FreeRun>
        ensures none { IsNone result
            ↔ ((s k : ℕ) → order ≤ k → slice_index_or self.now s None ≢ Some k) }
        ensures found { IfSome result (λ run. (order ≤ run.order) × (run.order ≤ MAX_ORDER)
            × RunBegins self.now run.start run.order) }
        ensures lowest { IfSome result (λ run. (s k : ℕ) → order ≤ k → RunBegins self.now s k
            → run.order ≤ k) }
    {
        for k in order..ORDERS {
            if let Some(start) = self.lists[usize::from(k)].last() {
                return Some(FreeRun {
                    start: *start,
                    order: k,
                });
            }
        }
        None
    }

    /// Adds a free run. None begins there.
    pub fn insert(&mut self, run: FreeRun)
        requires order { run.order ≤ MAX_ORDER }
        requires start { run.start < length self.old }
        requires none { slice_index_or self.old run.start None ≡ None }
        ensures { self.new ≡ slice_set self.old run.start (Some run.order) }
    {
        let start = usize::from(run.start);
        let list = &mut self.lists[usize::from(run.order)];
        self.places[start] = list.len() as u16;
        list.push_reserved(run.start);
        self.orders[start] = Some(run.order);
    }

    /// Takes a free run away.
    pub fn remove(&mut self, run: FreeRun)
        requires { RunBegins self.old run.start run.order }
        ensures { self.new ≡ slice_set self.old run.start None }
    {
        let start = usize::from(run.start);
        let place = self.places[start];
        let list = &mut self.lists[usize::from(run.order)];
        let last = list[list.len() - 1];
        list.swap_remove(usize::from(place));
        self.places[usize::from(last)] = place;
        self.orders[start] = None;
    }
}
