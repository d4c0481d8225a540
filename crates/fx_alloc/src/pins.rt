//! Pins, and the layer blocks that they keep.
ghost use Rattle.std.specs.Prelude.{◌≡◌, ℕ, ◌+◌, ◌^◌, ◌<◌, ◌≤◌, ◌↔◌, ◌++◌, ◌==◌, ◌&&◌, All, length, if◌then◌else◌, IsTrue, IsSome, IfOk, IfSome, OnErr, None, vec_capacity};
ghost use Rattle.slab.specs.Slab.{ContainsKey, get};
ghost use Rattle.fx_alloc.specs.Uses.{blocks_from};
ghost use Rattle.fx_alloc.specs.Pins.{no_pins, pin_at, pins_of, in_set, is_same_set, other_sets, unpinned, PinsBlocks};
ghost use Rattle.fx_alloc.specs.PinCounts.{pins_counted, IsSoundTable, CountsUp, CountsDown, SameCounts, HaveSet};

use crate::chain::Chain;
use slab::Slab;
use std::alloc::{AllocError, Global};
use std::marker::Model;

/// A block of a layer set that pins keep.
#[derive(Clone, Copy, Debug, PartialEq, Eq)]
pub struct Kept {
    pub block: u32,
    pub set: usize,
}

/// The pins that are present, and the blocks of their layer sets. Pins of the same layers share one
/// set.
#[derive(Drop)]
pub(crate) struct Pins {
    // of each pin its layer set
    pins: Slab<usize>,
    // of each layer set how many pins it has
    counts: Slab<usize>,
    kept: Vec<Kept>,
    // the set of the present layers, if it has pins
    present: Option<usize>,
}

impl Model for Pins {
    ghost use Rattle.fx_alloc.specs.Pins.{PinTable};

    ghost Value = { PinTable };

    ghost use Rattle.fx_alloc.specs.PinCounts.{ArePins};

    ghost view = { λ p. record { pins = p.pins.slots; kept = p.kept.items; present = p.present } };

    ghost invariant = { λ p. ArePins p.pins.slots p.counts p.kept.items p.present };
}

// Counts one more pin of a layer set.
fn count_up(counts: &mut Slab<usize>, set: usize)
    requires there { ContainsKey counts.old set }
    requires few { pins_counted counts.old set + 1 < 2 ^ 64 }
    ensures { CountsUp counts.old counts.new set }
{
    let Some(count) = counts.get_mut(set) else {
        unreachable!()
    };
    *count += 1;
}

// Counts one pin of a layer set less; how many are left.
fn count_down(counts: &mut Slab<usize>, set: usize) -> usize
    requires { 0 < pins_counted counts.old set }
    ensures down { CountsDown counts.old counts.new set }
    ensures left { result ≡ pins_counted counts.new set }
{
    let Some(count) = counts.get_mut(set) else {
        unreachable!()
    };
    *count -= 1;
    *count
}

// The set of the present layers, unless it is this one.
fn other_than(present: Option<usize>, set: usize) -> Option<usize>
    ensures { result ≡ (if is_same_set set present then None else present) }
{
    match present {
        Some(standing) if standing == set => None,
        _ => present,
    }
}

// Gives a layer set up, where no pins of it are left; the set of the present layers, if it still
// stands. Costs the blocks that pins keep where it gives one up.
fn drop_empty(
    left: usize,
    set: usize,
    counts: &mut Slab<usize>,
    kept: &mut Vec<Kept>,
    present: Option<usize>,
) -> Option<usize>
    requires { pins_counted counts.old set ≡ left }
    ensures counts { SameCounts counts.old counts.new }
    ensures kept { kept.new.items ≡
        (if left == 0 then other_sets set kept.old.items else kept.old.items) }
    ensures present { result ≡
        (if (left == 0) && is_same_set set present then None else present) }
{
    if left > 0 {
        return present;
    }
    counts.try_remove(set);
    kept.retain(|kept| kept.set != set);
    other_than(present, set)
}

// Adds the blocks of a chain to those that are kept, with their layer set. Costs the chain.
fn keep_chain(kept: &mut Vec<Kept>, links: &[u32], chain: Chain, set: usize)
    requires room { length kept.old.items + chain.len ≤ vec_capacity kept.old }
    requires links { All (λ b. b < length links.now)
        (blocks_from links.now chain.head chain.len) }
    ensures { kept.new.items ≡
        kept.old.items ++ in_set set (blocks_from links.now chain.head chain.len) }
{
    let mut block = chain.head;
    let mut left = chain.len;
    while left > 0 {
        kept.push_reserved(Kept { block, set });
        block = links[block as usize];
        left -= 1;
    }
}

// The layer set of the present layers, where it stands already, or else a new one with no pins.
fn present_set(
    present: Option<usize>,
    counts: &mut Slab<usize>,
    kept: &mut Vec<Kept>,
    links: &[u32],
    layers: Chain,
) -> Result<usize, AllocError>
    requires there { IfSome present (λ set. ContainsKey counts.old set) }
    requires links { All (λ b. b < length links.now)
        (blocks_from links.now layers.head layers.len) }
    ensures ok { IfOk result (λ set. HaveSet (blocks_from links.now layers.head layers.len)
        present counts.old counts.new kept.old.items kept.new.items set) }
    ensures counts { OnErr result (SameCounts counts.old counts.new) }
    ensures kept { OnErr result (kept.new.items ≡ kept.old.items) }
{
    if let Some(set) = present {
        return Ok(set);
    }
    counts.reserve(1)?;
    kept.reserve(layers.len as usize)?;
    let set = counts.insert_reserved(0);
    keep_chain(kept, links, layers, set);
    Ok(set)
}

impl Pins {
    /// No pins. Takes no memory.
    pub(crate) fn new(alloc: Global) -> Pins
        ensures { result ≡ no_pins }
    {
        Pins {
            pins: Slab::new(alloc),
            counts: Slab::new(alloc),
            kept: Vec::new(alloc),
            present: None,
        }
    }

    /// The blocks that pins keep, each with its layer set.
    pub(crate) fn kept(&self) -> &[Kept]
        ensures { result.now ≡ self.now.kept }
    {
        self.kept.as_slice()
    }

    /// A layer set stands only as long as it has pins. For those who prove: the function does
    /// nothing.
    pub(crate) fn sound(&self)
        ensures { IsSoundTable self.now }
    {
        let _present = self.present;
    }

    /// Whether a pin is present.
    pub(crate) fn has(&self, pin: usize) -> bool
        ensures { IsTrue result ↔ IsSome (pin_at self.now.pins pin) }
    {
        self.pins.get(pin).is_some()
    }

    /// Whether no other pin has the layer set of this one.
    pub(crate) fn is_last(&self, pin: usize) -> bool
        requires { IsSome (pin_at self.now.pins pin) }
        ensures { IfSome (pin_at self.now.pins pin)
            (λ set. result ≡ (pins_of self.now.pins set == 1)) }
    {
        let Some(set) = self.pins.get(pin) else {
            unreachable!()
        };
        match self.counts.get(*set) {
            Some(count) => *count == 1,
            None => false,
        }
    }

    /// Pins the layers in these blocks. Costs these blocks where the present layers have no pin
    /// yet.
    pub(crate) fn pin(&mut self, links: &[u32], layers: Chain) -> Result<usize, AllocError>
        requires { All (λ b. b < length links.now)
            (blocks_from links.now layers.head layers.len) }
        ensures ok { IfOk result (λ pin. PinsBlocks
            (blocks_from links.now layers.head layers.len) self.old self.new pin) }
        ensures err { OnErr result (self.new ≡ self.old) }
    {
        self.pins.reserve(1)?;
        let _places = self.pins.capacity();
        let set = present_set(
            self.present,
            &mut self.counts,
            &mut self.kept,
            links,
            layers,
        )?;
        self.present = Some(set);
        count_up(&mut self.counts, set);
        Ok(self.pins.insert_reserved(set))
    }

    /// Ends a pin. Costs the blocks that pins keep where it was the last of its layer set.
    pub(crate) fn unpin(&mut self, pin: usize)
        requires { IsSome (pin_at self.old.pins pin) }
        ensures { IfSome (pin_at self.old.pins pin) (λ set. self.new ≡ unpinned self.old pin set) }
    {
        let Some(set) = self.pins.try_remove(pin) else {
            unreachable!()
        };
        let left = count_down(&mut self.counts, set);
        self.present = drop_empty(left, set, &mut self.counts, &mut self.kept, self.present);
    }

    /// Forgets the set of the present layers, which are about to be replaced. Its pins stay.
    pub(crate) fn replaced(&mut self)
        ensures { self.new ≡ record self.old { present = None } }
    {
        self.present = None;
    }
}
