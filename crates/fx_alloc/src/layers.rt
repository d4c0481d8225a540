//! A change of layers, and the end of a pin, block by block.
ghost use Rattle.std.specs.Prelude.{◌≡◌, ℕ, ◌+◌, ◌^◌, ◌<◌, ◌≤◌, All, length, count_by, IsSome, IfSome};
ghost use Rattle.fx_alloc.specs.Uses.{use_at, is_free, is_pinned};
ghost use Rattle.fx_alloc.specs.Pins.{kept_blocks, is_kept, pin_at, unpinned};
ghost use Rattle.fx_alloc.specs.Layers.{pinned_use, freed_use, layer_use, change_use, change_all, unpinned_use, FitPins, ChainsUp};

use crate::chain::Chain;
use crate::hints::note;
use crate::pins::{Kept, Pins};
use crate::uses::Use;

// Keeps a block for pins, if it is free; 1 if it was, else 0.
fn pin_one(uses: &mut [Use], hints: &mut [u64], block: u32) -> u32
    requires { block < length uses.old }
    ensures uses { uses.new ≡ change_use pinned_use block uses.old }
    ensures count { count_by is_free uses.new + result ≡ count_by is_free uses.old }
{
    let at = block as usize;
    if matches!(uses[at], Use::Free) {
        uses[at] = Use::Pinned;
        note(hints, at, Use::Pinned);
        return 1;
    }
    0
}

// Frees a block that is kept for pins; 1 if it was kept so, else 0.
fn free_one(uses: &mut [Use], hints: &mut [u64], block: u32) -> u32
    requires { block < length uses.old }
    ensures uses { uses.new ≡ change_use freed_use block uses.old }
    ensures count { count_by is_pinned uses.new + result ≡ count_by is_pinned uses.old }
{
    let at = block as usize;
    if matches!(uses[at], Use::Pinned) {
        uses[at] = Use::Free;
        note(hints, at, Use::Free);
        return 1;
    }
    0
}

/// Keeps the free ones of these blocks for pins; how many they are. Costs these blocks.
pub(crate) fn pin_free(uses: &mut [Use], hints: &mut [u64], kept: &[Kept]) -> u32
    requires below { All (λ b. b < length uses.old) (kept_blocks kept.now) }
    requires few { length uses.old < 2 ^ 32 }
    ensures uses { uses.new ≡ change_all pinned_use (kept_blocks kept.now) uses.old }
    ensures count { count_by is_free uses.new + result ≡ count_by is_free uses.old }
{
    let mut count = 0;
    for each in kept {
        count += pin_one(uses, hints, each.block);
    }
    count
}

/// Frees those of these blocks that are kept for pins alone; how many they are. Costs these blocks.
pub(crate) fn free_pinned(uses: &mut [Use], hints: &mut [u64], kept: &[Kept]) -> u32
    requires below { All (λ b. b < length uses.old) (kept_blocks kept.now) }
    requires few { length uses.old < 2 ^ 32 }
    ensures uses { uses.new ≡ change_all freed_use (kept_blocks kept.now) uses.old }
    ensures count { count_by is_pinned uses.new + result ≡ count_by is_pinned uses.old }
{
    let mut count = 0;
    for each in kept {
        count += free_one(uses, hints, each.block);
    }
    count
}

// Makes a block a layer's again, if it is free, and puts it before a chain of layer blocks.
fn take_back(
    uses: &mut [Use],
    hints: &mut [u64],
    links: &mut [u32],
    layers: Chain,
    block: u32,
) -> Chain
    requires block { block < length uses.old }
    requires links { length links.old ≡ length uses.old }
    requires few { count_by is_free uses.old + layers.len < 2 ^ 32 }
    ensures uses { uses.new ≡ change_use layer_use block uses.old }
    ensures chain { ChainsUp uses.old uses.new links.old links.new layers result }
{
    let at = block as usize;
    let Use::Free = uses[at] else {
        return layers;
    };
    uses[at] = Use::Layer;
    note(hints, at, Use::Layer);
    links[at] = layers.head;
    Chain {
        head: block,
        len: layers.len + 1,
    }
}

/// Makes the free ones of these blocks layer blocks again, and puts them before a chain of these.
/// Costs these blocks.
pub(crate) fn take_all_back(
    uses: &mut [Use],
    hints: &mut [u64],
    links: &mut [u32],
    layers: Chain,
    stay: &[u32],
) -> Chain
    requires below { All (λ b. b < length uses.old) stay.now }
    requires links { length links.old ≡ length uses.old }
    requires few { count_by is_free uses.old + layers.len < 2 ^ 32 }
    ensures uses { uses.new ≡ change_all layer_use stay.now uses.old }
    ensures chain { ChainsUp uses.old uses.new links.old links.new layers result }
{
    let mut chain = layers;
    for block in stay {
        chain = take_back(uses, hints, links, chain, *block);
    }
    chain
}

/// Ends a pin; how many blocks are free that were kept for pins alone. Costs the blocks that pins
/// keep where it was the last pin of its layers.
pub(crate) fn end_pin(uses: &mut [Use], hints: &mut [u64], pins: &mut Pins, pin: usize) -> u32
    requires fit { FitPins uses.old pins.old }
    requires pin { IsSome (pin_at pins.old.pins pin) }
    requires few { length uses.old < 2 ^ 32 }
    ensures pins { IfSome (pin_at pins.old.pins pin)
        (λ set. pins.new ≡ unpinned pins.old pin set) }
    ensures uses { (b : ℕ) → use_at uses.new b ≡
        unpinned_use (is_kept pins.new.kept b) (use_at uses.old b) }
    ensures count { count_by is_free uses.new ≡ count_by is_free uses.old + result }
{
    if !pins.is_last(pin) {
        pins.unpin(pin);
        return 0;
    }
    let freed = free_pinned(uses, hints, pins.kept());
    pins.unpin(pin);
    let kept = pin_free(uses, hints, pins.kept());
    freed - kept
}
