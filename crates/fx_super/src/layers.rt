ghost use Rattle.std.specs.Prelude.{◌≡◌, ◌≤◌, ◌<◌, ◌*◌, ◌+◌, ◌↔◌, ◌++◌, ◌∷◌, [], ℕ, List, IsTrue, MatchOption, length, replicate};
ghost use Rattle.fx_super.specs.Layers.{layer_bytes, HoldsLayers};

use byteorder::{ByteOrder, LittleEndian};
use std::marker::Model;

/// The most layers of one tree.
pub const LAYERS: usize = 32;

/// How many bytes the list of one tree's layers takes in a superblock.
pub const LAYER_BYTES: usize = 128;

/// The first blocks of a tree's layers, the newest first: at most 32.
#[derive(Clone, Copy, Debug, PartialEq, Eq)]
pub struct LayerList {
    count: usize,
    firsts: [u32; LAYERS],
}

impl Model for LayerList {
    ghost use Rattle.std.specs.Prelude.{ℕ, List, take, length};
    ghost use Rattle.fx_super.specs.Layers.{padded_layers, IsPadded, length-used, padded-used};

    ghost Value = { List ℕ };

    ghost view = { λ l. take l.count l.firsts };

    ghost invariant = { λ l. IsPadded l.firsts l.count };

    ghost inverse = { λ list. record { count = length list; firsts = padded_layers list } };

    ghost inverse_ok = { λ l h i. record {
      count = length-used l.firsts l.count h i;
      firsts = padded-used l.firsts l.count h i;
    } };
}

impl LayerList {
    /// No layers.
    pub fn new() -> LayerList
        ensures { result ≡ [] }
    {
        LayerList {
            count: 0,
            firsts: [0; LAYERS],
        }
    }

    /// These layers, the newest first, at most 32.
    pub fn from_slice(blocks: &[u32]) -> LayerList
        requires { length blocks.now ≤ LAYERS }
        ensures { result ≡ blocks.now }
    {
        let mut firsts = [0; LAYERS];
        firsts[..blocks.len()].copy_from_slice(blocks);
        LayerList {
            count: blocks.len(),
            firsts,
        }
    }

    /// The layers, the newest first, at most 32.
    pub fn as_slice(&self) -> &[u32]
        ensures layers { result.now ≡ self.now }
        ensures bounded { length self.now ≤ LAYERS }
    {
        &self.firsts[..self.count]
    }

    /// How many layers there are, at most 32.
    pub fn count(&self) -> u32
        ensures { result ≡ length self.now }
    {
        self.count as u32
    }

    /// Whether there is no room for a further layer.
    pub fn is_full(&self) -> bool
        ensures full { IsTrue result ↔ (length self.now ≡ LAYERS) }
        ensures bounded { length self.now ≤ LAYERS }
    {
        self.count == LAYERS
    }

    /// Adds a layer that is older than all others. There are fewer than 32.
    pub fn push(&mut self, block: u32)
        requires { length self.old < LAYERS }
        ensures { self.new ≡ self.old ++ block ∷ [] }
    {
        self.firsts[self.count] = block;
        self.count += 1;
    }

    /// Writes the list as it stands in a superblock.
    pub(crate) fn write(&self, into: &mut [u8])
        requires { length into.old ≡ LAYER_BYTES }
        ensures { into.new ≡ layer_bytes self.now }
    {
        LittleEndian::write_u32_into(&self.firsts, into);
    }

    /// The list of `count` layers that stands here, with zeros in the places that are not used.
    pub(crate) fn read(bytes: &[u8], count: u32) -> Option<LayerList>
        requires { length bytes.now ≡ LAYER_BYTES }
        ensures { MatchOption result ((list : List ℕ) → HoldsLayers bytes.now count list → ⊥)
            (λ list. HoldsLayers bytes.now count list) }
    {
        let count = count as usize;
        if LAYERS < count {
            return None;
        }
        let mut firsts = [0; LAYERS];
        LittleEndian::read_u32_into(bytes, &mut firsts);
        if !are_zero(&firsts[count..]) {
            return None;
        }
        Some(LayerList { count, firsts })
    }
}

/// Whether all numbers are zero.
fn are_zero(numbers: &[u32]) -> bool
    ensures { IsTrue result ↔ (numbers.now ≡ replicate (length numbers.now) 0) }
{
    numbers.iter().all(|number| *number == 0)
}
