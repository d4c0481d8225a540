//! Reading the layers that a superblock names.
ghost use Rattle.std.specs.Prelude.{◌≡◌, ◌≤◌, ◌+◌, ◌++◌, ℕ, List, IfOk, IfErr, length, count_by};
ghost use Rattle.fx_super.specs.Super.{fields_of};
ghost use Rattle.fx_super.specs.declared.choice.Which.{Which};
ghost use Rattle.fx_layfile.specs.Layer.{TellsImage, ReadsMarked, blocks_in};
ghost use Rattle.fx_found.specs.Image.{NamesDisk, blocks_of_layers};
ghost use Rattle.fx_found.specs.Layers.{AreLayers, HasLayers, marks_after};
ghost use Rattle.fx_found.specs.Faults.{IsFindFault};
ghost use Rattle.fx_found.specs.Reading.{ReadsAtMost, IsOfDisk, IsLayerFault, find_fault, has_read};

use crate::fault::FindFault;
use fx_disk::Disk;
use fx_layfile::{BlockSet, Layer, LayerFault, read_layer};
use fx_super::Super;
use std::alloc::Global;

/// Layers of one tree, the newest first.
pub(crate) type LayerVec = Vec<Layer>;

/// The layers of both trees, objects first. Each of their blocks is read once.
pub(crate) fn read_layers<D: Disk>(
    alloc: Global,
    disk: &mut D,
    sup: &Super,
) -> Result<(LayerVec, LayerVec), FindFault>
    requires disk { IsOfDisk (D.seen disk.old).size (fields_of sup.now) }
    ensures layers { (image : List (List ℕ)) → TellsImage (D.seen disk.old) image
        → IfOk result (λ r. HasLayers (blocks_in image) (D.seen disk.old).size
        (fields_of sup.now) r.0.items r.1.items) }
    ensures few { IfOk result (λ r.
        length (blocks_of_layers (r.0.items ++ r.1.items)) ≤ (D.seen disk.old).size) }
    ensures fault { (image : List (List ℕ)) (slot : Which) → TellsImage (D.seen disk.old) image
        → NamesDisk (D.seen disk.old).size image slot (fields_of sup.now)
        → IfErr result (IsFindFault (D.seen disk.old).size image) }
    ensures read { ReadsAtMost (D.seen disk.old) (D.seen disk.new) (D.seen disk.old).size
        (has_read result) }
{
    let Ok(mut taken) = BlockSet::new(alloc, disk.blocks()) else {
        return Err(FindFault::OutOfMemory);
    };
    let objects = sup.objects.as_slice();
    let objects = match read_tree(alloc, disk, sup.ring, 1, objects, &mut taken) {
        Ok(layers) => layers,
        Err(fault) => return Err(fault),
    };
    let allocs = sup.allocs.as_slice();
    let allocs = match read_tree(alloc, disk, sup.ring, 2, allocs, &mut taken) {
        Ok(layers) => layers,
        Err(fault) => return Err(fault),
    };
    Ok((objects, allocs))
}

/// The layers of a tree that these blocks begin.
fn read_tree<D: Disk>(
    alloc: Global,
    disk: &mut D,
    ring: u32,
    tree: u32,
    firsts: &[u32],
    taken: &mut BlockSet,
) -> Result<LayerVec, FindFault>
    requires sized { length taken.old ≡ (D.seen disk.old).size }
    ensures layers { (image : List (List ℕ)) → TellsImage (D.seen disk.old) image
        → IfOk result (λ r. AreLayers (blocks_in image) ring taken.old tree firsts.now r.items) }
    ensures marks { IfOk result (λ r. taken.new ≡ marks_after taken.old r.items) }
    ensures count { IfOk result (λ r. count_by (λ mark. mark) taken.new
        ≡ count_by (λ mark. mark) taken.old + length (blocks_of_layers r.items)) }
    ensures fault { (image : List (List ℕ)) → TellsImage (D.seen disk.old) image
        → IfErr result (IsLayerFault (blocks_in image) ring taken.old tree firsts.now) }
    ensures marked { ReadsMarked (D.seen disk.old) (D.seen disk.new) taken.old taken.new
        (has_read result) }
{
    let mut layers = Vec::new(alloc);
    for first in firsts {
        let layer = match read_layer(alloc, disk, ring, *first, tree, taken) {
            Ok(layer) => layer,
            Err(fault) => return Err(told_fault(fault)),
        };
        let Ok(()) = layers.push(layer) else {
            return Err(FindFault::OutOfMemory);
        };
    }
    Ok(layers)
}

/// The fault of an image that a layer's is.
fn told_fault(fault: LayerFault) -> FindFault
    ensures { result ≡ find_fault fault }
{
    match fault {
        LayerFault::BadBlock(block) => FindFault::BadLayer(block),
        LayerFault::Order(block) => FindFault::BadLayer(block),
        LayerFault::Device => FindFault::Device,
        LayerFault::OutOfMemory => FindFault::OutOfMemory,
    }
}
