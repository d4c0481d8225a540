//! Mounting a disk.
ghost use Rattle.std.specs.Prelude.{◌≡◌, ◌+◌, ◌≤◌, [], Some, IfOk, IfErr, OnOk};
ghost use Rattle.std.specs.Option.{IfSome};
ghost use Rattle.fx_super.specs.Super.{Fields};
ghost use Rattle.fx_disk.specs.Record.{DiskRecord};
ghost use Rattle.fx_disk.specs.Seen.{GoesOn, HasOnlyRead};
ghost use Rattle.fx_plain.specs.Tree.{Tree};
ghost use Rattle.fx_image.specs.Standing.{Transactions};
ghost use Rattle.fx_store.specs.Mounted.{LeavesImages, LeavesOpening, Opens};
ghost use Rattle.fx_store.specs.Opening.{CanBegin};
ghost use Rattle.fx_mount.specs.Found.{HasReadWell, IsMountCause, IsMountable, IsMountedAt, IsNewStore, TakesImage, disk_after};

use crate::fault::MountFault;
use crate::find::find;
use crate::reading::read_journal;
use fx_disk::Disk;
use fx_store::{Contents, Found, Store};
use std::alloc::Global;

/// A disk that was not mounted, and why.
#[derive(Debug, Drop)]
pub struct Unmounted<D> {
    /// The disk.
    pub disk: D,
    /// The first cause.
    pub fault: MountFault,
}

/// Finds the superblock, and reads the journal. Writes nothing.
fn read<D: Disk>(alloc: Global, disk: &mut D) -> Result<(Found, Contents), MountFault>
    ensures read { IfOk result (λ it. CanBegin (D.seen disk.old) it.0 it.1) }
    ensures well { OnOk result (HasReadWell (D.seen disk.old) (D.seen disk.new)) }
    ensures cause { IfErr result (IsMountCause (D.seen disk.old) (D.seen disk.new)) }
    ensures only { HasOnlyRead (D.seen disk.old) (D.seen disk.new) }
{
    let found = match find(disk) {
        Ok(found) => found,
        Err(fault) => return Err(fault),
    };
    match read_journal(alloc, disk, &found.sup) {
        Ok(contents) => Ok((found, contents)),
        Err(fault) => Err(fault),
    }
}

/// Mounts the disk: reads both superblocks, the journal's stream and its records, and checks that
/// they make a tree; then writes the chosen superblock with the next generation over the other one,
/// and flushes. So it makes one write and one flush; where it is refused for what the disk holds,
/// it writes nothing.
///
/// Costs one pass over the stream's blocks, and the time of its records and of the tree's nodes.
/// All memory is taken before the superblock is written.
pub fn mount<D: Disk>(alloc: Global, disk: D) -> Result<Store<D>, Unmounted<D>>
    ensures new { IfOk result (λ store. IsNewStore (D.seen disk) (D.seen store.disk) store) }

    // The transactions make a tree, and the disk has an image that a session can go on from, with
    // these transactions, of which the last has the number `base`, and this tree.
    ensures opens { IfOk result (λ store. (opening : Tree) × Opens store.txns opening
        × IfSome (D.seen disk).told
        (IsMountedAt (D.seen disk).size store.base store.txns opening)) }

    // Such an image is mounted, unless the disk fails or memory runs out.
    ensures takes { (r : DiskRecord) (f : Fields) (txns : Transactions) (tree : Tree) →
        (D.seen disk).told ≡ Some r →
        IsMountable (D.seen disk).size r.contents f txns tree → TakesImage f txns result }

    // What a stop may leave, and that every image left now has the superblock of the next
    // generation.
    ensures images { IfOk result (λ store. LeavesImages (D.seen store.disk) store []) }

    ensures cause { IfErr result (λ un. IsMountCause (D.seen disk) (D.seen un.disk) un.fault) }

    // Whatever a stop leaves has the chosen superblock of before, or that of the next generation,
    // and stands for the tree that it was.
    ensures opening { IfErr result (λ un. LeavesOpening (D.seen disk).calls (D.seen un.disk)) }

    ensures few { (D.seen (disk_after result)).calls ≤ (D.seen disk).calls + 2 }
    ensures goes { GoesOn (D.seen disk) (D.seen (disk_after result)) }
{
    let mut disk = disk;
    let (found, contents) = match read(alloc, &mut disk) {
        Ok(it) => it,
        Err(fault) => return Err(Unmounted { disk, fault }),
    };
    match Store::begin(alloc, disk, &found, contents) {
        Ok(store) => Ok(store),
        Err(un) => Err(Unmounted {
            disk: un.disk,
            fault: MountFault::from(un.fault),
        }),
    }
}
