//! What a store begins with, and its beginning.
ghost use Rattle.std.specs.Prelude.{◌≡◌, ◌+◌, ◌≤◌, [], IfOk, IfErr};
ghost use Rattle.fx_super.specs.Super.{fields_of};
ghost use Rattle.fx_super.specs.declared.superblock.TheConstants.{MAX_RING};
ghost use Rattle.fx_disk.specs.Seen.{DiskSeen, GoesOn};
ghost use Rattle.fx_log.specs.Chosen.{start_of};
ghost use Rattle.fx_store.specs.Mounted.{LeavesImages, LeavesOpening};
ghost use Rattle.fx_store.specs.Opening.{CanBegin, HasBegun, IsBeginCause, IsPoolFor, IsPrepared, IsRead, disk_left, read_from};

use crate::nodes::NodeMap;
use crate::raise::raise;
use crate::session::Session;
use crate::store::Store;
use fx_disk::Disk;
use fx_jblock::Start;
use fx_journal::Ring;
use fx_plain::Plain;
use fx_pool::Pool;
use fx_record::Txns;
use fx_super::{Super, Which};
use std::alloc::{AllocError, Global};

/// The most nodes of the tree that a store begins with, the root among them. A ring has fewer
/// bytes.
pub const MAX_OPENING_NODES: usize = 1 << 22;

/// The chosen superblock of a disk, and where it stands.
#[derive(Clone, Copy, Debug)]
pub struct Found {
    pub sup: Super,
    pub chosen: Which,
}

/// What the journal's stream holds, and the tree that its transactions make.
#[derive(Drop)]
pub struct Contents {
    /// How many blocks the stream has.
    pub closed: u32,
    /// The place after them.
    pub next: Start,
    /// The number of the last transaction.
    pub base: u64,
    pub txns: Txns,
    pub tree: Plain,
    /// The node of each path of the tree.
    pub nodes: NodeMap,
    /// The first id that nothing has used.
    pub next_id: u64,
    /// The first store that nothing has used.
    pub next_store: u32,
}

/// Why a store was not begun.
#[derive(Clone, Copy, Debug, PartialEq, Eq)]
pub enum BeginFault {
    /// The disk failed.
    Device,
    /// No memory was to be had, and the disk was not touched.
    OutOfMemory,
}

/// A disk on which no store was begun, and why.
#[derive(Debug, Drop)]
pub struct NotBegun<D> {
    pub disk: D,
    pub fault: BeginFault,
}

/// Where the superblock says that the stream begins.
pub fn start_of(sup: &Super) -> Start
    ensures { result ≡ start_of (fields_of sup.now) }
{
    Start {
        sequence: sup.sequence,
        chain: sup.chain,
        floor: sup.floor,
    }
}

/// All memory that a store begins with: its session, and the journal's ring with the pool of its
/// buffers.
pub(crate) struct Prepared {
    session: Session,
    ring: Ring,
    pool: Pool,
}

/// The pool for the buffers of a ring of so many blocks: the least with one more.
fn pool_for(alloc: Global, ring: u32) -> Result<Pool, AllocError>
    requires { ring ≤ MAX_RING }
    ensures { IfOk result (IsPoolFor ring) }
{
    let order = u32::BITS - ring.leading_zeros();
    Pool::new(alloc, order as u8)
}

/// Takes the memory that a store begins with.
fn prepare(alloc: Global, sup: &Super, contents: Contents) -> Result<Prepared, AllocError>
    requires { (seen : DiskSeen) × IsRead seen (fields_of sup.now) contents }
    ensures { (seen : DiskSeen) → (is : IsRead seen (fields_of sup.now) contents) →
        IfOk result (λ p. IsPrepared seen.size (fields_of sup.now) (read_from contents is.blocks)
        p.session p.ring p.pool) }
{
    let pool = pool_for(alloc, sup.ring)?;
    let ring = Ring::at(
        alloc,
        start_of(sup),
        sup.ring,
        contents.closed,
        contents.next,
        sup.generation + 1,
    )?;
    Ok(Prepared {
        session: Session::of(alloc, contents),
        ring,
        pool,
    })
}

impl<D: Disk> Store<D> {
    /// Begins a store on a disk of which this was read: takes all memory, then writes the chosen
    /// superblock with the next generation over the other one, and flushes. So it makes one write
    /// and one flush, or none where memory is refused.
    pub fn begin(
        alloc: Global,
        disk: D,
        found: &Found,
        contents: Contents,
    ) -> Result<Store<D>, NotBegun<D>>
        requires { CanBegin (D.seen disk) found.now contents }
        ensures begun { IfOk result (λ store.
            HasBegun (D.seen disk) (D.seen store.disk) found.now contents store) }

        // What a stop may leave, and that every image left now has the superblock of the next
        // generation.
        ensures images { IfOk result (λ store. LeavesImages (D.seen store.disk) store []) }

        // Want of memory comes before the disk is touched. A fault is that of the call that was
        // last asked for.
        ensures cause { IfErr result (λ un.
            IsBeginCause disk (D.seen disk) un (D.seen un.disk) un.fault) }
        ensures opening { IfErr result (λ un. LeavesOpening (D.seen disk).calls (D.seen un.disk)) }
        ensures few { (D.seen (disk_left result)).calls ≤ (D.seen disk).calls + 2 }
        ensures goes { GoesOn (D.seen disk) (D.seen (disk_left result)) }
    {
        let from = disk.calls();
        let mut disk = disk;
        let Ok(prepared) = prepare(alloc, &found.sup, contents) else {
            return Err(NotBegun {
                disk,
                fault: BeginFault::OutOfMemory,
            });
        };
        let Prepared {
            session,
            ring,
            mut pool,
        } = prepared;
        let Ok(()) = raise(&mut disk, found) else {
            ring.close(&mut pool);
            return Err(NotBegun {
                disk,
                fault: BeginFault::Device,
            });
        };
        Ok(Store {
            disk,
            from,
            session,
            ring,
            pool,
        })
    }
}
