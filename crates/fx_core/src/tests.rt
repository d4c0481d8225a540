//! Reservations of two numbers beside a ring that fills, and flushes of a disk that fails.
ghost use Rattle.std.specs.Prelude.{◌≡◌, [], None, IsTrue};
ghost use Rattle.fx_numbers.specs.State.{HasUsedPart, IsUsed, lists_in};

use super::*;
use crate::fake::FakeDisk;
use fx_batch::Batch;
use fx_disk::DiskFailed;
use fx_item::{Full, Need};
use fx_jblock::Start;
use fx_journal::Ring;
use fx_layerset::{LayerSet, Layers, LevelList};
use fx_numbers::Found;
use fx_pool::Pool;
use fx_record::Txns;
use fx_super::first_super;
use std::alloc::{AllocError, Global};

fn no_levels(alloc: Global) -> LayerSet<Batch>
    ensures { lists_in result.levels ≡ [] }
{
    LayerSet::new(
        alloc,
        Layers {
            objects: LevelList::new(Vec::new(alloc)),
            allocs: LevelList::new(Vec::new(alloc)),
        },
    )
}

/// The core of a disk of 1,088 blocks with a ring of 256, just formatted.
fn first_core(alloc: Global, failing_call: u64) -> Result<Core<FakeDisk>, AllocError> {
    first_core_law();
    let sup = first_super(1088, 256);
    let start = Start {
        sequence: sup.sequence,
        chain: sup.chain,
        floor: sup.floor,
    };
    let pool = Pool::new(alloc, 9)?;
    let ring = Ring::at(alloc, start, 256, 0, start, 2)?;
    let found = Found {
        kept: 0,
        base: 0,
        blocks: 1088,
        ring: 256,
        ids: 1,
        stores: 1,
        faults: 0,
    };
    let mounted = Mounted {
        from: 0,
        txns: Txns::new(Vec::new(alloc)),
        found,
        set: no_levels(alloc),
        ring,
        pool,
    };
    match Core::open(alloc, FakeDisk::of(1088, failing_call), mounted) {
        Ok(core) => Ok(core),
        Err(_disk) => Err(AllocError),
    }
}

fn has_nothing(core: &Core<FakeDisk>, who: u32) -> bool
    ensures { IsTrue result → HasUsedPart core.now.numbers who (λ part. part.reserved ≡ None) }
{
    matches!(core.reserved(who), Some(false))
}

fn is_used(core: &Core<FakeDisk>, who: u32) -> bool
    ensures { IsTrue result → IsUsed core.now.numbers who }
{
    core.reserved(who).is_some()
}

fn come(core: &mut Core<FakeDisk>) -> Result<u32, AllocError> {
    if !core.has_free() {
        return Err(AllocError);
    }
    core.enter()
}

/// Reserves one node and so many record bytes, and gives its id; 0 where something is reserved.
fn give(core: &mut Core<FakeDisk>, who: u32, bytes: u32) -> Result<u64, ReserveRefusal> {
    let need = Need {
        nodes: 1,
        attributes: 0,
        blocks: 0,
    };
    if !has_nothing(core, who) {
        return Ok(0);
    }
    let given = core.reserve(who, need, bytes)?;
    Ok(given.id)
}

fn take_back(core: &mut Core<FakeDisk>, who: u32) {
    if is_used(core, who) {
        core.rollback(who);
    }
}

/// The core with the numbers 1 and 2 in use.
fn two_numbers(alloc: Global) -> Result<Core<FakeDisk>, AllocError> {
    let mut core = first_core(alloc, 0)?;
    if come(&mut core) == Ok(1) && come(&mut core) == Ok(2) {
        return Ok(core);
    }
    let _end = core.end();
    Err(AllocError)
}

/// What the reservations give: of number 1 all 254 blocks that can be promised, of number 2 one
/// byte, and the same after number 1 rolled back.
fn fill(core: &mut Core<FakeDisk>) -> [Result<u64, ReserveRefusal>; 3] {
    let all = give(core, 1, 1_032_256);
    let none = give(core, 2, 1);
    take_back(core, 1);
    let some = give(core, 2, 1);
    [all, none, some]
}

#[test]
fn full_until_a_rollback(rt: HostRuntime) -> Result<(), AllocError> {
    let mut core = two_numbers(rt.alloc())?;
    let given = fill(&mut core);
    let _end = core.end();
    let full = Full {
        live: 1,
        promised: 254,
        want: 1,
    };
    assert!(rt; given == [Ok(1), Err(ReserveRefusal::Full(full)), Ok(2)]);
    Ok(())
}

/// The ids of reservations of numbers 1 and 2, and of number 1 after it rolled back.
fn ids(core: &mut Core<FakeDisk>) -> [Result<u64, ReserveRefusal>; 3] {
    let first = give(core, 1, 100);
    let second = give(core, 2, 100);
    take_back(core, 1);
    let third = give(core, 1, 100);
    [first, second, third]
}

#[test]
fn ids_are_given_once(rt: HostRuntime) -> Result<(), AllocError> {
    let mut core = two_numbers(rt.alloc())?;
    let given = ids(&mut core);
    let _end = core.end();
    assert!(rt; given == [Ok(1), Ok(2), Ok(3)]);
    Ok(())
}

#[test]
fn failed_flush_settles_nothing(rt: HostRuntime) -> Result<(), AllocError> {
    let mut core = first_core(rt.alloc(), 1)?;
    let failed = core.flush_mark();
    let (number, faults) = (core.number(), core.faults());
    let settled = core.flush_mark();
    let _end = core.end();
    assert!(rt; failed == Err(DiskFailed) && (number, faults) == (0, 1));
    let wanted = Mark {
        number: 0,
        calls: 2,
    };
    assert!(rt; settled == Ok(wanted));
    Ok(())
}
