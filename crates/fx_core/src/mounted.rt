//! A mounted core and its events.
ghost use Rattle.std.specs.Prelude.{◌≡◌, ◌++◌, ℕ, List, Ok, is_ok, ◌≢◌, ◌+◌, ◌<◌, ◌≤◌, ◌↔◌, ◌⊎◌, IfOk, IfErr, IfSome, OnOk, OnErr, IsTrue, None, Some, slice_get};
ghost use Rattle.std.specs.Arc.{arc_value};
ghost use Rattle.fx_disk.specs.Seen.{HasCalled, HasFlushed};
ghost use Rattle.fx_plain.specs.Tree.{Tree};
ghost use Rattle.fx_events.specs.Notes.{base_number, settled_upto};
ghost use Rattle.fx_parts.specs.Live.{MakesNames};
ghost use Rattle.fx_parts.specs.Parts.{IsEmptyPart};
ghost use Rattle.fx_parts.specs.Sound.{IsSharedSound};
ghost use Rattle.fx_record.specs.Txns.{txns_of};
ghost use Rattle.fx_parts.specs.Happening.{AskKey, Commit, Count, DropSnapshot, Enter, Leave, MakeRoom, MayAsk, MayRaise, Meet, RaiseKey, Reserve, RollBack, TakeSnapshot, Unlock};
ghost use Rattle.fx_numbers.specs.Shots.{reservation_of, taken_of};
ghost use Rattle.fx_numbers.specs.Slots.{reserved_at};
ghost use Rattle.fx_numbers.specs.State.{HasFreeNumber, HasUsedPart, IsLeastFree, IsStep, IsStepBy, IsUsed, commit_now, reserved_next, shared_of, shot_now};
ghost use Rattle.fx_journal.specs.Ring.{HoldsQueue, Queued, begun, next_block, next_place, number, padded, padding, want};
ghost use Rattle.fx_journal.specs.Writing.{WritesFirst, wrote};
ghost use Rattle.fx_record.specs.Record.{TransactionRecord, record_bytes};
ghost use Rattle.fx_core.specs.Core.{AreSpent, BeginsCore, HasAppended, HasBegunCore, HasCancelled, HasMarked, HasNoPlace, HasPromised, HasWrittenOne, LeavesHistory, OpensAs, IsPreparedFor, IsReserveCause, IsUnreserved, numbered_entry};

use crate::reserving::ReserveRefusal;
use crate::tail::{NotOpened, Tail};
use fx_batch::Batch;
use fx_disk::{Disk, DiskFailed};
use fx_history::Entry;
use fx_item::{MAX_GIVEN, Need};
use fx_journal::{Ring, Wrote};
use fx_keys::{Asked, LockKey, Mode};
use fx_layerset::LayerSet;
use fx_numbers::{Found, Given, Numbers, Snapshot};
use fx_pool::Pool;
use fx_record::{Txns, set_number};
use std::alloc::{AllocError, Global};
use std::marker::Model;
use std::sync::Arc;

/// A commit that is ready: its entry, whose number is put in by the commit, its items, and its record
/// under any number.
#[derive(Drop)]
pub struct Prepared {
    pub entry: Entry,
    pub batch: Arc<Batch>,
    pub text: Vec<u8>,
}

/// A flush: a stop after this many calls keeps the commits up to this number.
#[derive(Clone, Copy, Debug, PartialEq, Eq)]
pub struct Mark {
    /// The number of the last commit that is kept.
    pub number: u64,
    /// The disk's count of calls.
    pub calls: u64,
}

/// What a mount found, and the journal that goes on from it.
pub struct Mounted {
    /// The disk's count of calls at the mount.
    pub from: u64,
    /// The transactions that the image has.
    pub txns: Txns,
    pub found: Found,
    /// A batch for each transaction.
    pub set: LayerSet<Batch>,
    pub ring: Ring,
    pub pool: Pool,
}

/// What is left of a core.
#[derive(Drop)]
pub struct CoreEnd<D> {
    pub disk: D,
    /// The commits since the mount, by [`Numbers::into_history`].
    pub numbers: Numbers,
}

/// A mounted disk as events of up to 32 numbers (transactions): what they share, the ring of the
/// journal, and the disk. Each call is one event.
pub struct Core<D: Disk> {
    disk: D,
    from: u64,
    txns: Txns,
    end_ids: u64,
    end_stores: u32,
    numbers: Numbers,
    tail: Tail,
}

impl<D: Disk> Model for Core<D> {
    ghost use Rattle.fx_plain.specs.Tree.{Tree};
    ghost use Rattle.fx_record.specs.Txns.{txns_of};
    ghost use Rattle.fx_numbers.specs.State.{shared_of};
    ghost use Rattle.fx_core.specs.Core.{CoreState};
    ghost use Rattle.fx_core.specs.Inside.{IsCore};
    ghost use Rattle.std.specs.Coded.{codes};
    ghost use Rattle.fx_numbers.specs.contracts.numbers.Numbers as shared;

    ghost Value = { CoreState D };

    ghost coded = { Prim.hlevel (codes, shared.the_row.coded) };

    ghost view = { λ c. record {
      disk = c.disk;
      from = c.from;
      txns = txns_of c.txns;
      end = record { ids = c.end_ids; stores = c.end_stores };
      numbers = c.numbers;
      tail = c.tail;
    } };

    ghost invariant = { λ c. (tree : Tree) × IsCore (D.seen c.disk) c.from (txns_of c.txns)
        (record { ids = c.end_ids; stores = c.end_stores }) (shared_of tree c.numbers) c.tail };
}

impl<D: Disk> Core<D> {
    /// The core of a disk that was mounted after `from` calls, with the transactions that the image
    /// has: no number is in use. Takes eight bytes a block of the ring; where memory is refused the
    /// disk is given back, and nothing was asked of it.
    pub fn open(alloc: Global, disk: D, found: Mounted) -> Result<Core<D>, D>
        requires { BeginsCore (D.seen disk) found.from (txns_of found.txns) found.found
            found.set.levels found.ring found.pool }
        ensures begun { IfOk result (HasBegunCore disk found.from (txns_of found.txns) found.found
            found.set.levels found.ring found.pool) }
        ensures refused { IfErr result (λ same. same ≡ disk) }
    {
        fx_item::after_all_law();
        let Mounted {
            from,
            txns,
            found,
            set,
            ring,
            pool,
        } = found;
        let tail = match Tail::open(alloc, ring, pool, found.ring, found.kept) {
            Ok(tail) => tail,
            Err(NotOpened { ring, mut pool }) => {
                ring.close(&mut pool);
                return Err(disk);
            }
        };
        Ok(Core {
            disk,
            from,
            txns,
            end_ids: found.ids + MAX_GIVEN,
            end_stores: found.stores + MAX_GIVEN as u32,
            numbers: Numbers::open(alloc, found, set),
            tail,
        })
    }

    /// What a stop leaves, at each moment since the mount: the tree after a prefix of the history with
    /// all that was settled. And that what the numbers share is sound.
    pub fn leaves(&self)
        ensures images { IfSome (D.seen self.now.disk).told (LeavesHistory
            (D.seen self.now.disk).size self.now.from self.now.txns self.now.numbers) }
        ensures sound { (tree : Tree) → OpensAs self.now.txns tree
            → IsSharedSound MakesNames (shared_of tree self.now.numbers) }
        ensures done { self.now.tail.ring.queued + begun self.now.tail.ring.text ≡ 0
            → self.now.tail.done ≡ commit_now self.now.numbers }
        ensures faults { self.now.numbers.faults ≡ (D.seen self.now.disk).faults }
    {
        let _done = self.tail.done();
    }

    /// Gives the disk back, and what the numbers shared. What waits is dropped.
    pub fn end(self) -> CoreEnd<D>
        ensures gives { result ≡ record { disk = self.disk; numbers = self.numbers } }
        ensures images { IfSome (D.seen result.disk).told (LeavesHistory
            (D.seen result.disk).size self.from self.txns self.numbers) }
    {
        let Core {
            disk,
            from: _,
            txns: _,
            end_ids: _,
            end_stores: _,
            numbers,
            tail,
        } = self;
        tail.close();
        CoreEnd { disk, numbers }
    }

    /// The number of the last commit.
    pub fn number(&self) -> u64
        ensures { result ≡ commit_now self.now.numbers }
    {
        self.numbers.number()
    }

    /// The base count: the commits that the layers hold.
    pub fn folded(&self) -> u64
        ensures { result ≡ base_number self.now.numbers.base self.now.numbers.notes }
    {
        self.numbers.folded()
    }

    /// The faults that the disk has counted.
    pub fn faults(&self) -> u64
        ensures { result ≡ self.now.numbers.faults }
    {
        self.numbers.faults()
    }

    /// Whether `enter` may be called: fewer than 32 numbers are in use. Costs a pass over these.
    pub fn has_free(&self) -> bool
        ensures { IsTrue result ↔ HasFreeNumber self.now.numbers }
    {
        self.numbers.has_free()
    }

    /// Whether something is reserved for the number; nothing where it is not in use.
    pub fn reserved(&self, who: u32) -> Option<bool>
        ensures { result ≡ reserved_at self.now.numbers.parts who }
    {
        self.numbers.reserved(who)
    }

    /// The least number that is not in use comes into use, with nothing. On an error nothing has
    /// changed. Costs a pass over the numbers in use.
    pub fn enter(&mut self) -> Result<u32, AllocError>
        requires { HasFreeNumber self.old.numbers }
        ensures step { IfOk result (λ who.
            IsStep self.old.numbers self.new.numbers (Enter who)) }
        ensures least { IfOk result (λ who. IsLeastFree self.old.numbers who) }
        ensures rest { self.new ≡ record self.old { numbers = self.new.numbers } }
        ensures err { OnErr result (self.new ≡ self.old) }
    {
        let Ok(who) = self.numbers.enter() else {
            return Err(AllocError);
        };
        Ok(who)
    }

    /// The number has met a fault of the disk: it knows of all that were counted.
    pub fn met(&mut self, who: u32)
        requires { IsUsed self.old.numbers who }
        ensures step { IsStep self.old.numbers self.new.numbers (Meet who) }
        ensures rest { self.new ≡ record self.old { numbers = self.new.numbers } }
    {
        self.numbers.met(who);
    }

    /// A number that holds nothing is in use no more.
    pub fn leave(&mut self, who: u32)
        requires { HasUsedPart self.old.numbers who IsEmptyPart }
        ensures step { IsStep self.old.numbers self.new.numbers (Leave who) }
        ensures rest { self.new ≡ record self.old { numbers = self.new.numbers } }
    {
        self.numbers.leave(who);
    }

    /// Room for so many further keys. On an error nothing has changed. Costs the memory of these keys.
    pub fn room(&mut self, who: u32, count: u32) -> Result<(), AllocError>
        requires { IsUsed self.old.numbers who }
        ensures step { OnOk result (IsStep self.old.numbers self.new.numbers
            (MakeRoom who count self.new.numbers.table)) }
        ensures rest { self.new ≡ record self.old { numbers = self.new.numbers } }
        ensures err { OnErr result (self.new ≡ self.old) }
    {
        let Ok(()) = self.numbers.room(who, count) else {
            return Err(AllocError);
        };
        Ok(())
    }

    /// Takes the key in this mode, unless another's hold of it conflicts: then it names the least
    /// such. Takes no memory. Costs a binary search among the keys of each other number.
    pub fn ask(&mut self, who: u32, key: LockKey, mode: Mode) -> Asked
        requires { HasUsedPart self.old.numbers who (MayAsk key mode) }
        ensures step { IsStep self.old.numbers self.new.numbers
            (AskKey who key mode result self.new.numbers.table) }
        ensures rest { self.new ≡ record self.old { numbers = self.new.numbers } }
    {
        self.numbers.ask(who, key, mode)
    }

    /// Turns a `Change` of the number's into a `Write`, unless another reads: then it names the least
    /// such. Takes no memory. Costs a binary search among the keys of each number.
    pub fn raise(&mut self, who: u32, key: LockKey) -> Asked
        requires { HasUsedPart self.old.numbers who (MayRaise key) }
        ensures step { IsStep self.old.numbers self.new.numbers
            (RaiseKey who key result self.new.numbers.table) }
        ensures rest { self.new ≡ record self.old { numbers = self.new.numbers } }
    {
        self.numbers.raise(who, key)
    }

    /// The number gives up all its keys and its room. Takes no memory, and gives back what they took.
    pub fn unlock(&mut self, who: u32)
        requires { IsUsed self.old.numbers who }
        ensures step { IsStep self.old.numbers self.new.numbers
            (Unlock who self.new.numbers.table) }
        ensures rest { self.new ≡ record self.old { numbers = self.new.numbers } }
    {
        self.numbers.unlock(who);
    }

    /// A snapshot of now, which the number's part keeps too. On an error nothing has changed. It costs
    /// the number of levels; no item is copied.
    pub fn snapshot(&mut self, alloc: Global, who: u32) -> Result<Snapshot, AllocError>
        requires { IsUsed self.old.numbers who }
        ensures step { IfOk result (λ _.
            IsStep self.old.numbers self.new.numbers (TakeSnapshot who)) }
        ensures shows { IfOk result (λ shot. shot ≡ shot_now self.old.numbers) }
        ensures rest { self.new ≡ record self.old { numbers = self.new.numbers } }
        ensures err { OnErr result (self.new ≡ self.old) }
    {
        let Ok(shot) = self.numbers.snapshot(alloc, who) else {
            return Err(AllocError);
        };
        Ok(shot)
    }

    /// The number gives up the snapshot with this index, and the handle of it that was given out.
    pub fn drop_snapshot(&mut self, who: u32, index: usize, shot: Snapshot)
        requires { HasUsedPart self.old.numbers who
            (λ part. slice_get part.snapshots index ≡ Some (taken_of shot)) }
        ensures step { IsStep self.old.numbers self.new.numbers (DropSnapshot who index) }
        ensures rest { self.new ≡ record self.old { numbers = self.new.numbers } }
    {
        self.numbers.drop_snapshot(who, index, shot);
    }

    /// Reserves this for a number that has nothing reserved: ids and stores, which are given to it and
    /// to nobody else ever, room in the ring for so many record bytes, and all memory that its commit
    /// takes. Where it is refused nothing has changed. Costs that memory, and a pass over the numbers.
    pub fn reserve(&mut self, who: u32, need: Need, bytes: u32) -> Result<Given, ReserveRefusal>
        requires { HasUsedPart self.old.numbers who (λ part. part.reserved ≡ None) }
        ensures step { IfOk result (λ _.
            IsStep self.old.numbers self.new.numbers (Reserve who need bytes)) }
        ensures given { IfOk result
            (λ given. reservation_of given ≡ reserved_next self.old.numbers need bytes) }
        ensures unspent { OnOk result (AreSpent self.old need → ⊥) }
        ensures place { OnOk result (HasNoPlace self.old.tail.ring bytes → ⊥) }
        ensures promised { OnOk result (HasPromised self.old.tail self.new.tail who (want bytes)) }
        ensures rest { OnOk result (self.new ≡ record self.old {
          numbers = self.new.numbers;
          tail = self.new.tail;
        }) }
        ensures cause { IfErr result (IsReserveCause self.old need bytes) }
        ensures refused { OnErr result (IsUnreserved self.old self.new) }
    {
        if !can_give(&self.numbers, need.nodes, self.end_ids, self.end_stores) {
            return Err(ReserveRefusal::Spent);
        }
        if let Err(full) = self.tail.reserve(who, bytes) {
            return Err(ReserveRefusal::Full(full));
        }
        let Ok(given) = self.numbers.reserve(who, need, bytes) else {
            self.tail.cancel(who);
            return Err(ReserveRefusal::OutOfMemory);
        };
        Ok(given)
    }

    /// What was reserved for the number is given back. Its ids and stores are not given out again.
    pub fn rollback(&mut self, who: u32)
        requires { IsUsed self.old.numbers who }
        ensures step { IsStep self.old.numbers self.new.numbers (RollBack who) }
        ensures given_back { HasCancelled self.old.tail self.new.tail who }
        ensures rest { self.new ≡ record self.old {
          numbers = self.new.numbers;
          tail = self.new.tail;
        } }
    {
        self.tail.cancel(who);
        self.numbers.rollback(who);
    }

    /// Commits what was prepared over one of the number's snapshots, under the keys that it holds since
    /// then, as the next commit, and answers its number. No call of the disk is made: the record waits
    /// in the ring. It takes no memory and refuses nothing. It costs its own size.
    pub fn commit(&mut self, who: u32, prepared: Prepared) -> u64
        requires { HasUsedPart self.old.numbers who (IsPreparedFor who prepared.entry
            prepared.text.items (arc_value prepared.batch)) }
        ensures number { result ≡ commit_now self.old.numbers + 1 }
        ensures step { IsStepBy self.old.numbers self.new.numbers
            (Commit who (numbered_entry result prepared.entry) (arc_value prepared.batch)) }
        ensures appended { HasAppended self.old.tail self.new.tail who result
            (record_bytes (TransactionRecord result (arc_value prepared.batch))) }
        ensures rest { self.new ≡ record self.old {
          numbers = self.new.numbers;
          tail = self.new.tail;
        } }
    {
        let number = self.numbers.number() + 1;
        let Prepared { entry, batch, text } = prepared;
        let mut text = text;
        set_number(text.as_mut_slice(), number);
        self.tail.append(who, text.as_slice(), number);
        self.numbers.commit(who, numbered(entry, number), batch);
        number
    }

    /// Closes the unfinished block of the ring, if it holds bytes, and answers the sequence number after
    /// the last closed block. Takes no memory, and makes no call of the disk.
    pub fn pad_tail(&mut self) -> u64
        ensures padded { self.new.tail.ring ≡ padded self.old.tail.ring }
        ensures number { result ≡ number (next_place self.new.tail.ring) }
        ensures queue { (queue : List Queued)
            → HoldsQueue self.old.tail.ring self.old.tail.pool queue
            → HoldsQueue self.new.tail.ring self.new.tail.pool
            (queue ++ padding self.old.tail.ring) }
        ensures rest { self.new ≡ record self.old {
          tail = record self.old.tail { ring = self.new.tail.ring; pool = self.new.tail.pool };
        } }
    {
        self.tail.pad()
    }

    /// Writes the first block that waits and lies below the bound, by one call of the disk, or makes no
    /// call where none does. After a fault the block still waits.
    pub fn write_tail(&mut self, before: u64) -> Result<Wrote, DiskFailed>
        ensures answer { IfOk result (λ w. w ≡ wrote (next_block self.old.tail.ring before)) }
        ensures nothing { result ≡ Ok (wrote None) → self.new ≡ self.old }
        ensures first { (sequence : ℕ) → next_block self.old.tail.ring before ≡ Some sequence
            → WritesFirst self.old.tail.ring self.new.tail.ring
            self.old.tail.pool self.new.tail.pool
            (D.seen self.old.disk) (D.seen self.new.disk) sequence result }
        ensures written { (sequence : ℕ) → result ≡ Ok (wrote (Some sequence))
            → HasWrittenOne self.old.tail self.new.tail }
        ensures fault { OnErr result (self.new.tail ≡ self.old.tail) }
        ensures count { (sequence : ℕ) → next_block self.old.tail.ring before ≡ Some sequence
            → IsStep self.old.numbers self.new.numbers (Count (D.seen self.new.disk).faults) }
        ensures rest { self.new ≡ record self.old {
          disk = self.new.disk;
          numbers = self.new.numbers;
          tail = self.new.tail;
        } }
        ensures disk { HasCalled (D.seen self.old.disk) (D.seen self.new.disk) (is_ok result) }
    {
        match self.tail.write_next(&mut self.disk, before) {
            Err(fault) => {
                let faults = self.disk.faults();
                self.numbers.count(faults);
                return Err(fault);
            }
            Ok(Wrote::Nothing) => return Ok(Wrote::Nothing),
            Ok(Wrote::Block(sequence)) => {
                let faults = self.disk.faults();
                self.numbers.count(faults);
                return Ok(Wrote::Block(sequence));
            }
        }
    }

    /// Flushes the disk by one call: then the commits are settled whose records lie in blocks that are
    /// written, and no others. Answers the last of these, and the disk's count of calls. Takes no
    /// memory. After a fault nothing is settled.
    pub fn flush_mark(&mut self) -> Result<Mark, DiskFailed>
        ensures mark { IfOk result (λ mark. mark ≡ record {
          number = self.old.tail.done;
          calls = (D.seen self.new.disk).calls;
        }) }
        ensures settled { OnOk result
            (settled_upto self.new.numbers.kept self.new.numbers.notes ≡ self.old.tail.done) }
        ensures marked { OnOk result (HasMarked self.old.numbers self.new.numbers
            (D.seen self.new.disk).faults self.old.tail.done (D.seen self.new.disk).calls) }
        ensures fault { OnErr result (IsStep self.old.numbers self.new.numbers
            (Count (D.seen self.new.disk).faults)) }
        ensures rest { self.new ≡ record self.old {
          disk = self.new.disk;
          numbers = self.new.numbers;
        } }
        ensures disk { HasFlushed (D.seen self.old.disk) (D.seen self.new.disk) (is_ok result) }
    {
        if let Err(fault) = self.disk.flush() {
            let faults = self.disk.faults();
            self.numbers.count(faults);
            return Err(fault);
        }
        let faults = self.disk.faults();
        self.numbers.count(faults);
        let calls = self.disk.calls();
        let done = self.tail.done();
        if self.numbers.settled() < done {
            self.numbers.mark(done, calls);
        }
        Ok(Mark {
            number: done,
            calls,
        })
    }
}

// Whether so many ids and stores are left up to these.
fn can_give(numbers: &Numbers, nodes: u32, end_ids: u64, end_stores: u32) -> bool
    ensures { IsTrue result ↔ ((numbers.now.ids + nodes ≤ end_ids)
        × (numbers.now.stores + nodes ≤ end_stores)) }
{
    let ids = numbers.next_id();
    let stores = numbers.next_store();
    ids <= end_ids
        && stores <= end_stores
        && nodes as u64 <= end_ids - ids
        && nodes <= end_stores - stores
}

// The entry under this number.
fn numbered(entry: Entry, number: u64) -> Entry
    ensures { result ≡ numbered_entry number entry }
{
    let Entry {
        number: _,
        who,
        line,
        steps,
        settled,
    } = entry;
    Entry {
        number,
        who,
        line,
        steps,
        settled,
    }
}
