//! The numbers and their calls.
ghost use Rattle.std.specs.Prelude.{◌≡◌, ◌+◌, ◌<◌, ◌≤◌, ◌^◌, ◌↔◌, length, take, slice_get, Some, None, IsTrue, IsSome, IfOk, OnOk, OnErr};
ghost use Rattle.std.specs.Arc.{arc_value};
ghost use Rattle.fx_events.specs.Notes.{base_number, history_in, settled_upto};
ghost use Rattle.fx_layerset.specs.Alike.{IsMergeOf};
ghost use Rattle.fx_parts.specs.Parts.{IsEmptyPart};
ghost use Rattle.fx_parts.specs.Happening.{AskKey, Commit, Count, DropSnapshot, Enter, Leave, MakeRoom, Mark, MayAsk, MayRaise, Meet, RaiseBase, RaiseKey, Reserve, RollBack, TakeSnapshot, Tidy, Unlock};
ghost use Rattle.fx_numbers.specs.Shots.{reservation_of, taken_of};
ghost use Rattle.fx_numbers.specs.Slots.{reserved_at};
ghost use Rattle.fx_numbers.specs.State.{CanGive, HasFreeNumber, HasUsedPart, IsLeastFree, IsOpened, IsStep, IsStepBy, IsUsed, MayStep, commit_now, lists_in, reserved_next, shot_now, tidy_levels};

use crate::given::{Found, Given};
use crate::log::{Happened, Log};
use crate::slots::Slots;
use crate::snapshot::Snapshot;
use fx_batch::Batch;
use fx_history::{Entry, History};
use fx_item::Need;
use fx_keys::{Asked, KeyTable, LockKey, Mode};
use fx_layerset::LayerSet;
use std::alloc::{AllocError, Global};
use std::marker::Model;
use std::sync::Arc;

/// What up to 32 numbers of a mounted disk share.
///
/// Each call says which event of the shared state it is (`IsStep`), so that the laws of events apply
/// to it: the state stays sound, and other numbers' parts are as they were.
#[derive(Drop)]
pub struct Numbers {
    kept: u64,
    base: u64,
    blocks: u32,
    ring: u32,
    log: Log,
    set: LayerSet<Batch>,
    table: KeyTable,
    parts: Slots,
    ids: u64,
    stores: u32,
    faults: u64,
    // told of the notes: the last commit, the last that is settled, the base count
    number: u64,
    settled: u64,
    folded: u64,
}

impl Model for Numbers {
    ghost use Rattle.fx_keys.specs.contracts.table.KeyTable as keys;
    ghost use Rattle.fx_numbers.specs.contracts.log.Log as noted;
    ghost use Rattle.fx_numbers.specs.contracts.slots.Slots as slots;
    ghost use Rattle.fx_numbers.specs.contracts.snapshot.Snapshot as shot;
    ghost use Rattle.fx_numbers.specs.State.{NumbersState, numbers_code};

    ghost Value = { NumbersState };

    ghost coded = { numbers_code noted.the_row.coded shot.the_row.coded keys.the_row.coded
        slots.the_row.coded };

    ghost use Rattle.fx_numbers.specs.Inner.{AreNumbers, numbers_from};

    ghost view = { numbers_from };

    ghost invariant = { AreNumbers };
}

impl Numbers {
    /// Right after a mount, which found these levels: no number is in use. Takes no memory.
    pub fn open(alloc: Global, found: Found, set: LayerSet<Batch>) -> Numbers
        ensures { IsOpened found set.levels result }
    {
        Numbers {
            kept: found.kept,
            base: found.base,
            blocks: found.blocks,
            ring: found.ring,
            log: Log::new(alloc),
            set,
            table: KeyTable::new(alloc),
            parts: Slots::new(alloc),
            ids: found.ids,
            stores: found.stores,
            faults: found.faults,
            number: found.kept,
            settled: found.kept,
            folded: found.base,
        }
    }

    /// The number of the last commit.
    pub fn number(&self) -> u64
        ensures { result ≡ commit_now self.now }
    {
        self.number
    }

    /// The number of the last commit that the mount found.
    pub fn kept(&self) -> u64
        ensures { result ≡ self.now.kept }
    {
        self.kept
    }

    /// The number up to which commits are settled.
    pub fn settled(&self) -> u64
        ensures { result ≡ settled_upto self.now.kept self.now.notes }
    {
        self.settled
    }

    /// The base count: the commits that the layers hold.
    pub fn folded(&self) -> u64
        ensures { result ≡ base_number self.now.base self.now.notes }
    {
        self.folded
    }

    /// The faults that the disk has counted.
    pub fn faults(&self) -> u64
        ensures { result ≡ self.now.faults }
    {
        self.faults
    }

    /// How many batches the levels have.
    pub fn batch_count(&self) -> usize
        ensures { result ≡ length self.now.levels.batches }
    {
        self.set.batch_count()
    }

    /// Whether `enter` may be called: fewer than 32 numbers are in use. Costs a pass over these.
    pub fn has_free(&self) -> bool
        ensures { IsTrue result ↔ HasFreeNumber self.now }
    {
        self.parts.has_free()
    }

    /// Whether something is reserved for the number; nothing where it is not in use.
    pub fn reserved(&self, who: u32) -> Option<bool>
        ensures { result ≡ reserved_at self.now.parts who }
    {
        self.parts.has_reserved(who)
    }

    /// The first id that was not given out.
    pub fn next_id(&self) -> u64
        ensures { result ≡ self.now.ids }
    {
        self.ids
    }

    /// The first store that was not given out.
    pub fn next_store(&self) -> u32
        ensures { result ≡ self.now.stores }
    {
        self.stores
    }

    /// Whether so many ids and stores can still be given out.
    pub fn can_give(&self, nodes: u32) -> bool
        ensures { IsTrue result ↔ CanGive self.now nodes }
    {
        nodes as u64 <= MAX_ID - 1 - self.ids.min(MAX_ID - 1)
            && self.ids < MAX_ID
            && nodes <= u32::MAX - self.stores
    }

    /// The least number that is not in use comes into use, with nothing. On an error nothing has
    /// changed. Costs a pass over the numbers in use.
    pub fn enter(&mut self) -> Result<u32, AllocError>
        requires { HasFreeNumber self.old }
        ensures step { IfOk result (λ who. IsStep self.old self.new (Enter who)) }
        ensures least { IfOk result (λ who. IsLeastFree self.old who) }
        ensures err { OnErr result (self.new ≡ self.old) }
    {
        let Ok(who) = self.parts.enter(self.faults) else {
            return Err(AllocError);
        };
        Ok(who)
    }

    /// The number has met a fault of the disk: it knows of all that were counted.
    pub fn met(&mut self, who: u32)
        requires { IsUsed self.old who }
        ensures { IsStep self.old self.new (Meet who) }
    {
        let mut part = self.parts.take(who);
        part.meet(self.faults);
        self.parts.put(who, part);
    }

    /// A number that holds nothing is in use no more.
    pub fn leave(&mut self, who: u32)
        requires { HasUsedPart self.old who IsEmptyPart }
        ensures { IsStep self.old self.new (Leave who) }
    {
        self.parts.take(who);
    }

    /// Room for so many further keys. On an error nothing has changed. Costs the memory of these keys.
    pub fn room(&mut self, who: u32, count: u32) -> Result<(), AllocError>
        requires { IsUsed self.old who }
        ensures step { OnOk result
            (IsStep self.old self.new (MakeRoom who count self.new.table)) }
        ensures err { OnErr result (self.new ≡ self.old) }
    {
        let mut part = self.parts.take(who);
        let Ok(()) = part.make_room(&mut self.table, who, count) else {
            self.parts.put(who, part);
            return Err(AllocError);
        };
        self.parts.put(who, part);
        Ok(())
    }

    /// Takes the key in this mode, unless another's hold of it conflicts: then it names the least
    /// such. Takes no memory. Costs a binary search among the keys of each other number.
    pub fn ask(&mut self, who: u32, key: LockKey, mode: Mode) -> Asked
        requires { HasUsedPart self.old who (MayAsk key mode) }
        ensures { IsStep self.old self.new (AskKey who key mode result self.new.table) }
    {
        if let Asked::Busy(other) = self.table.ask(who, key, mode) {
            return Asked::Busy(other);
        }
        let mut part = self.parts.take(who);
        part.hold(key, mode, self.number);
        self.parts.put(who, part);
        Asked::Held
    }

    /// Turns a `Change` of the number's into a `Write`, unless another reads: then it names the least
    /// such. Takes no memory. Costs a binary search among the keys of each number.
    pub fn raise(&mut self, who: u32, key: LockKey) -> Asked
        requires { HasUsedPart self.old who (MayRaise key) }
        ensures { IsStep self.old self.new (RaiseKey who key result self.new.table) }
    {
        if let Asked::Busy(other) = self.table.raise(who, key) {
            return Asked::Busy(other);
        }
        let mut part = self.parts.take(who);
        part.raise(key);
        self.parts.put(who, part);
        Asked::Held
    }

    /// The number gives up all its keys and its room. Takes no memory, and gives back what they took.
    pub fn unlock(&mut self, who: u32)
        requires { IsUsed self.old who }
        ensures { IsStep self.old self.new (Unlock who self.new.table) }
    {
        self.table.drop_all(who);
        let mut part = self.parts.take(who);
        part.unlock();
        self.parts.put(who, part);
    }

    /// A snapshot of now, which the number's part keeps too. On an error nothing has changed. It costs
    /// the number of levels; no item is copied.
    pub fn snapshot(&mut self, alloc: Global, who: u32) -> Result<Snapshot, AllocError>
        requires { IsUsed self.old who }
        ensures step { IfOk result (λ _. IsStep self.old self.new (TakeSnapshot who)) }
        ensures shows { IfOk result (λ shot. shot ≡ shot_now self.old) }
        ensures err { OnErr result (self.new ≡ self.old) }
    {
        let Ok(shot) = Snapshot::take(alloc, self.number, &self.set) else {
            return Err(AllocError);
        };
        let Ok(own) = shot.share() else {
            return Err(AllocError);
        };
        let mut part = self.parts.take(who);
        let Ok(()) = part.add_snapshot(own) else {
            self.parts.put(who, part);
            return Err(AllocError);
        };
        self.parts.put(who, part);
        Ok(shot)
    }

    /// The number gives up the snapshot with this index, and the handle of it that was given out.
    pub fn drop_snapshot(&mut self, who: u32, index: usize, shot: Snapshot)
        requires { HasUsedPart self.old who
            (λ part. slice_get part.snapshots index ≡ Some (taken_of shot)) }
        ensures { IsStep self.old self.new (DropSnapshot who index) }
    {
        let _given_back = shot;
        let mut part = self.parts.take(who);
        part.drop_snapshot(index);
        self.parts.put(who, part);
    }

    /// Reserves this for a number that has nothing reserved: so many ids and stores are given to it,
    /// each once ever, and there is memory for its commit and for a mark of it. On an error nothing
    /// has changed. Costs that memory, and a pass over the numbers.
    pub fn reserve(&mut self, who: u32, need: Need, bytes: u32) -> Result<Given, AllocError>
        requires part { HasUsedPart self.old who (λ part. part.reserved ≡ None) }
        requires give { CanGive self.old need.nodes }
        ensures step { IfOk result (λ _. IsStep self.old self.new (Reserve who need bytes)) }
        ensures given { IfOk result
            (λ given. reservation_of given ≡ reserved_next self.old need bytes) }
        ensures err { OnErr result (self.new ≡ self.old) }
    {
        let promised = self.parts.reserved() + 1;
        let Ok(()) = self.set.reserve(promised) else {
            return Err(AllocError);
        };
        let Ok(()) = self.log.promise(self.number - self.settled, promised) else {
            return Err(AllocError);
        };
        let given = Given {
            need,
            bytes,
            id: self.ids,
            store: self.stores,
        };
        self.ids += need.nodes as u64;
        self.stores += need.nodes;
        let mut part = self.parts.take(who);
        part.reserve(given);
        self.parts.put(who, part);
        Ok(given)
    }

    /// What was reserved for the number is given back. Its ids and stores are not given out again.
    pub fn rollback(&mut self, who: u32)
        requires { IsUsed self.old who }
        ensures { IsStep self.old self.new (RollBack who) }
    {
        let mut part = self.parts.take(who);
        part.roll_back();
        self.parts.put(who, part);
    }

    /// Commits the items of the batch, as this entry, which is the next one. It takes no memory and
    /// refuses nothing. It costs its own size: neither that of the parts, nor of keys, nor of entries.
    pub fn commit(&mut self, who: u32, entry: Entry, batch: Arc<Batch>)
        requires part { HasUsedPart self.old who (λ part. IsSome part.reserved) }
        requires number { entry.number ≡ commit_now self.old + 1 }
        ensures { IsStepBy self.old self.new (Commit who entry (arc_value batch)) }
    {
        let number = entry.number;
        let mut part = self.parts.take(who);
        part.commit(number);
        self.parts.put(who, part);
        self.set.push(batch);
        self.log.push(Happened::Commits(entry));
        self.number = number;
    }

    /// A flush has settled the commits up to the number, after so many device calls. It takes no
    /// memory: that of a mark was reserved with each commit.
    pub fn mark(&mut self, number: u64, calls: u64)
        requires { MayStep self.old (Mark number calls) }
        ensures { IsStepBy self.old self.new (Mark number calls) }
    {
        self.log.push(Happened::Settles { number, calls });
        self.settled = number;
    }

    /// A checkpoint has raised the base count. On an error nothing has changed.
    pub fn raise_base(&mut self, base: u64) -> Result<(), AllocError>
        requires { MayStep self.old (RaiseBase base) }
        ensures step { OnOk result (IsStepBy self.old self.new (RaiseBase base)) }
        ensures err { OnErr result (self.new ≡ self.old) }
    {
        let promised = self.parts.reserved() + 1;
        let Ok(()) = self.log.promise(self.number - self.settled, promised) else {
            return Err(AllocError);
        };
        self.log.push(Happened::Raises(base));
        self.folded = base;
        Ok(())
    }

    /// One batch stands in the place of the oldest `below` ones, whose merge it is, as
    /// `Snapshot::merged_batches` gives it. It takes no memory, and costs the number of batches.
    pub fn tidy(&mut self, below: usize, batch: Arc<Batch>)
        requires some { 0 < below }
        requires below { below ≤ length self.old.levels.batches }
        requires merged { IsMergeOf (take below self.old.levels.batches) (arc_value batch) }
        ensures step { IsStep self.old self.new (Tidy (lists_in self.new.levels)) }
        ensures levels { self.new.levels ≡ tidy_levels self.old.levels below (arc_value batch) }
    {
        self.set.tidy(below, batch);
    }

    /// The history: the entries since the mount, each with the device calls after which it was
    /// settled, or 0. It costs the notes, once, and takes memory for the entries.
    pub fn into_history(self, alloc: Global) -> Result<History, AllocError>
        ensures { IfOk result (λ history. history ≡ history_in self.notes) }
    {
        self.log.into_history(alloc)
    }

    /// The disk has counted so many faults.
    pub fn count(&mut self, faults: u64)
        requires { self.old.faults ≤ faults }
        ensures { IsStep self.old self.new (Count faults) }
    {
        self.faults = faults;
    }
}

/// Ids stay below this.
const MAX_ID: u64 = 1 << 63;
