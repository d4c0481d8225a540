//! A mounted disk.
ghost use Rattle.std.specs.Prelude.{◌≡◌, ◌≢◌, ◌+◌, ◌<◌, ◌≤◌, All, true, false, None, length, is_ok, IfOk, OnOk, OnErr};
ghost use Rattle.fx_plain.specs.Tree.{Tree};
ghost use Rattle.fx_plain.specs.Table.{is_reading};
ghost use Rattle.fx_script.specs.Print.{StepKeepsRules};
ghost use Rattle.fx_script.specs.Sent.{TaskKeepsRules};
ghost use Rattle.fx_script.specs.declared.script.Task.{Task};
ghost use Rattle.fx_history.specs.Transcript.{EndsNext};
ghost use Rattle.fx_disk.specs.Seen.{HasFailedLast};
ghost use Rattle.fx_store.specs.Line.{Changes, Looks, change_task, flushes};
ghost use Rattle.fx_store.specs.Mounted.{EndsSync, KeepsLive, KeepsMount, LeavesDisk, LeavesSettled, Opens, SameMount, SyncDid, TakesRing, TellsFaults, WriteDid, WroteAll};

use crate::commit::Change;
use crate::put::{PutEnd, put};
use crate::session::Session;
use fx_disk::{Disk, DiskFailed};
use fx_history::{EndKind, History, Outcome};
use fx_journal::{Ring, Wrote};
use fx_plain::Step;
use fx_pool::Pool;
use fx_script::{Line, Task};
use std::alloc::Global;
use std::marker::Model;

/// A mounted disk: its journal, and the tree of its session. What files hold is in memory alone.
pub struct Store<D: Disk> {
    pub(crate) disk: D,
    pub(crate) from: u64,
    pub(crate) session: Session,
    pub(crate) ring: Ring,
    pub(crate) pool: Pool,
}

impl<D: Disk> Model for Store<D> {
    ghost use Rattle.std.specs.Prelude.{◌+◌};
    ghost use Rattle.fx_record.specs.Txns.{txns_of};
    ghost use Rattle.fx_journal.specs.Ring.{begun, live};
    ghost use Rattle.fx_store.specs.Mounted.{State};
    ghost use Rattle.fx_store.specs.Inside.{IsStore};

    ghost Value = { State D };

    ghost view = { λ s. record {
      disk = s.disk;
      from = s.from;
      base = s.session.base;
      txns = txns_of s.session.txns;
      history = s.session.history.items;
      ring = s.ring.size;
      live = live s.ring;
      waiting = s.ring.queued + begun s.ring.text;
    } };

    ghost invariant = { λ s. IsStore (D.seen s.disk) s.from s.session s.ring s.pool };
}

/// A sync: a stop after this many calls keeps the commits up to this number.
#[derive(Clone, Copy, Debug, PartialEq, Eq)]
pub struct Mark {
    /// The number of the last commit that is kept.
    pub number: u64,
    /// The disk's count of calls.
    pub calls: u64,
}

/// What is left of a mounted disk.
#[derive(Debug, Drop)]
pub struct StoreEnd<D> {
    /// The disk.
    pub disk: D,
    /// The number of the last commit at the mount.
    pub base: u64,
    /// The commits made since.
    pub history: History,
}

impl<D: Disk> Store<D> {
    /// Does a line. A line that looks leaves the disk alone, and so does one that changes the tree:
    /// its record waits in the journal's queue in memory. `sync` writes and flushes, as
    /// [`Store::sync`]. A task that was made by hand can be done where [`Task::keeps_rules`] holds.
    pub fn exec(&mut self, alloc: Global, task: Task) -> Outcome
        requires { TaskKeepsRules task }
        ensures ends { (opening : Tree) → Opens self.old.txns opening →
            EndsNext opening self.old.base self.old.history self.new.history
            task result.at result.kind }
        ensures takes { TakesRing self.old self.new result.kind }
        ensures still { task.line ≢ Line.Sync → LeavesDisk self.old self.new }
        ensures syncs { task.line ≡ Line.Sync →
            EndsSync (D.seen self.old.disk) (D.seen self.new.disk) self.old self.new result.kind }
        ensures faults { TellsFaults (D.seen self.old.disk) (D.seen self.new.disk) result.kind }
        ensures keeps { KeepsMount (flushes task.line)
            (D.seen self.old.disk) (D.seen self.new.disk) self.old self.new }
    {
        let Task {
            client,
            number,
            line,
        } = task;
        match line {
            Line::Single(step) => {
                if step.is_reading() {
                    return self.look(alloc, &step);
                }
                let change = Change {
                    client,
                    line: number,
                    step,
                };
                return self.change(alloc, change);
            }
            Line::Sync => return self.sync_line(),
        }
    }

    /// How a line ends for which there is no memory, and which is no `sync`: nothing is done.
    pub fn out_of_memory(&self) -> Outcome
        ensures ends { (opening : Tree) (task : Task) → Opens self.now.txns opening →
            task.line ≢ Line.Sync →
            EndsNext opening self.now.base self.now.history self.now.history
            task result.at result.kind }
        ensures memory { result.kind ≡ EndKind.OutOfMemory }
    {
        Outcome::new(self.number(), EndKind::OutOfMemory)
    }

    /// Does a line whose one step looks at the tree.
    fn look(&mut self, alloc: Global, step: &Step) -> Outcome
        requires reading { is_reading step.now ≡ true }
        ensures ends { (opening : Tree) (task : Task) → Opens self.old.txns opening →
            task.line ≡ Line.Single step.now →
            EndsNext opening self.old.base self.old.history self.new.history
            task result.at result.kind }
        ensures looks { Looks result.kind }
        ensures same { self.new ≡ self.old }
    {
        self.session.look(alloc, step)
    }

    /// Does a line whose one step changes the tree. All memory that the commit wants, and its room
    /// in the ring, are taken before the step is done.
    fn change(&mut self, alloc: Global, change: Change) -> Outcome
        requires client { 0 < change.client }
        requires rules { StepKeepsRules change.step }
        requires changing { is_reading change.step ≡ false }
        ensures ends { (opening : Tree) → Opens self.old.txns opening →
            EndsNext opening self.old.base self.old.history self.new.history
            (change_task change) result.at result.kind }
        ensures changes { Changes result.kind }
        ensures takes { TakesRing self.old self.new result.kind }
        ensures still { LeavesDisk self.old self.new }
        ensures mount { SameMount self.old self.new }
    {
        let at = self.session.number();
        if let Some(refusal) = self.session.refusal(&change.step) {
            return Outcome::new(at, EndKind::Refused(1, refusal));
        }
        let Ok(commit) = self.session.prepare(alloc, &change.step) else {
            return Outcome::new(at, EndKind::OutOfMemory);
        };
        let done = put(
            alloc,
            &mut self.session,
            &mut self.ring,
            &mut self.pool,
            change,
            commit,
        );
        match done {
            PutEnd::Done => return Outcome::new(at + 1, EndKind::Committed),
            PutEnd::Full(full) => return Outcome::new(at, EndKind::Full(full)),
            PutEnd::OutOfMemory => return Outcome::new(at, EndKind::OutOfMemory),
        }
    }

    /// Does the line `sync`.
    fn sync_line(&mut self) -> Outcome
        ensures ends { (opening : Tree) (task : Task) → task.line ≡ Line.Sync →
            EndsNext opening self.old.base self.old.history self.new.history
            task result.at result.kind }
        ensures takes { TakesRing self.old self.new result.kind }
        ensures syncs { EndsSync (D.seen self.old.disk) (D.seen self.new.disk)
            self.old self.new result.kind }
        ensures faults { TellsFaults (D.seen self.old.disk) (D.seen self.new.disk) result.kind }
        ensures keeps { KeepsMount 1 (D.seen self.old.disk) (D.seen self.new.disk)
            self.old self.new }
    {
        let at = self.number();
        match self.sync() {
            Ok(mark) => Outcome::new(at, EndKind::Synced(mark.calls)),
            Err(DiskFailed) => Outcome::new(at, EndKind::DeviceFault(self.disk.faults())),
        }
    }

    /// The number of the last commit.
    pub fn number(&self) -> u64
        ensures number { result ≡ self.now.base + length self.now.history }
        ensures settled { All (λ entry. entry.settled ≤ (D.seen self.now.disk).calls)
            self.now.history }
    {
        self.session.number()
    }

    /// Pads the unfinished journal block, writes all blocks that wait, in order, and flushes. Makes
    /// one write a block that waits, and one flush, also where none waits. After a fault what was
    /// not written still waits, and nothing is settled.
    pub fn sync(&mut self) -> Result<Mark, DiskFailed>
        ensures mark { IfOk result (λ mark. mark ≡ record {
          number = self.old.base + length self.old.history;
          calls = (D.seen self.new.disk).calls;
        }) }
        ensures did { SyncDid (is_ok result) (D.seen self.old.disk) (D.seen self.new.disk)
            self.old self.new }
        ensures keeps { KeepsLive (D.seen self.old.disk) (D.seen self.new.disk)
            self.old self.new (is_ok result) }
    {
        if let Err(fault) = self.write_all() {
            return Err(fault);
        }
        let calls = match self.settle() {
            Ok(calls) => calls,
            Err(fault) => return Err(fault),
        };
        Ok(Mark {
            number: self.number(),
            calls,
        })
    }

    /// Writes all blocks that wait, in their order.
    fn write_all(&mut self) -> Result<(), DiskFailed>
        ensures all { OnOk result
            (WroteAll (D.seen self.old.disk) (D.seen self.new.disk) self.old self.new) }
        ensures last { OnErr result (HasFailedLast (D.seen self.new.disk)) }
        ensures history { self.new.history ≡ self.old.history }
        ensures keeps { KeepsLive (D.seen self.old.disk) (D.seen self.new.disk)
            self.old self.new (is_ok result) }
    {
        loop {
            match self.write_one() {
                Ok(true) => {}
                Ok(false) => return Ok(()),
                Err(fault) => return Err(fault),
            }
        }
    }

    /// Writes the first block that waits, where one does: the unfinished block is closed first, if
    /// it holds bytes. Makes one write, or none where no block waits.
    fn write_one(&mut self) -> Result<bool, DiskFailed>
        ensures did { WriteDid result (D.seen self.old.disk) (D.seen self.new.disk)
            self.old self.new }
        ensures history { self.new.history ≡ self.old.history }
        ensures keeps { KeepsLive (D.seen self.old.disk) (D.seen self.new.disk)
            self.old self.new (is_ok result) }
    {
        let _next = self.ring.pad(&mut self.pool);
        match self
            .ring
            .write_next(&mut self.pool, &mut self.disk, u64::MAX)
        {
            Ok(Wrote::Block(_)) => return Ok(true),
            Ok(Wrote::Nothing) => return Ok(false),
            Err(fault) => return Err(fault),
        }
    }

    /// Flushes, where no block waits: then each commit is settled. Answers the count of calls.
    fn settle(&mut self) -> Result<u64, DiskFailed>
        requires { self.old.waiting ≡ 0 }
        ensures calls { IfOk result (λ calls. calls ≡ (D.seen self.new.disk).calls) }
        ensures did { SyncDid (is_ok result) (D.seen self.old.disk) (D.seen self.new.disk)
            self.old self.new }
        ensures keeps { KeepsLive (D.seen self.old.disk) (D.seen self.new.disk)
            self.old self.new (is_ok result) }
    {
        if let Err(fault) = self.disk.flush() {
            return Err(fault);
        }
        let calls = self.disk.calls();
        self.session.settle(calls);
        Ok(calls)
    }

    /// Gives the disk back, with the commits that were made. What waits is dropped.
    pub fn end(self) -> StoreEnd<D>
        ensures gives { result ≡
            record { disk = self.disk; base = self.base; history = self.history } }

        // What a stop may leave, at each moment since the mount.
        ensures leaves { LeavesSettled (D.seen result.disk) self self.history }
    {
        let Store {
            disk,
            from: _,
            session,
            ring,
            mut pool,
        } = self;
        ring.close(&mut pool);
        let base = session.base();
        StoreEnd {
            disk,
            base,
            history: session.into_history(),
        }
    }
}
