//! The part of one number.
ghost use Rattle.std.specs.Prelude.{◌≡◌, ◌+◌, ◌<◌, ◌++◌, ◌∷◌, [], drop, suc, take, length, None, Some, OnOk, OnErr, is_some};
ghost use Rattle.fx_keys.specs.Table.{GainsRoom, HasSeatFor, IsConsistent};
ghost use Rattle.fx_parts.specs.Parts.{fresh_part};
ghost use Rattle.fx_parts.specs.Happening.{MayAsk, part_committed, with_key, with_raised, without_keys, without_snapshot};
ghost use Rattle.fx_numbers.specs.Shots.{reservation_of, taken_of};

use crate::given::Given;
use crate::held::KeyRing;
use crate::snapshot::Snapshot;
use fx_keys::{KeyTable, LockKey, Mode};
use std::alloc::{AllocError, Global};
use std::marker::Model;

/// The keys, the snapshots and the reservation of one number, its last commit (0 before the first),
/// and the faults of the disk that it knows.
#[derive(Drop)]
pub(crate) struct Kept {
    keys: KeyRing,
    snapshots: Vec<Snapshot>,
    reserved: Option<Given>,
    last: u64,
    faults: u64,
}

impl Model for Kept {
    ghost use Rattle.fx_batch.specs.contracts.batch.Batch as batch;
    ghost use Rattle.fx_parts.specs.Parts.{Part};
    ghost use Rattle.fx_numbers.specs.contracts.given.Given as given;
    ghost use Rattle.fx_numbers.specs.contracts.held.KeyRing as ring;
    ghost use Rattle.fx_numbers.specs.Shots.{part_code, part_from};

    ghost Value = { Part };

    ghost coded = { part_code ring.the_row.coded batch.the_row.coded given.the_row.coded };

    ghost view = { λ p. part_from p.keys p.snapshots.items p.reserved p.last p.faults };
}

impl Kept {
    /// A number that has just come into use. Takes no memory.
    pub(crate) fn new(alloc: Global, faults: u64) -> Kept
        ensures { result ≡ fresh_part faults }
    {
        Kept {
            keys: KeyRing::new(alloc),
            snapshots: Vec::new(alloc),
            reserved: None,
            last: 0,
            faults,
        }
    }

    /// It knows of so many faults.
    pub(crate) fn meet(&mut self, faults: u64)
        ensures { self.new ≡ record self.old { faults = faults } }
    {
        self.faults = faults;
    }

    /// Room for so many further keys, here and in the table; on an error nothing has changed.
    pub(crate) fn make_room(
        &mut self,
        table: &mut KeyTable,
        who: u32,
        count: u32,
    ) -> Result<(), AllocError>
        requires { HasSeatFor table.old who }
        ensures room { OnOk result (self.new ≡ record self.old { room = self.old.room + count }) }
        ensures table { OnOk result (GainsRoom table.old table.new who count) }
        ensures consistent { OnOk result (IsConsistent table.new) }
        ensures err { OnErr result (self.new ≡ self.old) }
        ensures err_table { OnErr result (table.new ≡ table.old) }
    {
        self.keys.make_room(table, who, count)
    }

    /// One more key, above all the others.
    pub(crate) fn hold(&mut self, key: LockKey, mode: Mode, number: u64)
        requires { MayAsk key mode self.old }
        ensures { self.new ≡ with_key key mode number self.old }
    {
        self.keys.push(key, mode, number);
    }

    /// The key is held for a write.
    pub(crate) fn raise(&mut self, key: LockKey)
        ensures { self.new ≡ with_raised key self.old }
    {
        self.keys.raise(key);
    }

    /// No key is held, and there is no room.
    pub(crate) fn unlock(&mut self)
        ensures { self.new ≡ without_keys self.old }
    {
        self.keys.clear();
    }

    /// One more snapshot, or nothing has changed.
    pub(crate) fn add_snapshot(&mut self, snapshot: Snapshot) -> Result<(), AllocError>
        ensures ok { OnOk result (self.new ≡ record self.old {
          snapshots = self.old.snapshots ++ taken_of snapshot ∷ [];
        }) }
        ensures err { OnErr result (self.new ≡ self.old) }
    {
        let Ok(()) = self.snapshots.push(snapshot) else {
            return Err(AllocError);
        };
        Ok(())
    }

    /// The snapshot with this index goes.
    pub(crate) fn drop_snapshot(&mut self, index: usize)
        requires { index < length self.old.snapshots }
        ensures { self.new ≡ without_snapshot index self.old }
    {
        self.snapshots.remove(index);
    }

    /// This is reserved.
    pub(crate) fn reserve(&mut self, given: Given)
        ensures { self.new ≡ record self.old { reserved = Some (reservation_of given) } }
    {
        self.reserved = Some(given);
    }

    /// Nothing is reserved.
    pub(crate) fn roll_back(&mut self)
        ensures { self.new ≡ record self.old { reserved = None } }
    {
        self.reserved = None;
    }

    /// It has committed with this number.
    pub(crate) fn commit(&mut self, number: u64)
        ensures { self.new ≡ part_committed number self.old }
    {
        self.reserved = None;
        self.last = number;
    }

    /// Whether something is reserved.
    pub(crate) fn is_reserved(&self) -> bool
        ensures { result ≡ is_some self.now.reserved }
    {
        self.reserved.is_some()
    }
}
