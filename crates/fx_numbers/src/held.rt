//! The keys that one number holds, in their order, and how many more it has room for.
ghost use Rattle.std.specs.Prelude.{◌≡◌, ◌+◌, ◌<◌, None, OnOk, OnErr};
ghost use Rattle.std.specs.FinMap as finite;
ghost use Rattle.std.specs.declared.cmp.Ordering.TheVariants.{Less};
ghost use Rattle.fx_item.specs.LockKey.{key_cmp};
ghost use Rattle.fx_keys.specs.Table.{GainsRoom, HasSeatFor, IsConsistent};
ghost use Rattle.fx_parts.specs.Parts.{Grant};
ghost use Rattle.fx_numbers.specs.Held.{AreHeldInOrder, FindsHeld, pushed_key, raised_in};

use fx_keys::{KeyTable, LockKey, Mode};
use std::alloc::{AllocError, Global};
use std::marker::Model;

/// A key that is held, how, and the number of the last commit when it was granted.
#[derive(Clone, Copy, Debug, PartialEq, Eq)]
pub(crate) struct HeldKey {
    pub(crate) key: LockKey,
    pub(crate) mode: Mode,
    pub(crate) number: u64,
}

/// Keys in their order, with memory for the further ones that may be taken. A number takes its keys
/// in their order, so a new one goes to the end.
#[derive(Drop)]
pub(crate) struct KeyRing {
    held: Vec<HeldKey>,
    room: usize,
}

impl Model for KeyRing {
    ghost use Rattle.fx_item.specs.contracts.lock.LockKey as lock_key;
    ghost use Rattle.fx_item.specs.contracts.lock.Mode as lock_mode;
    ghost use Rattle.fx_numbers.specs.Held.{KeyGrants, key_grants_code};

    ghost Value = { KeyGrants };

    ghost coded = { key_grants_code lock_key.the_row.coded lock_mode.the_row.coded };

    ghost use Rattle.fx_numbers.specs.Held.{IsKeyRing, grants_held};

    ghost view = { λ k. record { grants = grants_held k.held.items; room = k.room } };

    ghost invariant = { λ k. IsKeyRing k.held k.room };
}

impl KeyRing {
    /// Nothing is held. Takes no memory.
    pub(crate) fn new(alloc: Global) -> KeyRing
        ensures { result ≡ record { grants = finite.empty; room = 0 } }
    {
        KeyRing {
            held: Vec::new(alloc),
            room: 0,
        }
    }

    /// Room for so many further keys, here and in the table; on an error nothing has changed.
    pub(crate) fn make_room(
        &mut self,
        table: &mut KeyTable,
        who: u32,
        count: u32,
    ) -> Result<(), AllocError>
        requires { HasSeatFor table.old who }
        ensures room { OnOk result (self.new ≡ record self.old { room = self.old.room + count }) }
        ensures table { OnOk result (GainsRoom table.old table.new who count) }
        ensures consistent { OnOk result (IsConsistent table.new) }
        ensures err { OnErr result (self.new ≡ self.old) }
        ensures err_table { OnErr result (table.new ≡ table.old) }
    {
        let Ok(()) = self.held.reserve(self.room + count as usize) else {
            return Err(AllocError);
        };
        let Ok(()) = table.room(who, count) else {
            return Err(AllocError);
        };
        self.room += count as usize;
        Ok(())
    }

    /// One more key, above all the others. It takes one of the places, and no memory.
    pub(crate) fn push(&mut self, key: LockKey, mode: Mode, number: u64)
        requires room { 0 < self.old.room }
        requires above { (k : LockKey) (grant : Grant)
            → finite.get self.old.grants k ≡ Some grant → key_cmp k key ≡ Less }
        ensures { self.new ≡ pushed_key key mode number self.old }
    {
        self.held.push_reserved(HeldKey { key, mode, number });
        self.room -= 1;
    }

    /// The key, if it is held, is held for a write from now on. Costs a binary search.
    pub(crate) fn raise(&mut self, key: LockKey)
        ensures { self.new ≡ record self.old { grants = raised_in key self.old.grants } }
    {
        if let Ok(at) = locate(self.held.as_slice(), key) {
            self.held[at].mode = Mode::Write;
        }
    }

    /// Nothing is held, and all memory is given back.
    pub(crate) fn clear(&mut self)
        ensures { self.new ≡ record { grants = finite.empty; room = 0 } }
    {
        self.held = Vec::new(*self.held.allocator());
        self.room = 0;
    }
}

/// Where the key stands, or else where it would. Costs a binary search.
fn locate(held: &[HeldKey], key: LockKey) -> Result<usize, usize>
    requires { AreHeldInOrder held.now }
    ensures { FindsHeld held.now key result }
{
    held.binary_search_by_key(&key, |h| h.key)
}
