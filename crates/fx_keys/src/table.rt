//! The table, its calls and their answers.
ghost use Rattle.std.specs.Prelude.{◌≡◌, ◌≢◌, ◌<◌, Some, OnOk, OnErr};
ghost use Rattle.fx_keys.specs.Table.{empty_table, mode_of, room_of, HasSeatFor, GainsRoom, IsConsistent, IsAboveKeysOf, IsNextToRaise, AskGives, RaiseGives, Leaves};

use crate::seats::{Seat, forget, grant, least_in_the_way, raise, reserve};
use fx_item::{LockKey, Mode};
use smallvec::SmallVec;
use std::alloc::{AllocError, Global};
use std::marker::Model;

/// The most numbers that hold keys or have room for some at one time.
pub const MAX_NUMBERS: usize = 32;

/// What a number that asks for a key is told.
#[derive(Clone, Copy, Debug, PartialEq, Eq)]
pub enum Asked {
    /// It holds the key as it asked.
    Held,
    /// Others are in the way, and this number is the least of them.
    Busy(u32),
}

/// Which number holds which key in which mode, and how many further keys each may take.
///
/// Each number has its keys in a sorted array of its own, 24 bytes a key, and the numbers stand in a list with 32
/// places in the table itself. So a number that leaves gives back all the memory that it took, and no other number's
/// keys are moved or looked at for it: a table that lives long keeps nothing of its peak.
#[derive(Drop)]
pub struct KeyTable {
    seats: SmallVec<Seat, MAX_NUMBERS>,
}

impl Model for KeyTable {
    ghost use Rattle.fx_item.specs.contracts.lock.LockKey as lock_key;
    ghost use Rattle.fx_item.specs.contracts.lock.Mode as lock_mode;
    ghost use Rattle.fx_keys.specs.Table.{Table, key_table_code};

    ghost Value = { Table };

    ghost coded = { key_table_code lock_key.the_row.coded lock_mode.the_row.coded };

    ghost use Rattle.fx_keys.specs.Seats.{seats_table, AreSeats};

    ghost view = { λ t. seats_table t.seats.items };

    ghost invariant = { λ t. AreSeats t.seats };
}

impl KeyTable {
    /// Nothing is held. Takes no memory.
    pub fn new(alloc: Global) -> KeyTable
        ensures empty { result ≡ empty_table }
        ensures consistent { IsConsistent result }
    {
        KeyTable {
            seats: SmallVec::new(alloc),
        }
    }

    /// Makes place for `count` further holds of the number's, whatever their keys. At most 32 numbers hold keys or
    /// have room. On an error nothing has changed. Costs the memory of `count` keys, and where the number has keys
    /// already maybe a move of these.
    pub fn room(&mut self, who: u32, count: u32) -> Result<(), AllocError>
        requires { HasSeatFor self.old who }
        ensures ok { OnOk result (GainsRoom self.old self.new who count) }
        ensures err { OnErr result (self.new ≡ self.old) }
        ensures consistent { IsConsistent self.new }
    {
        reserve(&mut self.seats, who, count)
    }

    /// Takes the key in this mode, unless another's hold of it conflicts. A hold takes one place of the number's room.
    /// Takes no memory. Costs a binary search among the keys of each other number, at most 31, and moves no key.
    pub fn ask(&mut self, who: u32, key: LockKey, mode: Mode) -> Asked
        requires room { 0 < room_of self.old who }
        requires mode { mode ≢ Mode.Write }
        requires order { IsAboveKeysOf self.old who key }
        ensures answer { AskGives self.old who key mode result self.new }
        ensures consistent { IsConsistent self.new }
    {
        if let Some(other) = least_in_the_way(self.seats.as_slice(), who, key, mode) {
            return Asked::Busy(other);
        }
        grant(&mut self.seats, who, key, mode);
        Asked::Held
    }

    /// Turns a `Change` of the number's into a `Write`, unless another reads. Takes no memory. Costs a binary search
    /// among the keys of each number.
    pub fn raise(&mut self, who: u32, key: LockKey) -> Asked
        requires held { mode_of self.old who key ≡ Some Mode.Change }
        requires order { IsNextToRaise self.old who key }
        ensures answer { RaiseGives self.old who key result self.new }
        ensures consistent { IsConsistent self.new }
    {
        if let Some(other) = least_in_the_way(self.seats.as_slice(), who, key, Mode::Write) {
            return Asked::Busy(other);
        }
        raise(&mut self.seats, who, key);
        Asked::Held
    }

    /// Ends all holds of the number, and its room. Takes no memory, and gives back all that the number took. Costs a
    /// pass over the numbers, at most 32, and looks at no key.
    pub fn drop_all(&mut self, who: u32)
        ensures gone { Leaves self.old self.new who }
        ensures consistent { IsConsistent self.new }
    {
        forget(&mut self.seats, who);
    }
}

#[cfg(test)]
mod tests;
