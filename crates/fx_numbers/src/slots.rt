//! The parts of the numbers in use, by number.
ghost use Rattle.std.specs.Prelude.{◌≡◌, ◌+◌, ◌≤◌, ◌↔◌, length, is_some, option_map, IsTrue, None, Some, IfOk, OnErr};
ghost use Rattle.std.specs.FinMap as finite;
ghost use Rattle.fx_parts.specs.Parts.{Part, fresh_part};
ghost use Rattle.fx_numbers.specs.Slots.{EntersAs, HasFreeSlot, IsFirstFree, IsNumber, is_promise, promised_by, promised_in, reserved_at};

use crate::part::Kept;
use fx_keys::MAX_NUMBERS;
use std::alloc::{AllocError, Global};
use std::marker::Model;

/// The parts: number n has place n - 1.
#[derive(Drop)]
pub(crate) struct Slots {
    slots: Vec<Option<Kept>>,
}

impl Model for Slots {
    ghost use Rattle.std.specs.Prelude.{◌≤◌, vec_len};
    ghost use Rattle.fx_keys.specs.declared.table.TheConstants.{MAX_NUMBERS};
    ghost use Rattle.fx_numbers.specs.contracts.part.Kept as kept;
    ghost use Rattle.fx_numbers.specs.Slots.{PartMap, part_map_code, parts_in, promised_in};

    ghost Value = { PartMap };

    ghost coded = { part_map_code kept.the_row.coded };

    ghost view = { λ s. record {
      parts = parts_in s.slots.items;
      reserved = promised_in s.slots.items;
      places = vec_len s.slots;
    } };

    ghost invariant = { λ s. vec_len s.slots ≤ MAX_NUMBERS };
}

impl Slots {
    /// No number is in use. Takes no memory.
    pub(crate) fn new(alloc: Global) -> Slots
        ensures parts { result.parts ≡ finite.empty }
        ensures reserved { result.reserved ≡ 0 }
    {
        Slots {
            slots: Vec::new(alloc),
        }
    }

    /// Takes the part of a number out.
    pub(crate) fn take(&mut self, who: u32) -> Kept
        requires { (part : Part) × (finite.get self.old.parts who ≡ Some part) }
        ensures part { finite.get self.old.parts who ≡ Some result }
        ensures parts { self.new.parts ≡ finite.remove self.old.parts who }
        ensures reserved { self.new.reserved + promised_by result ≡ self.old.reserved }
        ensures number { IsNumber who }
        ensures place { who ≤ self.old.places }
        ensures places { self.new.places ≡ self.old.places }
    {
        let slots = &mut self.slots;
        match slots[who as usize - 1].take() {
            Some(part) => part,
            None => unreachable!(),
        }
    }

    /// Puts the part of a number back that was taken out. Takes no memory.
    pub(crate) fn put(&mut self, who: u32, part: Kept)
        requires number { IsNumber who }
        requires free { finite.get self.old.parts who ≡ None }
        requires place { who ≤ self.old.places }
        ensures parts { self.new.parts ≡ finite.insert self.old.parts who part }
        ensures reserved { self.new.reserved ≡ self.old.reserved + promised_by part }
    {
        self.slots[who as usize - 1] = Some(part);
    }

    /// Whether some number is in no use.
    pub(crate) fn has_free(&self) -> bool
        ensures { IsTrue result ↔ HasFreeSlot self.now.parts }
    {
        first_free(self.slots.as_slice()) < MAX_NUMBERS
    }

    /// The least number that is in no use comes into use. On an error nothing has changed.
    pub(crate) fn enter(&mut self, faults: u64) -> Result<u32, AllocError>
        requires { HasFreeSlot self.old.parts }
        ensures ok { IfOk result (λ who. EntersAs self.old self.new (fresh_part faults) who) }
        ensures err { OnErr result (self.new ≡ self.old) }
    {
        let part = Kept::new(*self.slots.allocator(), faults);
        let at = first_free(self.slots.as_slice());
        if at < self.slots.len() {
            self.slots[at] = Some(part);
            return Ok(at as u32 + 1);
        }
        let Ok(()) = self.slots.push(Some(part)) else {
            return Err(AllocError);
        };
        Ok(at as u32 + 1)
    }

    /// Whether something is reserved for the number; nothing where it is not in use.
    pub(crate) fn has_reserved(&self, who: u32) -> Option<bool>
        ensures { result ≡ reserved_at self.now.parts who }
    {
        let slots = self.slots.as_slice();
        if who == 0 {
            return None;
        }
        let Some(slot) = slots.get(who as usize - 1) else {
            return None;
        };
        promise_of(slot)
    }

    /// How many numbers have something reserved. Costs a pass over them, at most 32.
    pub(crate) fn reserved(&self) -> usize
        ensures count { result ≡ self.now.reserved }
        ensures few { result ≤ MAX_NUMBERS }
    {
        promises(self.slots.as_slice())
    }
}

/// The first place with nothing, or the end.
fn first_free(slots: &[Option<Kept>]) -> usize
    ensures { IsFirstFree slots.now result }
{
    match slots.iter().position(|slot| slot.is_none()) {
        Some(at) => at,
        None => slots.len(),
    }
}

/// Whether the place has a part with something reserved.
fn is_promised(slot: &Option<Kept>) -> bool
    ensures { result ≡ is_promise slot.now }
{
    match slot {
        Some(part) => part.is_reserved(),
        None => false,
    }
}

/// Whether something is reserved for the part at the place, if there is one.
fn promise_of(slot: &Option<Kept>) -> Option<bool>
    ensures { result ≡ option_map (λ part. is_some part.reserved) slot.now }
{
    match slot {
        Some(part) => Some(part.is_reserved()),
        None => None,
    }
}

/// How many places have one.
fn promises(slots: &[Option<Kept>]) -> usize
    ensures count { result ≡ promised_in slots.now }
    ensures few { result ≤ length slots.now }
{
    slots.iter().filter(|slot| is_promised(slot)).count()
}
