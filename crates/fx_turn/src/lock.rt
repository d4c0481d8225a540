// The turn itself.
ghost use Rattle.std.specs.Prelude.{◌≡◌, ◌+◌, ◌-◌, ◌<◌, ◌≤◌, ℕ, false, [], ◌∷◌, count_by, IfOk, IfErr};
ghost use Rattle.std.specs.FinMap as map;
ghost use mathlib.Core.List.{IsPrefix};
ghost use Rattle.fx_turn.specs.Lists.{longer};
ghost use Rattle.fx_turn.specs.Parts.{Has, IsWithin, AreApart, KeepsOthers, only, without, union, without_others};
ghost use Rattle.fx_turn.specs.Views.{stays, leaves};

use crate::growing::Growing;
use crate::pass::{Held, Pass, Taken};
use crate::rule::{Agree, Cut, Free, Law, Start, Take, Tie, Who};
use crate::view::View;
use atomic_table::{Badge, Refused, Seat, Table};
use std::alloc::{AllocError, Global};
use std::hint::spin_loop;
use std::marker::{Brand, Model};
use std::mem;
use std::snapshot::Snapshot;
use std::sync::Wait;
use std::sync::atomic::{AtomicU64, Ordering};

// The word is 0 while the turn is free, and 1 while it is held.
const WORD: usize = 0;

const FREE: u64 = 0;

const HELD: u64 = 1;

// The slot has the value while the turn is free.
const SLOT: usize = 0;

// How often a thread looks at the word before it sleeps.
const LOOKS: u32 = 100;

/// A lock round a value whose log only grows. Threads share it by reference.
pub struct Turn<T: Growing> {
    table: Table<Option<T>, View<T::Note, T::Part>, Start<T>, Law<T>, Global>,
    // How many threads sleep, or are about to. Only wake-ups go by it.
    sleepers: AtomicU64,
}

impl<T: Growing> Model for Turn<T> {
    ghost use Rattle.std.specs.Prelude.{◌≡◌};
    ghost use Rattle.fx_turn.specs.States.{TurnState, turn_code};

    ghost Value = { TurnState };

    ghost coded = { turn_code };

    ghost view = { λ t. record {
      id = t.table.shared.table_id;
      shares = t.table.shared.key.shares;
    } };

    ghost invariant = { λ t. (t.table.shared.table_id.words ≡ 1)
        × (t.table.shared.table_id.slots ≡ 1) };
}

impl<T: Growing> Turn<T> {
    /// A turn that is free, and its first pass, which has seen the value's log and has all counted
    /// notes, all shares and all parts.
    ///
    /// # Errors
    /// The value comes back where there is no memory.
    pub fn new(
        alloc: Global,
        value: T,
        shares: u32,
    ) -> Result<(Turn<T>, Pass<T::Note, T::Part>), (AllocError, T)>
        requires { 0 < shares }
        ensures turn { IfOk result (λ t. (t.1.turn ≡ t.0.id) × (t.0.shares ≡ shares)) }
        ensures seen { IfOk result (λ t. t.1.seen ≡ T.log value) }
        ensures own { IfOk result (λ t. t.1.own ≡ count_by T.counts (T.log value)) }
        ensures shares { IfOk result (λ t. t.1.shares ≡ shares) }
        ensures mine { IfOk result (λ t. t.1.mine ≡ T.parts value) }
        ensures err { IfErr result (λ e. e.1 ≡ value) }
    {
        let Ok(mut slots) = Vec::with_capacity(alloc, 1) else {
            return Err((AllocError, value));
        };
        let start = Start {
            first: Snapshot::of(&value),
            shares,
        };
        slots.push_reserved(Some(value));
        match Table::new(alloc, &[FREE], slots, &start) {
            Ok((table, seat)) => {
                let pass = Pass {
                    badge: seat.into_badge(),
                };
                let turn = Turn {
                    table,
                    sleepers: AtomicU64::new(0),
                };
                Ok((turn, pass))
            }
            Err(Refused { mut slots }) => {
                let value = slots.pop().unwrap().unwrap();
                slots.destroy_empty();
                Err((AllocError, value))
            }
        }
    }

    /// Waits until the turn is free, and takes it. The value's log begins with all that the pass has
    /// seen, and the pass's own parts are in it as they are in the pass.
    ///
    /// A thread that waits looks a few times and then sleeps. It sleeps forever where the turn is
    /// never given back.
    pub fn take<R: Wait>(&self, rt: &R, pass: Pass<T::Note, T::Part>) -> Taken<T>
        requires { pass.turn ≡ self.now.id }
        ensures pass { result.held.pass ≡ pass }
        ensures taken { (result.held.log ≡ T.log result.value)
            × (result.held.parts ≡ T.parts result.value) }
        ensures seen { IsPrefix pass.seen (T.log result.value) }
        ensures mine { IsWithin pass.mine (T.parts result.value) }
    {
        let Pass { badge } = pass;
        let mut seat = badge.into_seat::<Option<T>>();
        let shared = &self.table.shared;
        for _ in rt.forever() {
            let found = shared.compare_exchange::<Take>(&mut seat, WORD, FREE, HELD);
            if found == FREE {
                let value = shared.exchange(&mut seat, SLOT, None).unwrap();
                return Taken {
                    value,
                    held: Held { seat },
                };
            }
            self.wait(rt);
        }
        unreachable!()
    }

    // Returns when the turn was free, or after a sleep that may have ended for no reason.
    fn wait<R: Wait>(&self, rt: &R) {
        let shared = &self.table.shared;
        for _ in 0..LOOKS {
            if shared.peek(WORD) == FREE {
                return;
            }
            spin_loop();
        }
        self.sleepers.fetch_add(1, Ordering::SeqCst);
        shared.park(rt, WORD, HELD as u32);
        self.sleepers.fetch_sub(1, Ordering::SeqCst);
    }

    // A thread counts itself before it looks at the word for the last time, so none sleeps on.
    fn wake_one(&self) {
        if self.sleepers.load(Ordering::SeqCst) != 0 {
            self.table.shared.wake_one(WORD);
        }
    }

    /// Puts the value back and frees the turn. The pass has then seen the whole log; the counted
    /// notes that were added are its own; and it has the parts at its own numbers, and at those that
    /// nobody had.
    ///
    /// The log may only have grown, and the parts of other passes must be as they were. It does not
    /// wait, and takes no memory.
    pub fn give<R>(&self, _rt: &R, taken: Taken<T>) -> Pass<T::Note, T::Part>
        requires turn { taken.held.pass.turn ≡ self.now.id }
        requires log { IsPrefix taken.held.log (T.log taken.value) }
        requires others { KeepsOthers taken.held.parts taken.held.pass.mine (T.parts taken.value) }
        ensures turn { (result.turn ≡ taken.held.pass.turn)
            × (result.shares ≡ taken.held.pass.shares) }
        ensures seen { result.seen ≡ T.log taken.value }
        ensures own { result.own ≡ taken.held.pass.own
            + (count_by T.counts (T.log taken.value) - count_by T.counts taken.held.log) }
        ensures mine { result.mine ≡ without_others taken.held.parts taken.held.pass.mine
            (T.parts taken.value) }
        ensures kept { (q : ℕ) → Has taken.held.pass.mine q
            → map.get result.mine q ≡ map.get (T.parts taken.value) q }
    {
        let Taken { value, held } = taken;
        let Held { mut seat } = held;
        let shared = &self.table.shared;
        let vacant = shared.exchange(&mut seat, SLOT, Some(value));
        let None = vacant else { unreachable!() };
        shared.store::<Free>(&mut seat, WORD, FREE);
        self.wake_one();
        Pass {
            badge: seat.into_badge(),
        }
    }

    // The proof picks `W`, so that the step knows the number.
    fn cut<W: Who>(
        &self,
        seat: &mut Seat<Option<T>, View<T::Note, T::Part>>,
        who: u32,
    ) -> Seat<Option<T>, View<T::Note, T::Part>>
        requires turn { seat.old.table_id ≡ self.now.id }
        requires rests { seat.old.me.0.holds ≡ false }
        requires shares { 2 ≤ seat.old.me.0.shares }
        requires who { who ≡ W.who }
        ensures new { (result.table_id ≡ seat.old.table_id)
            × (result.me ≡ (leaves who seat.old.me.0, [])) }
        ensures rest { (seat.new.table_id ≡ seat.old.table_id)
            × (seat.new.me ≡ (stays who seat.old.me.0, seat.old.me.1)) }
    {
        self.table.shared.split_seat::<Cut<W>>(seat)
    }

    /// Cuts off a pass for another thread, with one share and with `who`'s part alone. It has seen as
    /// much, and has no counted notes of its own yet. It does not wait, and takes no memory.
    pub fn split(&self, pass: &mut Pass<T::Note, T::Part>, who: u32) -> Pass<T::Note, T::Part>
        requires turn { pass.old.turn ≡ self.now.id }
        requires shares { 2 ≤ pass.old.shares }
        requires who { Has pass.old.mine who }
        ensures new { result ≡ record {
          turn = pass.old.turn;
          seen = pass.old.seen;
          own = 0;
          shares = 1;
          mine = only who pass.old.mine;
        } }
        ensures rest { pass.new ≡ record {
          turn = pass.old.turn;
          seen = pass.old.seen;
          own = pass.old.own;
          shares = pass.old.shares - 1;
          mine = without who pass.old.mine;
        } }
    {
        let badge = mem::replace(&mut pass.badge, Badge::blank());
        let mut seat = badge.into_seat::<Option<T>>();
        let other = self.cut::<Brand>(&mut seat, who);
        pass.badge = seat.into_badge();
        Pass {
            badge: other.into_badge(),
        }
    }

    /// Puts two passes together: the longer list seen, which begins with the other one, and the
    /// counted notes, the shares and the parts of both. It does not wait, and takes no memory.
    pub fn join(
        &self,
        a: Pass<T::Note, T::Part>,
        b: Pass<T::Note, T::Part>,
    ) -> Pass<T::Note, T::Part>
        requires { (a.turn ≡ self.now.id) × (b.turn ≡ self.now.id) }
        ensures both { result ≡ record {
          turn = a.turn;
          seen = longer a.seen b.seen;
          own = a.own + b.own;
          shares = a.shares + b.shares;
          mine = union a.mine b.mine;
        } }
        ensures seen { IsPrefix a.seen result.seen × IsPrefix b.seen result.seen }
        ensures apart { AreApart a.mine b.mine }
    {
        let Pass { badge } = a;
        let mut seat = badge.into_seat::<Option<T>>();
        let Pass { badge } = b;
        let other = badge.into_seat::<Option<T>>();
        let shared = &self.table.shared;
        shared.join_seat::<Tie>(&mut seat, other);
        shared.load::<Agree>(&mut seat, WORD);
        Pass {
            badge: seat.into_badge(),
        }
    }

    /// Gives the value, for a pass that has all shares: no other thread can have the turn, and the pass
    /// has seen the whole log and has all counted notes and all parts. It takes no memory.
    pub fn close(self, pass: Pass<T::Note, T::Part>) -> T
        requires turn { pass.turn ≡ self.id }
        requires shares { pass.shares ≡ self.shares }
        ensures seen { T.log result ≡ pass.seen }
        ensures own { count_by T.counts (T.log result) ≡ pass.own }
        ensures mine { T.parts result ≡ pass.mine }
    {
        let Pass { badge } = pass;
        let seat = badge.into_seat::<Option<T>>();
        let Turn { table, sleepers: _ } = self;
        let mut closed = table.close_with(seat);
        let value = closed.take(SLOT);
        closed.free();
        value.unwrap()
    }
}
