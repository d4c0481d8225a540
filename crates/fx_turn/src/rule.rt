// The rule of a turn's table, and what its steps tell. No value of these types but `Start` is made.
ghost use Rattle.std.specs.Prelude.{ℕ, count_by};
ghost use Rattle.fx_turn.specs.Views.{resting, stays, leaves, joined, spent};
ghost use Rattle.fx_turn.specs.Rule.{Ruled, Takes, Frees, Agrees};

use crate::growing::Growing;
use crate::view::View;
use atomic_table::{Join, Play, Split, TableRule};
use std::marker::{Brand, PhantomData};
use std::snapshot::Snapshot;

// The value and the number of shares that a turn begins with.
#[derive(Drop)]
pub(crate) struct Start<T> {
    pub first: Snapshot<T>,
    pub shares: u32,
}

pub(crate) struct Law<T> {
    marker: PhantomData<T>,
}

impl<T: Growing> TableRule<Option<T>, View<T::Note, T::Part>, Start<T>> for Law<T> {
    ghost holds = { λ start. Ruled T.log T.counts T.parts start.shares };

    ghost first = { λ start. resting (T.log start.first.value)
        (count_by T.counts (T.log start.first.value)) start.shares (T.parts start.first.value) };
}

pub(crate) struct Take;

impl<T: Growing> Play<Option<T>, View<T::Note, T::Part>> for Take {
    ghost then = { Takes T.log T.parts };
}

pub(crate) struct Free;

impl<T: Growing> Play<Option<T>, View<T::Note, T::Part>> for Free {
    ghost then = { Frees T.log T.counts T.parts };
}

pub(crate) struct Agree;

impl<T: Growing> Play<Option<T>, View<T::Note, T::Part>> for Agree {
    ghost then = { Agrees };
}

// The number whose part is cut off, which the proof picks at the call.
pub(crate) trait Who {
    ghost who: { ℕ };
}

impl Who for Brand {
    ghost who = { 0 };
}

pub(crate) struct Cut<W> {
    marker: PhantomData<W>,
}

impl<N, P, W: Who> Split<View<N, P>> for Cut<W> {
    ghost left = { stays W.who };

    ghost right = { leaves W.who };
}

pub(crate) struct Tie;

impl<N, P> Join<View<N, P>> for Tie {
    ghost both = { joined };

    ghost spent = { spent };
}
