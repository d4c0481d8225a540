// What a thread knows of the value, and the value while a thread has it.
ghost use Rattle.std.specs.Prelude.{◌≡◌, [], ◌∷◌, Some, None};

use crate::growing::Growing;
use crate::view::View;
use atomic_table::{Badge, Seat};
use std::marker::Model;

/// What one thread has seen of a log of `N` and may change of the parts `P`. It does not hold the turn,
/// and takes no bytes.
///
/// A pass that is dropped keeps its shares, so the turn that it is of cannot be closed any more.
#[derive(Drop)]
pub struct Pass<N, P> {
    pub(crate) badge: Badge<View<N, P>>,
}

impl<N, P> Model for Pass<N, P> {
    ghost use Rattle.fx_turn.specs.States.{PassState, pass_code};

    ghost Value = { PassState N P };

    ghost coded = { pass_code N.code P.code };

    ghost use Rattle.fx_turn.specs.Views.{pass_of, Rests};

    ghost view = { λ p. pass_of p.badge.table_id p.badge.views };

    ghost invariant = { λ p. Rests p.badge.views };
}

/// The turn while it is held: the pass that was handed in, and the value's log and parts as it was
/// taken. It takes no bytes.
pub struct Held<T, N, P> {
    pub(crate) seat: Seat<Option<T>, View<N, P>>,
}

impl<T, N, P> Model for Held<T, N, P> {
    ghost use Rattle.std.specs.Prelude.{◌≡◌, ◌<◌, [], ◌∷◌, None, true};
    ghost use Rattle.fx_turn.specs.States.{HeldState, held_code};

    ghost Value = { HeldState N P };

    ghost coded = { held_code N.code P.code };

    ghost use Rattle.fx_turn.specs.Views.{held_of};

    ghost view = { λ h. held_of h.seat.table_id h.seat.me.0 };

    ghost invariant = { λ h. (h.seat.me.1 ≡ (0, None) ∷ []) × (h.seat.me.0.holds ≡ true)
        × (0 < h.seat.me.0.shares) };
}

/// The value, and the turn with it. Only [`Turn::take`](crate::Turn::take) makes one, and it must be
/// spent: it ends in [`Turn::give`](crate::Turn::give).
pub struct Taken<T: Growing> {
    /// The value, to be changed in place.
    pub value: T,
    /// What the turn is held with.
    pub held: Held<T, T::Note, T::Part>,
}
