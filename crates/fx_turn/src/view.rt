// What the rule of a turn knows of one seat. It exists in proofs alone: no value of it is made.
use std::collections::LinkedList;
use std::marker::Model;

// Parts by their numbers.
pub(crate) struct Parts<P> {
    entries: LinkedList<(u64, P)>,
}

impl<P> Model for Parts<P> {
    ghost use Rattle.std.specs.Ordering.{nat_cmp};
    ghost use Rattle.std.specs.FinMap.{FinMap, code, from_entries};
    ghost use Rattle.std.specs.Coded.{coded_ℕ};

    ghost Value = { FinMap nat_cmp P };

    ghost coded = { code coded_ℕ P.code };

    ghost view = { λ a. from_entries a.entries };
}

pub(crate) struct View<N, P> {
    // What the pass knows and has.
    pub seen: LinkedList<N>,
    pub own: u64,
    pub shares: u64,
    pub mine: Parts<P>,
    // Whether it holds the turn, and the value's log and parts as it took it.
    pub holds: bool,
    pub taken_log: LinkedList<N>,
    pub taken_parts: Parts<P>,
    // Of the two passes that it was joined of: the shorter list that was seen, and the parts of each.
    pub shorter: LinkedList<N>,
    pub first: Parts<P>,
    pub second: Parts<P>,
}
