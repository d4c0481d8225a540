//! The order of keys.
ghost use Rattle.std.specs.Prelude.{◌≡◌, Some, refl, nat_eq};
ghost use Rattle.std.specs.Ordering.{nat_cmp};
ghost use Rattle.std.specs.Cmp as cmp;
ghost use Rattle.std.specs.Cmp.Lexicographic.{slice_cmp, pointwise, texts_ties, texts_po, on_texts, on_texts_equal};
ghost use Rattle.fx_item.specs.Item.{key_of};
ghost use Rattle.fx_item.specs.Order.{rank, is_apart, may_follow};

use crate::item::Key;
use std::cmp::Ordering;

impl Key {
    /// Whether the ranges of two keys of one file, or of the device, do not overlap, this one's
    /// being the first. It is so for all other keys.
    fn is_apart(&self, later: &Key) -> bool
        ensures { result ≡ is_apart (key_of self.now) (key_of later.now) }
    {
        match (self, later) {
            (
                Key::Extent { store, id, end, .. },
                Key::Extent {
                    store: other_store,
                    id: other_id,
                    start,
                    ..
                },
            ) => *store != *other_store || *id != *other_id || *end <= *start,
            (Key::Allocation { end, .. }, Key::Allocation { start, .. }) => *end <= *start,
            _ => true,
        }
    }

    /// Whether `later` may stand after this key in a list of items: it is greater, and overlaps it
    /// nowhere.
    pub fn may_precede(&self, later: &Key) -> bool
        ensures { result ≡ may_follow (key_of self.now) (key_of later.now) }
    {
        self.cmp(later).is_lt() && self.is_apart(later)
    }
}

impl PartialEq for Key {
    ghost eq = { λ a b. pointwise nat_eq (rank (key_of a)) (rank (key_of b)) };

    ghost laws = { cmp.partial_equiv_from_equiv (on_texts_equal (λ k. rank (key_of k))) };

    fn eq(&self, other: &Key) -> bool {
        self.cmp(other).is_eq()
    }
}

impl Eq for Key {
    ghost laws = { on_texts_equal (λ k. rank (key_of k)) };
}

impl PartialOrd for Key {
    ghost partial_cmp = { λ a b. Some (slice_cmp nat_cmp (rank (key_of a)) (rank (key_of b))) };

    ghost laws = { cmp.on_po (λ k. rank (key_of k)) texts_po };

    fn partial_cmp(&self, other: &Key) -> Option<Ordering> {
        Some(self.cmp(other))
    }
}

/// By where keys begin, and then by where they end. At most two comparisons of names.
impl Ord for Key {
    ghost cmp = { λ a b. slice_cmp nat_cmp (rank (key_of a)) (rank (key_of b)) };

    ghost total = { on_texts (λ k. rank (key_of k)) };

    ghost matches_partial_cmp = { λ x y. refl };

    ghost matches_eq = { λ x y. texts_ties (rank (key_of x)) (rank (key_of y)) };

    fn cmp(&self, other: &Key) -> Ordering {
        let begins = self.begins().compare(&other.begins());
        if begins.is_ne() {
            return begins;
        }
        self.ends().compare(&other.ends())
    }
}
