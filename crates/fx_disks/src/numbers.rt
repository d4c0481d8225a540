//! Numbers that are looked up often.
ghost use Rattle.std.specs.Prelude.{◌≡◌, ◌↔◌, ℕ, IsTrue, Contains, IsPermutation, []};

use std::alloc::Global;
use std::marker::Model;

/// Numbers in ascending order.
#[derive(Drop)]
pub struct Numbers {
    ascending: Vec<u64>,
}

impl Model for Numbers {
    ghost use Rattle.std.specs.Prelude.{ℕ, List, IsSorted};
    ghost use Rattle.std.specs.Ordering.{nat_cmp};

    ghost Value = { List ℕ };

    ghost view = { λ n. n.ascending.items };

    ghost invariant = { λ n. IsSorted nat_cmp n.ascending.items };
}

impl Numbers {
    pub fn none(alloc: Global) -> Numbers
        ensures { result ≡ [] }
    {
        Numbers {
            ascending: Vec::new(alloc),
        }
    }

    /// Sorts the numbers in place.
    pub fn of(mut numbers: Vec<u64>) -> Numbers
        ensures { IsPermutation numbers.items result }
    {
        numbers.sort_unstable();
        Numbers { ascending: numbers }
    }

    /// Costs the logarithm of how many there are.
    pub fn contains(&self, number: u64) -> bool
        ensures { IsTrue result ↔ Contains self.now number }
    {
        self.ascending.binary_search(&number).is_ok()
    }
}
