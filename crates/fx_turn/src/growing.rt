// What a turn asks of the value that it guards.
ghost use Rattle.std.specs.Prelude.{Bool, List};
ghost use Rattle.std.specs.Ordering.{nat_cmp};
ghost use Rattle.std.specs.FinMap.{FinMap};

/// A value with a log that only grows, and with parts, each of a number.
pub trait Growing {
    /// What the log is made of.
    type Note;

    /// What the value has for a number.
    type Part;

    /// All notes, the first one first.
    ghost log: { Self → List Self.Note };

    /// Whether a note is counted.
    ghost counts: { Self.Note → Bool };

    /// The part of each number that has one.
    ghost parts: { Self → FinMap nat_cmp Self.Part };
}
