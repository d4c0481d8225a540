//! Which words a reader takes.

/// The words that are taken besides those of the first steps and `sync`. A word that is not taken
/// is unknown.
#[derive(Clone, Copy, Debug, Default, PartialEq, Eq)]
pub struct Built {
    /// `trunc`.
    pub truncation: bool,
    /// Groups of steps, parted by the word `;`.
    pub groups: bool,
    /// `compact`.
    pub compaction: bool,
    /// `rm`, `mv`, `setattr`, `delattr` and `attr`.
    pub removal: bool,
}
