//! What a block is used for, and where a free one is.
ghost use Rattle.std.specs.Prelude.{◌≡◌, ℕ, ◌<◌, ◌≤◌, false, count_by, length, IfOk, IfSome, IsNone, All, ◌+◌};
ghost use Rattle.fx_alloc.specs.Uses.{is_free, use_at, put_all, blank};

use crate::hints::find_hint;
use std::alloc::{AllocError, Global};

/// What a block is used for.
#[derive(Clone, Copy, Debug, PartialEq, Eq)]
pub enum Use {
    /// A superblock or a block of the ring.
    System,
    Free,
    /// Drawn by the number that has this seat.
    Drawn(u8),
    /// Of the data of a committed file.
    Live,
    /// Freed by a transaction that is not settled.
    Freed,
    /// Of the layers that the superblock names.
    Layer,
    /// Drawn for the layers of the open checkpoint.
    Laid,
    /// Of layers that were replaced, and kept for a pin.
    Pinned,
}

/// A block that is not free before the transaction with this number is settled.
#[derive(Clone, Copy, Debug, PartialEq, Eq)]
pub struct Waiting {
    pub block: u32,
    pub number: u64,
}

// The first free block. Costs the blocks before it.
fn first_free(uses: &[Use]) -> Option<usize>
    ensures found { IfSome result (λ at. (use_at uses.now at ≡ Use.Free) × (at < length uses.now)) }
    ensures none { IsNone result → (k : ℕ) → k < length uses.now →
        is_free (use_at uses.now k) ≡ false }
{
    for at in 0..uses.len() {
        if matches!(uses[at], Use::Free) {
            return Some(at);
        }
    }
    None
}

// A free block that the bits show: the first one from a place on, or else the first of all.
fn hinted(uses: &[Use], hints: &[u64], from: usize) -> Option<usize>
    ensures { IfSome result (λ at. (use_at uses.now at ≡ Use.Free) × (at < length uses.now)) }
{
    let at = match find_hint(hints, from) {
        Some(at) => at,
        None => find_hint(hints, 0)?,
    };
    match uses.get(at) {
        Some(Use::Free) => Some(at),
        _ => None,
    }
}

/// The first free block from a place on, or else the first of all. Costs a look at each word of
/// bits between, and one at the table of uses; were a bit wrong, a pass over that table.
pub(crate) fn next_free(uses: &[Use], hints: &[u64], from: usize) -> usize
    requires { 0 < count_by is_free uses.now }
    ensures free { use_at uses.now result ≡ Use.Free }
    ensures below { result < length uses.now }
{
    if let Some(at) = hinted(uses, hints, from) {
        return at;
    }
    match first_free(uses) {
        Some(at) => at,
        None => unreachable!(),
    }
}

// Gives all these blocks another use.
fn mark(uses: &mut [Use], blocks: &[u32], to: Use)
    requires { All (λ b. b < length uses.old) blocks.now }
    ensures { uses.new ≡ put_all to blocks.now uses.old }
{
    for block in blocks {
        uses[*block as usize] = to;
    }
}

/// The uses of a disk where these blocks are live, and all others past the ring are free.
pub(crate) fn new_uses(
    alloc: Global,
    blocks: u32,
    ring: u32,
    live: &[u32],
) -> Result<Vec<Use>, AllocError>
    requires ring { ring + 2 ≤ blocks }
    requires live { All (λ b. b < blocks) live.now }
    ensures { IfOk result (λ uses. uses.items ≡ put_all Use.Live live.now (blank blocks ring)) }
{
    let mut uses = vec![in alloc; Use::System; ring as usize + 2]?;
    uses.resize(blocks as usize, Use::Free)?;
    mark(uses.as_mut_slice(), live, Use::Live);
    Ok(uses)
}
