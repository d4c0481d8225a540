//! Where free blocks may be: a bit for each block, 64 a word. The table of uses decides what is
//! free; the bits say only where a draw looks first, and no clause speaks of them.

use crate::uses::Use;
use std::alloc::{AllocError, Global};

/// Blocks that one word stands for.
const WORD_BLOCKS: usize = 64;

/// Notes that a block has this use now.
pub(crate) fn note(hints: &mut [u64], block: usize, to: Use) {
    let at = block / WORD_BLOCKS;
    if at < hints.len() {
        let bit = 1u64 << (block % WORD_BLOCKS);
        let word = hints[at];
        hints[at] = match to {
            Use::Free => word | bit,
            _ => word & !bit,
        };
    }
}

/// The bits of a disk with these uses. Costs one pass over the disk.
pub(crate) fn new_hints(alloc: Global, uses: &[Use]) -> Result<Vec<u64>, AllocError> {
    let mut hints = vec![in alloc; 0; uses.len() / WORD_BLOCKS + 1]?;
    for block in 0..uses.len() {
        note(hints.as_mut_slice(), block, uses[block]);
    }
    Ok(hints)
}

// The first block that a word shows, where this is word `at` of all.
fn first_of(word: u64, at: usize) -> Option<usize> {
    if word == 0 {
        return None;
    }
    let before = at.saturating_mul(WORD_BLOCKS);
    Some(before.saturating_add(word.trailing_zeros() as usize))
}

/// The first block from a place on that the bits show. Costs a look at each word between.
pub(crate) fn find_hint(hints: &[u64], from: usize) -> Option<usize> {
    let start = from / WORD_BLOCKS;
    if start >= hints.len() {
        return None;
    }
    let rest = hints[start] & (u64::MAX << (from % WORD_BLOCKS));
    if let Some(block) = first_of(rest, start) {
        return Some(block);
    }
    for at in start + 1..hints.len() {
        if let Some(block) = first_of(hints[at], at) {
            return Some(block);
        }
    }
    None
}

#[cfg(test)]
mod tests;
