//! Which blocks of a file a write or a truncation touches, and whose old bytes it wants.
ghost use Rattle.std.specs.Prelude.{◌≡◌, ◌+◌, ◌*◌, ◌<◌, ◌≤◌, ◌-◌, ℕ, List, length};
ghost use Rattle.std.specs.List.{range_with_len};
ghost use Rattle.fx_extent.specs.Touched as touched;
ghost use Rattle.fx_plain.specs.Node as node;
ghost use Rattle.fx_base.specs.declared.block.TheConstants.{BLOCK_BYTES};
ghost use Rattle.fx_plain.specs.declared.contents.TheConstants.{MAX_FILE};

use fx_base::BLOCK_BYTES;
use fx_plain::MAX_FILE;
use std::ops::Range;

/// The blocks of a file that hold a byte of a text that is written from `at` on: the line's Written.
pub fn covered(at: usize, text: &[u8]) -> Range<usize>
    requires { at + length text.now ≤ MAX_FILE }
    ensures each { (n : ℕ) → touched.is_between result.start result.end n
        ≡ touched.holds_some at text.now n }
    ensures list { range_with_len result.start (result.end - result.start)
        ≡ node.covered at text.now }
{
    if text.is_empty() {
        return 0..0;
    }
    let last = at + text.len() - 1;
    at / BLOCK_BYTES..last / BLOCK_BYTES + 1
}

/// Whether the old bytes of block `n` are wanted: a text from `at` on covers it, and not the whole of it.
pub fn is_partly_covered(at: usize, text: &[u8], n: usize) -> bool
    requires fits { at + length text.now ≤ MAX_FILE }
    requires inside { n * BLOCK_BYTES < MAX_FILE }
    ensures { result ≡ touched.is_partly_covered at text.now n }
{
    let begin = n * BLOCK_BYTES;
    let end = begin + BLOCK_BYTES;
    let past = at + text.len();
    !text.is_empty() && (at < end && begin < past) && (begin < at || past < end)
}

/// The blocks of a file that a truncation to a lesser size touches: they begin below the old length, and
/// end past the size. Of these all but the one in which the size lies are taken away.
pub fn cut_blocks(size: usize, len: usize) -> Range<usize>
    requires { len ≤ MAX_FILE }
    ensures { (n : ℕ) → touched.is_between result.start result.end n ≡ touched.is_cut size len n }
{
    if size >= len {
        return 0..0;
    }
    size / BLOCK_BYTES..(len - 1) / BLOCK_BYTES + 1
}

/// Whether a truncation leaves bytes of block `n` and takes others away: then its old bytes are wanted,
/// where it is held, and it is written anew.
pub fn is_cut_inside(size: usize, len: usize, n: usize) -> bool
    requires fits { len ≤ MAX_FILE }
    requires inside { n * BLOCK_BYTES < MAX_FILE }
    ensures { result ≡ touched.is_cut_inside size len n }
{
    let begin = n * BLOCK_BYTES;
    size < len && (begin < len && size < begin + BLOCK_BYTES) && begin < size
}
