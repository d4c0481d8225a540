//! What a read takes of a block.
ghost use Rattle.std.specs.Prelude.{◌≡◌, ◌+◌, ◌*◌, ◌<◌, ◌≤◌, length};
ghost use Rattle.fx_extent.specs.Reading.{piece_read};
ghost use Rattle.fx_base.specs.declared.block.TheConstants.{BLOCK_BYTES};
ghost use Rattle.fx_plain.specs.declared.contents.TheConstants.{MAX_FILE};

use fx_base::BLOCK_BYTES;

/// What block `n` of a file has of the bytes from `at` on, up to those from `past` on.
pub fn read_part(block: &[u8], n: usize, at: usize, past: usize) -> &[u8]
    requires full { length block.now ≡ BLOCK_BYTES }
    requires begins { n * BLOCK_BYTES < past }
    requires ends { at < (n + 1) * BLOCK_BYTES }
    requires some { at < past }
    requires fits { past ≤ MAX_FILE }
    ensures { result.now ≡ piece_read at past n block.now }
{
    let begin = n * BLOCK_BYTES;
    let from = at.saturating_sub(begin);
    let to = (past - begin).min(BLOCK_BYTES);
    &block[from..to]
}
