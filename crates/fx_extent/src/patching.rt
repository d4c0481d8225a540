//! What a new block of a file gets.
ghost use Rattle.std.specs.Prelude.{◌≡◌, ◌+◌, ◌*◌, ◌-◌, ◌<◌, ◌≤◌, All, length, true};
ghost use Rattle.fx_contents.specs.Writes.{is_covered};
ghost use Rattle.fx_extent.specs.Patches as plain;
ghost use Rattle.fx_extent.specs.Patches.{IsInBlock, patch_of, patches_of};
ghost use Rattle.fx_base.specs.declared.block.TheConstants.{BLOCK_BYTES};
ghost use Rattle.fx_plain.specs.declared.contents.TheConstants.{MAX_FILE};

use fx_base::BLOCK_BYTES;

/// What is put into a block of a file. A new block is the old one, or zeros where there is none, with its
/// patches put into it in order.
#[derive(Clone, Copy, Debug)]
pub enum Patch<'a> {
    /// These bytes, from the offset on.
    Text { offset: usize, bytes: &'a [u8] },
    /// Zeros, from the offset to the end of the block.
    Zeros { offset: usize },
}

/// The part of a text that block `n` of a file gets, where the text is written from `at` on and covers the
/// block.
pub fn text_patch<'a>(at: usize, text: &'a [u8], n: usize) -> Patch<'a>
    requires covered { is_covered at text.now n ≡ true }
    requires fits { at + length text.now ≤ MAX_FILE }
    ensures patch { patch_of result ≡ plain.text_patch at text.now n }
    ensures inside { IsInBlock (patch_of result) }
{
    let start = n * BLOCK_BYTES;
    let offset = at.saturating_sub(start);
    let skip = start.saturating_sub(at);
    let count = (BLOCK_BYTES - offset).min(text.len() - skip);
    Patch::Text {
        offset,
        bytes: &text[skip..skip + count],
    }
}

/// The zeros that block `n` of a file gets from a size on that lies in it.
pub fn zero_patch<'a>(size: usize, n: usize) -> Patch<'a>
    requires begins { n * BLOCK_BYTES < size }
    requires ends { size < (n + 1) * BLOCK_BYTES }
    requires fits { size ≤ MAX_FILE }
    ensures patch { patch_of result ≡ plain.zero_patch size n }
    ensures inside { IsInBlock (patch_of result) }
{
    Patch::Zeros {
        offset: size - n * BLOCK_BYTES,
    }
}

/// Puts a patch into a block.
pub fn put_patch(block: &mut [u8], patch: Patch<'_>)
    requires full { length block.now ≡ BLOCK_BYTES }
    requires inside { IsInBlock (patch_of patch) }
    ensures { block.new ≡ plain.put_patch block.old (patch_of patch.entry) }
{
    match patch {
        Patch::Text { offset, bytes } => {
            block[offset..offset + bytes.len()].copy_from_slice(bytes);
        }
        Patch::Zeros { offset } => block[offset..].fill(0),
    }
}

/// Puts patches into a block, the first one first. Costs their bytes.
pub fn put_patches(block: &mut [u8], patches: &[Patch<'_>])
    requires full { length block.now ≡ BLOCK_BYTES }
    requires inside { All (λ patch. IsInBlock (patch_of patch)) patches.now }
    ensures { block.new ≡ plain.put_patches (patches_of patches.now) block.old }
{
    for patch in patches {
        put_patch(block, *patch);
    }
}
