//! The word that names an image.
ghost use Rattle.std.specs.Prelude.{◌≡◌};
ghost use Rattle.fxfs.specs.Image.{image_of};

use fx_script::read_number;
use fx_super::{MAX_BLOCKS, MIN_BLOCKS};

/// What the word for an image names.
#[derive(Clone, Copy, Debug, PartialEq, Eq)]
pub enum ImageWord {
    /// `mem:N`: a disk of `N` blocks in memory.
    Memory(u32),
    /// A path.
    File,
    /// Neither.
    Unfit,
}

/// What the word for an image names: `mem:` and a decimal number of blocks from 1,088 to 65,536
/// without a leading zero is a disk in memory, and what does not begin with `mem:` is a path.
pub fn image_of(word: &str) -> ImageWord
    ensures { result ≡ image_of word.now }
{
    let Some(number) = word.as_bytes().strip_prefix(b"mem:".as_slice()) else {
        return ImageWord::File;
    };
    match read_number(number) {
        Ok(blocks) if MIN_BLOCKS <= blocks && blocks <= MAX_BLOCKS => ImageWord::Memory(blocks),
        _ => ImageWord::Unfit,
    }
}
