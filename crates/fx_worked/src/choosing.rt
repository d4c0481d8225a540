//! Which superblock of an image is chosen.
ghost use Rattle.std.specs.Prelude.{[], ◌∷◌, IfSome, IfNone};
ghost use Rattle.fx_super.specs.Super.{fields_of};
ghost use Rattle.fx_super.specs.Chosen.{IsChosen, HasNoChosen};

use fx_base::BLOCK_BYTES;
use fx_super::{Super, Which, decode_super};

/// The superblock that is chosen where these are blocks 0 and 1, and which of the two it is. Both are
/// read whole.
pub fn chosen(first: &[u8; BLOCK_BYTES], second: &[u8; BLOCK_BYTES]) -> Option<(Which, Super)>
    ensures some { IfSome result (λ found.
        IsChosen (first.now ∷ second.now ∷ []) found.0 (fields_of found.1)) }
    ensures none { IfNone result (HasNoChosen (first.now ∷ second.now ∷ [])) }
{
    match (decode_super(first), decode_super(second)) {
        (Err(_), Err(_)) => None,
        (Ok(a), Err(_)) => Some((Which::A, a)),
        (Err(_), Ok(b)) => Some((Which::B, b)),
        (Ok(a), Ok(b)) => {
            if a.generation < b.generation {
                Some((Which::B, b))
            } else {
                Some((Which::A, a))
            }
        }
    }
}
