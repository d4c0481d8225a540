//! How the bytes of a name or a text are written.
ghost use Rattle.std.specs.Prelude.{◌≡◌, ◌++◌, OnOk, OnErr, string_bytes};
ghost use Rattle.fx_script.specs.Escape.{escaped};

use percent_encoding::{AsciiSet, NON_ALPHANUMERIC, ascii_set, percent_encode};
use std::alloc::AllocError;

/// The ASCII bytes that are escaped.
const ESCAPED: AsciiSet = ascii_set!(
    NON_ALPHANUMERIC
        .remove(b'.')
        .remove(b'-')
        .remove(b'_')
        .remove(b'~')
);

/// Appends the bytes, each but a letter, a digit, `.`, `-`, `_` and `~` of ASCII as `%` and two
/// hexadecimal digits in capitals. Where memory runs out the text is as before. Costs the bytes.
pub fn push_escaped(text: &mut String, bytes: &[u8]) -> Result<(), AllocError>
    ensures ok { OnOk result (string_bytes text.new ≡ string_bytes text.old ++ escaped bytes.now) }
    ensures err { OnErr result (string_bytes text.new ≡ string_bytes text.old) }
{
    percent_encode(bytes, ESCAPED).append_to(text)
}
