//! The name of a node in its directory.
ghost use Rattle.std.specs.Prelude.{◌≡◌, Some, refl, nat_eq};
ghost use Rattle.std.specs.Ordering.{nat_cmp};
ghost use Rattle.std.specs.Cmp as cmp;
ghost use Rattle.std.specs.Cmp.Lexicographic.{slice_cmp, pointwise, texts_ties, texts_po, nat_list_cmp_total, nat_list_eq_equiv};
ghost use Rattle.std.specs.Str.{is_utf8};
ghost use Rattle.fx_item.specs.Name.{is_name};

use std::alloc::AllocError;
use std::cmp::Ordering;
use std::marker::Model;
use std::str;

/// The most bytes of a name.
pub const MAX_NAME: usize = 255;

/// The name of a node in its directory: a list of bytes, in the order of the bytes.
/// Which byte strings a script or an image may name a node by, `is_name` tells.
#[derive(Debug, Drop)]
pub struct Name {
    letters: Vec<u8>,
}

impl Model for Name {
    ghost use Rattle.std.specs.Prelude.{List, ℕ};

    ghost Value = { List ℕ };

    ghost view = { λ n. n.letters.items };
}

impl Name {
    /// The name of these bytes.
    pub fn new(letters: Vec<u8>) -> Name
        ensures { result ≡ letters.items }
    {
        Name { letters }
    }

    /// Its bytes.
    pub fn as_slice(&self) -> &[u8]
        ensures { result.now ≡ self.now }
    {
        self.letters.as_slice()
    }

    /// The vector that holds its bytes.
    pub fn into_vec(self) -> Vec<u8>
        ensures { result.items ≡ self }
    {
        self.letters
    }
}

/// Whether the bytes may name a node: 1 to 255 bytes of UTF-8 with no `/` and no NUL, and neither
/// `.` nor `..`. One pass over the bytes.
pub fn is_name(bytes: &[u8]) -> bool
    ensures { result ≡ is_name bytes.now }
{
    !bytes.is_empty()
        && bytes.len() <= MAX_NAME
        && !bytes.contains(&b'/')
        && !bytes.contains(&0)
        && bytes != b".".as_slice()
        && bytes != b"..".as_slice()
        && is_text(bytes)
}

/// Whether the bytes are UTF-8.
fn is_text(bytes: &[u8]) -> bool
    ensures { result ≡ is_utf8 bytes.now }
{
    match str::from_utf8(bytes) {
        Ok(_) => true,
        Err(_) => false,
    }
}

/// The same name in memory of its own. Costs its length.
impl Clone for Name {
    ghost is_clone = { λ x y. y ≡ x };

    fn clone(&self) -> Result<Name, AllocError> {
        let letters = Vec::from_slice(*self.letters.allocator(), self.letters.as_slice())?;
        Ok(Name { letters })
    }
}

impl PartialEq for Name {
    ghost eq = { pointwise nat_eq };

    ghost laws = { cmp.partial_equiv_from_equiv nat_list_eq_equiv };

    fn eq(&self, other: &Name) -> bool {
        self.letters == other.letters
    }
}

impl Eq for Name {
    ghost laws = { nat_list_eq_equiv };
}

impl PartialOrd for Name {
    ghost partial_cmp = { λ x y. Some (slice_cmp nat_cmp x y) };

    ghost laws = { texts_po };

    fn partial_cmp(&self, other: &Name) -> Option<Ordering> {
        Some(self.cmp(other))
    }
}

impl Ord for Name {
    ghost cmp = { slice_cmp nat_cmp };

    ghost total = { nat_list_cmp_total };

    ghost matches_partial_cmp = { λ x y. refl };

    ghost matches_eq = { texts_ties };

    fn cmp(&self, other: &Name) -> Ordering {
        self.letters.cmp(&other.letters)
    }
}
