//! Texts cut into pieces.
ghost use Rattle.std.specs.Prelude.{All, ◌≡◌, ◌⊎◌, [], ◌∷◌, false, true};
ghost use Rattle.std.specs.Iterator.{YieldsFirstRef, item_count};
ghost use Rattle.fx_item.specs.Name.{has_byte};
ghost use Rattle.fx_script.specs.Cut.{cut, is_blank, lines_of};

use memchr::memchr;
use std::marker::Model;

/// The pieces of a text between its bytes that are the separator: one more than there are such
/// bytes.
#[derive(Drop)]
pub struct Pieces<'a> {
    rest: Option<&'a [u8]>,
    separator: u8,
}

impl<'a> Model for Pieces<'a> {
    ghost use Rattle.std.specs.Prelude.{List, ℕ};

    ghost Value = { List (List ℕ) };

    ghost use Rattle.fx_script.specs.Cut.{cut_rest};

    ghost view = { λ p. cut_rest p.separator p.rest };
}

impl<'a> Pieces<'a> {
    /// The pieces of a text.
    pub fn new(text: &'a [u8], separator: u8) -> Pieces<'a>
        ensures { result ≡ cut separator text.now }
    {
        Pieces {
            rest: Some(text),
            separator,
        }
    }

    /// The lines of a script: those that end in a line feed, and what comes after the last of them,
    /// if anything does.
    pub fn lines(script: &'a [u8]) -> Pieces<'a>
        ensures { result ≡ lines_of script.now }
    {
        let separator = b'\n';
        let Some((last, ended)) = script.split_last() else {
            return Pieces {
                rest: None,
                separator,
            };
        };
        if *last == separator {
            return Pieces::new(ended, separator);
        }
        Pieces::new(script, separator)
    }

    /// The same pieces once more.
    pub fn again(&self) -> Pieces<'a>
        ensures { result ≡ self.now }
    {
        Pieces {
            rest: self.rest,
            separator: self.separator,
        }
    }

    /// Whether the byte stands in what is left. Where it does not, no piece has it.
    pub fn may_have(&self, byte: u8) -> bool
        ensures { (result ≡ true) ⊎ All (λ piece. has_byte byte piece ≡ false) self.now }
    {
        match self.rest {
            None => false,
            Some(rest) => memchr(byte, rest).is_some(),
        }
    }

    /// Whether no piece is left, or nothing but an empty one.
    pub fn is_blank(&self) -> bool
        ensures { result ≡ is_blank self.now }
    {
        match self.rest {
            None => true,
            Some(rest) => rest.is_empty(),
        }
    }
}

impl<'a> Iterator for Pieces<'a> {
    type Item = &'a [u8];

    ghost next_gives = { YieldsFirstRef (λ pieces. pieces) };

    ghost remaining = { item_count (λ pieces. pieces) };

    fn next(&mut self) -> Option<&'a [u8]> {
        let rest = self.rest?;
        match memchr(self.separator, rest) {
            Some(end) => {
                self.rest = Some(&rest[end + 1..]);
                Some(&rest[..end])
            }
            None => {
                self.rest = None;
                Some(rest)
            }
        }
    }
}
