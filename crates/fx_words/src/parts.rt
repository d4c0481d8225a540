//! A group, parted at the words `;`.
ghost use Rattle.std.specs.Prelude.{◌≡◌, ◌≤◌, [], length};
ghost use Rattle.std.specs.Iterator.{YieldsFirst, item_count};
ghost use Rattle.fx_script.specs.Cut.{cut_rest, words_of};
ghost use Rattle.fx_words.specs.Lines.{cut_parts};
ghost use Rattle.fx_words.specs.Parts.{EndsPart, words_before, words_from};

use fx_script::Pieces;
use std::marker::Model;

/// The parts of a line that are left, each of which contracts see as its words. It borrows the bytes
/// of the line.
#[derive(Drop)]
pub struct Parts<'a> {
    rest: Option<Option<&'a [u8]>>,
}

impl<'a> Model for Parts<'a> {
    ghost use Rattle.std.specs.Prelude.{List, ℕ};

    ghost Value = { List (List (List ℕ)) };

    ghost use Rattle.fx_words.specs.Said.{parts_left};

    ghost view = { λ p. parts_left p.rest };
}

impl<'a> Parts<'a> {
    /// The parts of a line.
    pub fn new(text: &'a [u8]) -> Parts<'a>
        ensures { result ≡ cut_parts (words_of text.now) }
    {
        Parts {
            rest: Some(Some(text)),
        }
    }
}

/// No words.
fn no_words<'a>() -> Pieces<'a>
    ensures { result ≡ [] }
{
    Pieces::lines(b"".as_slice())
}

/// Where the first word `;` begins.
fn part_end(text: &[u8]) -> Option<usize>
    ensures { EndsPart text.now result }
{
    let mut at = 0;
    for word in Pieces::new(text, b' ') {
        if word == b";".as_slice() {
            return Some(at);
        }
        at += word.len() + 1;
    }
    None
}

/// The words before the one that begins at a byte.
fn words_before<'a>(at: usize, text: &'a [u8]) -> Pieces<'a>
    requires { at ≤ length text.now }
    ensures { result ≡ words_before at text.now }
{
    if at == 0 {
        return no_words();
    }
    Pieces::new(&text[..at - 1], b' ')
}

/// The text from a byte on, if the text reaches there.
pub(crate) fn text_from<'a>(at: usize, text: &'a [u8]) -> Option<&'a [u8]>
    ensures { cut_rest 32 result ≡ words_from at text.now }
{
    if at > text.len() {
        return None;
    }
    Some(&text[at..])
}

impl<'a> Iterator for Parts<'a> {
    type Item = Pieces<'a>;

    ghost next_gives = { YieldsFirst (λ parts. parts) };

    ghost remaining = { item_count (λ parts. parts) };

    fn next(&mut self) -> Option<Pieces<'a>> {
        let Some(text) = self.rest? else {
            self.rest = None;
            return Some(no_words());
        };
        match part_end(text) {
            Some(at) => {
                self.rest = Some(text_from(at + 2, text));
                Some(words_before(at, text))
            }
            None => {
                self.rest = None;
                Some(Pieces::new(text, b' '))
            }
        }
    }
}
