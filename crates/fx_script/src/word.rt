//! What one word of a line stands for.
ghost use Rattle.std.specs.Prelude.{◌≡◌, IfOk, IsTrue, true};
ghost use Rattle.std.specs.List.{list_all};
ghost use Rattle.std.specs.Char.{is_ascii_digit};
ghost use Rattle.percent_encoding.specs.Percent as percent;
ghost use Rattle.fx_item.specs.Name.{is_name};
ghost use Rattle.fx_script.specs.Word.{is_decimal, number_in, text_of, path_of, few_names_of};
ghost use Rattle.fx_script.specs.Checked.{checked, names_in, path_in};
ghost use Rattle.fx_script.specs.Cut.{cut};

use crate::fault::LineFault;
use crate::pieces::Pieces;
use arrayvec::ArrayVec;
use fx_item::{Bytes, MAX_NAME, Name, is_name};
use fx_plain::{MAX_NAMES, Path};
use memchr::{memchr, memchr3};
use percent_encoding::percent_decode;
use std::alloc::{AllocError, Global};
use std::str;

/// Whether each byte is a digit.
fn are_digits(word: &[u8]) -> bool
    ensures { result ≡ list_all is_ascii_digit word.now }
{
    word.iter().all(|b| b.is_ascii_digit())
}

/// Whether the word is `0`, or digits without a leading zero.
fn is_decimal(word: &[u8]) -> bool
    ensures { result ≡ is_decimal word.now }
{
    !word.is_empty() && are_digits(word) && (word.len() == 1 || word[0] != b'0')
}

/// The number that the word is.
pub fn read_number(word: &[u8]) -> Result<u32, LineFault>
    ensures { result ≡ number_in word.now }
{
    if !is_decimal(word) {
        return Err(LineFault::BadNumber);
    }
    let Ok(digits) = str::from_utf8(word) else {
        return Err(LineFault::BadNumber);
    };
    match digits.parse::<u32>() {
        Ok(number) => Ok(number),
        Err(_) => Err(LineFault::BadNumber),
    }
}

/// The bytes of the word, each `%XX` decoded. A word without `%` is copied at once.
fn decode(alloc: Global, word: &[u8]) -> Result<Vec<u8>, AllocError>
    ensures { IfOk result (λ bytes. bytes.items ≡ percent.percent_decode word.now) }
{
    if memchr(b'%', word).is_none() {
        return Vec::from_slice(alloc, word);
    }
    let mut bytes = Vec::with_capacity(alloc, word.len())?;
    percent_decode(word).append_to(&mut bytes)?;
    Ok(bytes)
}

/// Whether the word stands for a text.
pub(crate) fn check_text(word: &[u8]) -> Result<(), LineFault>
    ensures { checked result (percent.percent_decode word.now) ≡ text_of word.now }
{
    if word.is_empty() {
        return Err(LineFault::BadText);
    }
    Ok(())
}

/// The text that the word stands for. Costs the bytes of the word.
pub fn copy_text(alloc: Global, word: &[u8]) -> Result<Bytes, AllocError>
    ensures { IfOk result (λ text. text ≡ percent.percent_decode word.now) }
{
    let bytes = decode(alloc, word)?;
    Ok(Bytes::new(bytes))
}

/// Whether the piece is one of the names that stand for themselves: of ASCII, without `%`.
fn is_plain_name(piece: &[u8]) -> bool
    ensures { IsTrue result → is_name (percent.percent_decode piece.now) ≡ true }
{
    if piece.is_empty() || piece.len() > MAX_NAME {
        return false;
    }
    if piece == b".".as_slice() || piece == b"..".as_slice() {
        return false;
    }
    if memchr3(b'%', b'/', 0, piece).is_some() {
        return false;
    }
    piece.is_ascii()
}

/// Whether the piece is a name once it is decoded.
fn is_decoded_name(piece: &[u8]) -> bool
    ensures { result ≡ is_name (percent.percent_decode piece.now) }
{
    let mut letters = ArrayVec::<u8, MAX_NAME>::new();
    for letter in percent_decode(piece) {
        if letters.try_push(letter).is_err() {
            return false;
        }
    }
    is_name(letters.as_slice())
}

/// Whether a word, or a piece of a path, stands for a name. Costs its bytes.
pub fn stands_for_name(piece: &[u8]) -> bool
    ensures { result ≡ is_name (percent.percent_decode piece.now) }
{
    is_plain_name(piece) || is_decoded_name(piece)
}

/// Whether what stands below the root is names between slashes, and not too many.
fn check_names(text: &[u8]) -> Result<(), LineFault>
    ensures { checked result (names_in (cut 47 text.now)) ≡ few_names_of (cut 47 text.now) }
{
    let mut count = 0;
    for piece in Pieces::new(text, b'/') {
        if count == MAX_NAMES {
            return Err(LineFault::BadPath);
        }
        if !stands_for_name(piece) {
            return Err(LineFault::BadPath);
        }
        count += 1;
    }
    Ok(())
}

/// Whether the word is a path. Fails with `BadPath`, and takes no memory. Costs the bytes of the
/// word.
pub fn check_path(word: &[u8]) -> Result<(), LineFault>
    ensures { checked result (path_in word.now) ≡ path_of word.now }
{
    match word.split_first() {
        Some((b'/', [])) => Ok(()),
        Some((b'/', below)) => check_names(below),
        _ => Err(LineFault::BadPath),
    }
}

/// The name that a word, or a piece of a path, stands for. Costs its bytes.
pub fn copy_name(alloc: Global, piece: &[u8]) -> Result<Name, AllocError>
    ensures { IfOk result (λ name. name ≡ percent.percent_decode piece.now) }
{
    let letters = decode(alloc, piece)?;
    Ok(Name::new(letters))
}

/// The names between the slashes of what stands below the root.
fn copy_names(alloc: Global, text: &[u8]) -> Result<Path, AllocError>
    ensures { IfOk result (λ path. path ≡ names_in (cut 47 text.now)) }
{
    // Room for a volume and a node in it, as most paths have.
    let mut names = Vec::with_capacity(alloc, 2)?;
    for piece in Pieces::new(text, b'/') {
        names.push(copy_name(alloc, piece)?)?;
    }
    Ok(Path::new(names))
}

/// The path that the word stands for. Costs the bytes of the word.
pub fn copy_path(alloc: Global, word: &[u8]) -> Result<Path, AllocError>
    ensures { IfOk result (λ path. path ≡ path_in word.now) }
{
    match word.split_first() {
        Some((_, below)) if !below.is_empty() => copy_names(alloc, below),
        _ => Ok(Path::new(Vec::new(alloc))),
    }
}
