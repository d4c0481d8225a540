//! What a file holds.
ghost use Rattle.std.specs.Prelude.{◌≡◌, ◌+◌, ◌-◌, ◌≤◌, ◌++◌, [], true, false, length, take, drop, replicate, vec_len, OnOk, OnErr, IfOk};
ghost use Rattle.std.specs.FinSet as set;
ghost use Rattle.fx_plain.specs.Node.{file_blocks, written};
ghost use Rattle.fx_contents.specs.Cuts.{truncated};

use fx_base::BLOCK_BYTES;
use fx_item::Bytes;
use fx_plain::MAX_FILE;
use std::alloc::{AllocError, Global};
use std::marker::Model;

/// A file's bytes, and which of its blocks are held: a mark for each block number, false past the
/// end.
#[derive(Debug, Drop)]
pub struct Contents {
    bytes: Vec<u8>,
    marks: Vec<bool>,
}

impl Model for Contents {
    ghost use Rattle.fx_plain.specs.Node.{Contents};
    ghost use Rattle.fx_plain.specs.Memory.{marked};
    ghost use Rattle.fx_plain.specs.Codes.{contents_code};

    ghost Value = { Contents };

    ghost coded = { contents_code };

    ghost view = { λ c. record { bytes = c.bytes.items; held = marked c.marks.items } };

    ghost use Rattle.fx_plain.specs.Memory.{IsFileSize};

    ghost invariant = { λ c. IsFileSize c.bytes.items c.marks.items };
}

impl Contents {
    /// No bytes, and no held block.
    pub fn new(alloc: Global) -> Contents
        ensures { result ≡ record { bytes = []; held = set.empty } }
    {
        Contents {
            bytes: Vec::new(alloc),
            marks: Vec::new(alloc),
        }
    }

    /// Puts the text in place of the bytes from `at` on, over zeros where the file ends before.
    /// Costs the text and the growth. Where memory is short, nothing is changed.
    pub fn write(&mut self, at: usize, text: &[u8]) -> Result<(), AllocError>
        requires { at + length text.now ≤ MAX_FILE }
        ensures ok { OnOk result (self.new ≡ written at text.now self.old) }
        ensures err { OnErr result (self.new ≡ self.old) }
    {
        if text.is_empty() {
            return Ok(());
        }
        let end = at + text.len();
        let first = at / BLOCK_BYTES;
        let past = (end - 1) / BLOCK_BYTES + 1;
        // New marks are false, so they hold nothing yet if the bytes then find no room.
        grow(&mut self.marks, past, false)?;
        grow(&mut self.bytes, end, 0)?;
        put(&mut self.bytes, at, text);
        mark(&mut self.marks, first, past);
        Ok(())
    }

    /// Cuts the file at the size, or lets it grow to it with zeros. Costs what it grows by. Where
    /// memory is short, nothing is changed.
    pub fn truncate(&mut self, size: usize) -> Result<(), AllocError>
        requires { size ≤ MAX_FILE }
        ensures ok { OnOk result (self.new ≡ truncated size self.old) }
        ensures err { OnErr result (self.new ≡ self.old) }
    {
        grow(&mut self.bytes, size, 0)?;
        self.bytes.truncate(size);
        self.marks.truncate(size.div_ceil(BLOCK_BYTES));
        Ok(())
    }

    /// The bytes from `at` on, at most `count`, and none past the end. Costs what it answers.
    pub fn read(&self, alloc: Global, at: usize, count: usize) -> Result<Bytes, AllocError>
        ensures { IfOk result (λ text. text ≡ take count (drop at self.now.bytes)) }
    {
        let (_, rest) = self.bytes.as_slice().split_at(at.min(self.bytes.len()));
        let (text, _) = rest.split_at(count.min(rest.len()));
        Ok(Bytes::new(Vec::from_slice(alloc, text)?))
    }

    /// How many bytes.
    pub fn len(&self) -> usize
        ensures bytes { result ≡ length self.now.bytes }
        ensures few { result ≤ MAX_FILE }
    {
        self.bytes.len()
    }

    /// How many blocks are held. One pass over the marks.
    pub fn held(&self) -> usize
        ensures blocks { result ≡ set.len self.now.held }
        ensures few { result ≤ file_blocks }
    {
        self.marks.iter().filter(|mark| **mark).count()
    }
}

/// Grows the list to at least `n` places.
fn grow<T: Copy + Drop>(items: &mut Vec<T>, n: usize, fill: T) -> Result<(), AllocError>
    ensures ok { OnOk result
        (items.new.items ≡ items.old.items ++ replicate (n - length items.old.items) fill) }
    ensures err { OnErr result (items.new.items ≡ items.old.items) }
{
    if n <= items.len() {
        return Ok(());
    }
    items.resize(n, fill)
}

/// Puts the text in place of the bytes from `at` on.
fn put(bytes: &mut Vec<u8>, at: usize, text: &[u8])
    requires { at + length text.now ≤ length bytes.old.items }
    ensures { bytes.new.items
        ≡ take at bytes.old.items ++ text.now ++ drop (at + length text.now) bytes.old.items }
{
    let end = at + text.len();
    bytes[at..end].copy_from_slice(text);
}

/// Sets the marks from `first` up to `past`.
fn mark(marks: &mut Vec<bool>, first: usize, past: usize)
    requires order { first ≤ past }
    requires within { past ≤ length marks.old.items }
    ensures { marks.new.items
        ≡ take first marks.old.items ++ replicate (past - first) true ++ drop past marks.old.items }
{
    marks[first..past].fill(true);
}
