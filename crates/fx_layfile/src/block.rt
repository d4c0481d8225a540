//! The blocks of a layer: index blocks, which name data blocks, and data blocks, which hold items.
ghost use Rattle.std.specs.Prelude.{◌≡◌, ◌≤◌, ◌+◌, ◌-◌, ◌*◌, ◌++◌, ◌^◌, ℕ, List, length, MatchOption};
ghost use Rattle.byteorder.specs.Endian.{little_bytes};
ghost use Rattle.fx_layfile.specs.Block.{padded_text, names_bytes, layer_header, layer_body, layer_block, index_bytes, IsFramed};

use byteorder::{ByteOrder, LittleEndian};
use fx_base::BLOCK_BYTES;
use fx_sum::fletch;

/// The first four bytes of an index block, `FXLI`.
pub const INDEX_MAGIC: u32 = 0x494c_5846;

/// The first four bytes of a data block, `FXLD`.
pub const DATA_MAGIC: u32 = 0x444c_5846;

/// Where the text begins in a block of a layer.
pub(crate) const TEXT_AT: usize = 16;

/// Where the sum stands. It covers all bytes before it.
pub(crate) const SUM_AT: usize = 4_088;

/// The most bytes of the items of a data block.
pub const ROOM_BYTES: usize = 4_072;

/// The most data blocks that an index block names.
pub const INDEX_NAMES: usize = 1_018;

/// A block of a layer, and where it is to stand.
#[derive(Debug, Drop)]
pub struct Block {
    pub at: u32,
    pub bytes: [u8; BLOCK_BYTES],
}

/// Writes the index block of these data blocks, 1 to 1,018. One pass over the block, and no memory.
#[tactic(auto, unfolding(crate::specs::Block::layer_block))]
pub(crate) fn write_index(tree: u32, next: u32, names: &[u32], into: &mut [u8; BLOCK_BYTES])
    requires { length names.now ≤ INDEX_NAMES }
    ensures { into.new ≡ index_bytes tree next names.now }
{
    let (body, sum) = into.split_at_mut(SUM_AT);
    fill_index(tree, next, names, body);
    LittleEndian::write_u64(sum, fletch(0, body));
}

/// Writes all of an index block but its sum.
#[tactic(auto, unfolding(crate::specs::Block::layer_body))]
fn fill_index(tree: u32, next: u32, names: &[u32], into: &mut [u8])
    requires few { length names.now ≤ INDEX_NAMES }
    requires whole { length into.old ≡ SUM_AT }
    ensures { into.new ≡ layer_body INDEX_MAGIC next (length names.now) tree
        (padded_text (names_bytes names.now)) }
{
    let (header, rest) = into.split_at_mut(TEXT_AT);
    fill_header(INDEX_MAGIC, next, names.len() as u32, tree, header);
    fill_names(names, rest);
}

/// Writes the names and zeros behind them.
#[tactic(auto, unfolding(crate::specs::Block::padded_text))]
fn fill_names(names: &[u32], into: &mut [u8])
    requires few { length names.now ≤ INDEX_NAMES }
    requires whole { length into.old ≡ ROOM_BYTES }
    ensures { into.new ≡ padded_text (names_bytes names.now) }
{
    let (text, zeros) = into.split_at_mut(4 * names.len());
    LittleEndian::write_u32_into(names, text);
    zeros.fill(0);
}

/// Writes the four numbers before the text.
#[tactic(auto, unfolding(crate::specs::Block::layer_header))]
fn fill_header(magic: u32, a: u32, b: u32, c: u32, into: &mut [u8])
    requires { length into.old ≡ TEXT_AT }
    ensures { into.new ≡ layer_header magic a b c }
{
    LittleEndian::write_u32(into, magic);
    LittleEndian::write_u32(&mut into[4..], a);
    LittleEndian::write_u32(&mut into[8..], b);
    LittleEndian::write_u32(&mut into[12..], c);
}

/// Writes the data block of `count` items that are these bytes. One pass over the block, and no
/// memory.
#[tactic(auto, unfolding(crate::specs::Block::layer_block))]
pub(crate) fn write_data(count: u32, text: &[u8], into: &mut [u8; BLOCK_BYTES])
    requires { length text.now ≤ ROOM_BYTES }
    ensures { into.new
        ≡ layer_block DATA_MAGIC count (length text.now) 0 (padded_text text.now) }
{
    let (body, sum) = into.split_at_mut(SUM_AT);
    fill_data(count, text, body);
    LittleEndian::write_u64(sum, fletch(0, body));
}

/// Writes all of a data block but its sum.
#[tactic(auto, unfolding(crate::specs::Block::layer_body))]
fn fill_data(count: u32, text: &[u8], into: &mut [u8])
    requires room { length text.now ≤ ROOM_BYTES }
    requires whole { length into.old ≡ SUM_AT }
    ensures { into.new
        ≡ layer_body DATA_MAGIC count (length text.now) 0 (padded_text text.now) }
{
    let (header, rest) = into.split_at_mut(TEXT_AT);
    fill_header(DATA_MAGIC, count, text.len() as u32, 0, header);
    fill_text(text, rest);
}

/// Writes the text and zeros behind it.
#[tactic(auto, unfolding(crate::specs::Block::padded_text))]
fn fill_text(text: &[u8], into: &mut [u8])
    requires room { length text.now ≤ ROOM_BYTES }
    requires whole { length into.old ≡ ROOM_BYTES }
    ensures { into.new ≡ padded_text text.now }
{
    let (front, zeros) = into.split_at_mut(text.len());
    front.copy_from_slice(text);
    zeros.fill(0);
}

/// The three numbers behind the magic, and the text with what fills it up, of a block that begins
/// with this magic and has the right sum. One pass over the block.
pub(crate) fn open_block(block: &[u8; BLOCK_BYTES], magic: u32) -> Option<(u32, u32, u32, &[u8])>
    ensures { MatchOption result
        ((a b c : ℕ) (raw : List ℕ) → IsFramed block.now magic a b c raw → ⊥)
        (λ f. IsFramed block.now magic f.0 f.1 f.2 f.3.now) }
{
    let (body, sum) = block.split_at(SUM_AT);
    if LittleEndian::read_u64(sum) != fletch(0, body) {
        return None;
    }
    let (first, rest) = take_number(body);
    if first != magic {
        return None;
    }
    let (a, rest) = take_number(rest);
    let (b, rest) = take_number(rest);
    let (c, raw) = take_number(rest);
    Some((a, b, c, raw))
}

/// The number in the first four bytes, and the bytes after it.
fn take_number(bytes: &[u8]) -> (u32, &[u8])
    requires { 4 ≤ length bytes.now }
    ensures read { bytes.now ≡ little_bytes 4 result.0 ++ result.1.now }
    ensures left { 4 + length result.1.now ≡ length bytes.now }
{
    let (number, rest) = bytes.split_at(4);
    (LittleEndian::read_u32(number), rest)
}
