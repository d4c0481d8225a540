//! Disks to run commands on.
ghost use Rattle.std.specs.Prelude.{◌≤◌};

use crate::rows::{halves, number_of};
use fx_disk::Disk;
use fx_disks::{Image, Loose, MemDisk, Pick};
use fx_jblock::{RECORD_BYTES, pack};
use fx_mount::mkfs;
use fx_super::{LayerList, Super, encode_super, first_super};
use std::alloc::{AllocError, Global};

/// The fewest blocks of a disk with a ring of 256 blocks.
const BLOCKS: u32 = 1_088;

/// Where each commit and each layer of an image counts from is too near to its bound.
const LAST_GENERATION: u64 = (1 << 63) - 1;

/// A disk that is named in a table: `blank N`, of N blocks of zeros, `formatted`, or one whose
/// first superblock a session cannot go on from.
pub(crate) fn disk_of(alloc: Global, name: &str) -> Result<MemDisk, AllocError> {
    if name == "formatted" {
        return formatted(alloc);
    }
    match super_of(name) {
        Some(sup) => with_super(alloc, &sup),
        None => blank(alloc, name),
    }
}

/// The superblock of this name.
fn super_of(name: &str) -> Option<Super> {
    let first = first_super(BLOCKS, 256);
    match name {
        "version" => Some(Super {
            version: 7,
            ..first
        }),
        "size" => Some(first_super(2_048, 256)),
        "layer" => Some(Super {
            objects: LayerList::from_slice(&[300, 301]),
            ..first
        }),
        "allocator" => Some(Super {
            allocs: LayerList::from_slice(&[302]),
            ..first
        }),
        "cramped" => Some(Super {
            generation: LAST_GENERATION,
            ..first
        }),
        _ => None,
    }
}

/// A disk of `N` blocks of zeros, for the name `blank N`.
fn blank(alloc: Global, name: &str) -> Result<MemDisk, AllocError> {
    match halves(name, " ") {
        ("blank", number) => match number.parse::<u32>() {
            Ok(blocks) => MemDisk::new(alloc, blocks),
            Err(_) => Err(AllocError),
        },
        _ => Err(AllocError),
    }
}

/// A disk of the fewest blocks, which begins with these and goes on with zeros.
fn begun(alloc: Global, mut blocks: Vec<[u8; 4096]>) -> Result<MemDisk, AllocError> {
    blocks.resize(BLOCKS as usize, [0; 4096])?;
    Ok(MemDisk::from_image(alloc, Image::from_blocks(blocks)))
}

/// A disk whose block 0 holds this superblock, and whose other blocks are zeros.
fn with_super(alloc: Global, sup: &Super) -> Result<MemDisk, AllocError> {
    let mut block = [0; 4096];
    encode_super(sup, &mut block);
    begun(alloc, [block].to_vec(alloc)?)
}

/// A block of the journal that holds these bytes; none where they are too many or none.
fn journal_of(records: &[u8]) -> Option<[u8; 4096]> {
    if records.is_empty() || RECORD_BYTES < records.len() {
        return None;
    }
    let mut block = [0; 4096];
    let _chain = pack(0, 1, 1, records, &mut block);
    Some(block)
}

/// A disk with the first superblock, whose journal is one block that holds these bytes. It fails
/// where they are too many or none.
pub(crate) fn with_journal(alloc: Global, records: &[u8]) -> Result<MemDisk, AllocError> {
    let journal = journal_of(records).ok_or(AllocError)?;
    let mut first = [0; 4096];
    encode_super(&first_super(BLOCKS, 256), &mut first);
    begun(alloc, [first, [0; 4096], journal].to_vec(alloc)?)
}

/// Formats the disk, or says that it could not.
fn is_formatted<D: Disk>(disk: &mut D) -> bool {
    mkfs(disk, 256).is_ok()
}

/// A disk that begins as `mkfs` leaves one, and has made no calls.
pub(crate) fn formatted(alloc: Global) -> Result<MemDisk, AllocError> {
    let mut disk = MemDisk::new(alloc, BLOCKS)?;
    if !is_formatted(&mut disk) {
        return Err(AllocError);
    }
    left_by(alloc, &disk)
}

/// The image that a stop of the disk at this moment leaves by these picks, if there is one.
fn image_of(
    alloc: Global,
    disk: &MemDisk,
    moment: u64,
    picks: &[Pick],
) -> Result<Option<Image>, AllocError> {
    disk.image_at(alloc, moment, picks)
}

/// A disk that begins as this image, of at most a million blocks.
fn disk_on(alloc: Global, image: Image) -> Option<MemDisk> {
    if image.blocks().len() > 1_000_000 {
        return None;
    }
    Some(MemDisk::from_image(alloc, image))
}

/// A disk that begins as a stop of this one at this moment leaves it by these picks, if there is
/// such an image.
pub(crate) fn left_at(
    alloc: Global,
    disk: &MemDisk,
    moment: u64,
    picks: &[Pick],
) -> Result<Option<MemDisk>, AllocError> {
    match image_of(alloc, disk, moment, picks)? {
        Some(image) => Ok(disk_on(alloc, image)),
        None => Ok(None),
    }
}

/// A disk that begins as this one was left by its last call. A block that is loose has its settled
/// bytes.
pub(crate) fn left_by(alloc: Global, disk: &MemDisk) -> Result<MemDisk, AllocError> {
    left_at(alloc, disk, disk.calls(), &[])?.ok_or(AllocError)
}

/// What may be left in a loose block, by its name in a table: `settled`, `zeros`, and `written
/// CALL` or `half CALL`, all or half of what this call wrote. No block has what another name says.
fn loose_of(name: &str) -> Loose {
    let (kind, call) = halves(name, " ");
    match kind {
        "settled" => Loose::Settled,
        "zeros" => Loose::Zeros,
        "half" => Loose::Half(number_of(call)),
        _ => Loose::Written(number_of(call)),
    }
}

/// The pick of a text, `BLOCK LOOSE`.
fn pick_of(text: &str) -> Pick {
    let (block, loose) = halves(text, " ");
    Pick {
        block: block.parse::<u32>().unwrap_or(u32::MAX),
        loose: loose_of(loose),
    }
}

/// The picks of a text, each `BLOCK LOOSE`, which commas part.
fn picks_of(alloc: Global, text: &str) -> Result<Vec<Pick>, AllocError> {
    let mut picks = Vec::new(alloc);
    for part in text.split(',') {
        if !part.is_empty() {
            picks.push(pick_of(part.trim()))?;
        }
    }
    Ok(picks)
}

/// A disk that begins as a stop of this one at this moment leaves it by the picks of the text. It
/// fails where there is no such image.
pub(crate) fn left_as(
    alloc: Global,
    disk: &MemDisk,
    moment: u64,
    picks: &str,
) -> Result<MemDisk, AllocError> {
    let picks = picks_of(alloc, picks)?;
    left_at(alloc, disk, moment, &picks)?.ok_or(AllocError)
}
