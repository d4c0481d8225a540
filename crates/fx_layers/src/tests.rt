//! Ranges of a file in two layers that are read from blocks, and in a batch over them.
ghost use Rattle.std.specs.Prelude.{◌≡◌, ◌<◌, ◌^◌, All, IfOk, [], length};
ghost use Rattle.fx_item.specs.Item.{IsItem, item_of, items_of, key_of};
ghost use Rattle.fx_layfile.specs.Block.{IsOfTree, tree_of_key};

use fx_base::{BLOCK_BYTES, zero_block};
use fx_batch::Batch;
use fx_disk::Disk;
use fx_disks::{Image, MemDisk};
use fx_item::{Item, Items, Key, LookFault, Value, decode};
use fx_layerset::{LayerSet, Layered, Layers, LevelList};
use fx_layfile::{BlockSet, Layer, LayerFault, LayerWriter, read_layer};
use std::alloc::{AllocError, Global};
use std::sync::Arc;
use std::test::Fail;

/// Start, end, and the block that stands at the start, of a word such as `2-5@200`.
fn range_of(word: &str) -> (u32, u32, u32) {
    let Some((range, block)) = word.split_once('@') else {
        return (0, 0, 0);
    };
    let Some((start, end)) = range.split_once('-') else {
        return (0, 0, 0);
    };
    let start = start.parse::<u32>().unwrap_or(0);
    let end = end.parse::<u32>().unwrap_or(0);
    (start, end, block.parse::<u32>().unwrap_or(0))
}

/// The bytes of the extent: the sum of each block is its number on the device.
fn bytes_of(alloc: Global, word: &str) -> Result<Vec<u8>, AllocError> {
    let (start, end, block) = range_of(word);
    let mut bytes = Vec::new(alloc);
    bytes.extend_from_slice(&[3, 1, 0, 0, 0, 1, 0, 0, 0, 0, 0, 0, 0])?;
    bytes.extend_from_slice(&start.to_le_bytes())?;
    bytes.extend_from_slice(&end.to_le_bytes())?;
    bytes.push(6)?;
    bytes.extend_from_slice(&block.to_le_bytes())?;
    let mut sum = u64::from(block);
    for _ in start..end {
        bytes.extend_from_slice(&sum.to_le_bytes())?;
        sum = sum.wrapping_add(1);
    }
    Ok(bytes)
}

fn tree_of(key: &Key) -> u32
    ensures { result ≡ tree_of_key (key_of key.now) }
{
    match key {
        Key::Allocation { .. } => 2,
        _ => 1,
    }
}

/// The item of a word.
fn item(alloc: Global, word: &str) -> Result<Item, AllocError>
    ensures { IfOk result (λ item. IsOfTree 1 (item_of item)) }
{
    let bytes = bytes_of(alloc, word)?;
    let Ok((item, _)) = decode(alloc, &bytes) else {
        return Err(AllocError);
    };
    if tree_of(&item.key) != 1 {
        return Err(AllocError);
    }
    Ok(item)
}

fn put(blocks: &mut [[u8; BLOCK_BYTES]], given: Option<fx_layfile::Block>) {
    let Some(given) = given else {
        return;
    };
    if let Some(block) = blocks.get_mut(given.at as usize) {
        let bytes = given.bytes;
        *block = bytes;
    }
}

/// Puts the layer of the words into a data block and the index block behind it.
fn put_layer(
    alloc: Global,
    blocks: &mut [[u8; BLOCK_BYTES]],
    at: u8,
    words: &str,
) -> Result<(), AllocError> {
    let at = u32::from(at);
    let mut writer = LayerWriter::new(alloc, 1);
    for word in words.split(' ') {
        let given = writer.add(&item(alloc, word)?, at)?;
        put(blocks, given);
    }
    if at == 0 {
        return Ok(());
    }
    put(blocks, writer.finish(at)?);
    put(blocks, writer.finish(at + 1)?);
    Ok(())
}

/// The older two of three ranges as a layer each, and what all three say together as a third layer.
fn image(alloc: Global) -> Result<Image, AllocError>
    ensures { IfOk result (λ image. length image < 2 ^ 32) }
{
    let mut blocks = Vec::new(alloc);
    blocks.resize(16, zero_block())?;
    put_layer(alloc, &mut blocks, 6, "0-10@100")?;
    put_layer(alloc, &mut blocks, 8, "2-5@200")?;
    put_layer(alloc, &mut blocks, 10, TOGETHER)?;
    if blocks.len() > 100 {
        return Err(AllocError);
    }
    Ok(Image::from_blocks(blocks))
}

/// What `0-10@100`, `2-5@200` over it and `3-4@300` over both say together.
const TOGETHER: &str = "0-2@100 2-3@200 3-4@300 4-5@202 5-10@105";

/// The layers of the image, the oldest first, as they are read from one disk.
fn read_all(alloc: Global) -> Result<(Layer, Layer, Layer), LayerFault> {
    let Ok(image) = image(alloc) else {
        return Err(LayerFault::OutOfMemory);
    };
    let mut disk = MemDisk::from_image(alloc, image);
    let Ok(mut taken) = BlockSet::new(alloc, disk.blocks()) else {
        return Err(LayerFault::OutOfMemory);
    };
    let oldest = read_layer(alloc, &mut disk, 4, 7, 1, &mut taken)?;
    let newer = read_layer(alloc, &mut disk, 4, 9, 1, &mut taken)?;
    let together = read_layer(alloc, &mut disk, 4, 11, 1, &mut taken)?;
    Ok((oldest, newer, together))
}

/// Layers of the tree of objects.
fn layers_of(alloc: Global, objects: Vec<Layered<Layer>>) -> Layers<Layer>
    ensures objects { result.objects ≡ objects.items }
    ensures allocs { result.allocs ≡ [] }
{
    Layers {
        objects: LevelList::new(objects),
        allocs: LevelList::new(Vec::new(alloc)),
    }
}

/// A set of two layers, with a batch of one range over them.
fn set_over(alloc: Global, oldest: Layer, newer: Layer) -> Result<LayerSet<Layer>, AllocError> {
    let mut objects = Vec::new(alloc);
    objects.push(Layered::Layer(Arc::new(alloc, oldest)?))?;
    objects.push(Layered::Layer(Arc::new(alloc, newer)?))?;
    let mut set = LayerSet::new(alloc, layers_of(alloc, objects));
    let batch = batch_of(alloc, "3-4@300")?;
    set.reserve(1)?;
    set.push(batch);
    Ok(set)
}

fn batch_of(alloc: Global, word: &str) -> Result<Arc<Batch>, AllocError> {
    let items = list_of(alloc, word)?;
    if items.len() >= 1 << 32 {
        return Err(AllocError);
    }
    let Ok(batch) = Batch::build(items) else {
        return Err(AllocError);
    };
    let batch = Arc::new(alloc, batch)?;
    Ok(batch)
}

fn list_of(alloc: Global, word: &str) -> Result<Items, AllocError>
    ensures { IfOk result (λ items. All IsItem (items_of items)) }
{
    let mut items = Vec::new(alloc);
    let item = item(alloc, word)?;
    items.push(item)?;
    Ok(Items::new(items))
}

/// The range of an item, if the sums are those of its blocks.
fn range_in(item: &Item) -> (u32, u32, u32) {
    match (&item.key, &item.value) {
        (Key::Extent { start, end, .. }, Value::Extent { block, sums }) => {
            if sums.as_slice().first() != Some(&u64::from(*block)) {
                return (0, 0, 0);
            }
            (*start, *end, *block)
        }
        _ => (0, 0, 0),
    }
}

/// Whether all levels of the set say just what the three ranges say together.
fn says_together(alloc: Global, set: &LayerSet<Layer>) -> Result<bool, LookFault> {
    let from = Key::Object { store: 0, id: 0 };
    let mut merge = set.upper(alloc, usize::MAX, from)?;
    for word in TOGETHER.split(' ') {
        let Some(item) = merge.next(alloc)? else {
            return Ok(false);
        };
        if range_in(&item) != range_of(word) {
            return Ok(false);
        }
    }
    Ok(merge.next(alloc)?.is_none())
}

/// The layer in the place of the batch and of both layers.
fn install_over(alloc: Global, set: &mut LayerSet<Layer>, layer: Layer) -> Result<(), AllocError> {
    let below = set.batch_count();
    let mut objects = Vec::with_capacity(alloc, 1)?;
    objects.push_reserved(Layered::Layer(Arc::new(alloc, layer)?));
    set.reserve_layers(1)?;
    set.install(below, 2, layers_of(alloc, objects));
    Ok(())
}

/// Whether they say it over two layers, and then as one layer without a batch.
fn hold(alloc: Global) -> Result<(bool, bool), LookFault> {
    let Ok((oldest, newer, together)) = read_all(alloc) else {
        return Ok((false, false));
    };
    let mut set = set_over(alloc, oldest, newer)?;
    let before = says_together(alloc, &set)?;
    install_over(alloc, &mut set, together)?;
    if set.batch_count() != 0 || set.object_count() != 1 {
        return Ok((before, false));
    }
    Ok((before, says_together(alloc, &set)?))
}

#[test]
fn a_batch_over_two_layers_of_blocks(rt: HostRuntime) -> Result<(), Fail> {
    let held = hold(rt.alloc()).ok().ok_or("no memory")?;
    assert_eq!(rt; held, (true, true));
    Ok(())
}
