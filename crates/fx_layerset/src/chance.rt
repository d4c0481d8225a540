//! Items of all kinds by chance, in batches, in tidied batches and in layers, against a plain map of
//! points.
ghost use Rattle.std.specs.Prelude.{◌<◌};

use crate::set::LayerSet;
use crate::tests::{empty_set, install_all, push_spelled, spelled, tidy_all};
use fx_batch::Batch;
use fx_item::{Item, Key, Look, LookFault, Value};
use std::alloc::{AllocError, Global};
use std::test::Fail;

/// The blocks of the file and of the device that are looked at.
const BLOCKS: u32 = 48;

const STEPS: u32 = 150;

/// Numbers by a linear congruential generator.
#[derive(Drop)]
struct Dice {
    state: u64,
}

impl Dice {
    fn below(&mut self, count: u32) -> u32
        requires { 0 < count }
        ensures { result < count }
    {
        self.state = self
            .state
            .wrapping_mul(6_364_136_223_846_793_005)
            .wrapping_add(1_442_695_040_888_963_407);
        let high = (self.state >> 33) as u32;
        high % count
    }
}

/// What stands at each point, 0 where nothing does: under keys of the kinds 1, 2, 4 and 5 with ids
/// below 4, at blocks of a file (the sum there), and at blocks of the device.
#[derive(Clone, Copy)]
struct Points {
    keys: [u64; 24],
    file: [u64; 48],
    device: [u64; 48],
}

fn put(points: &mut [u64], place: u32, what: u64) {
    if let Some(point) = points.get_mut(place as usize) {
        *point = what;
    }
}

fn point(points: &[u64], place: u32) -> u64 {
    points.get(place as usize).copied().unwrap_or(0)
}

fn key_bytes(alloc: Global, kind: u8, id: u8) -> Result<Vec<u8>, AllocError> {
    let mut bytes = [kind, 1, 0, 0, 0, id, 0, 0, 0, 0, 0, 0, 0].to_vec(alloc)?;
    if kind == 2 || kind == 4 {
        bytes.push(1)?;
        bytes.push(b'a')?;
    }
    Ok(bytes)
}

/// The bytes of a value that says `what`, below 200; a tombstone where it is 0.
fn value_bytes(alloc: Global, kind: u8, what: u8) -> Result<Vec<u8>, AllocError> {
    match kind {
        _ if what == 0 => Ok([0].to_vec(alloc)?),
        1 => Ok([2, what, 0, 0, 0].to_vec(alloc)?),
        2 => Ok([3, 1, 0, what].to_vec(alloc)?),
        4 => Ok([4, 1, 0, 0, 0, what, 0, 0, 0, 0, 0, 0, 0].to_vec(alloc)?),
        _ => Ok([5].to_vec(alloc)?),
    }
}

fn item_bytes(alloc: Global, kind: u8, id: u8, what: u8) -> Result<Vec<u8>, AllocError> {
    let mut bytes = key_bytes(alloc, kind, id)?;
    let mut value = value_bytes(alloc, kind, what)?;
    bytes.append(&mut value)?;
    Ok(bytes)
}

fn push_number(bytes: &mut Vec<u8>, number: u32) -> Result<(), AllocError> {
    for byte in number.to_le_bytes() {
        bytes.push(byte)?;
    }
    Ok(())
}

/// Blocks of the file at blocks of the device from `block` on, 0 for a tombstone. The sum of each is
/// its block and the number of the step.
fn file_bytes(
    alloc: Global,
    start: u32,
    end: u32,
    block: u32,
    step: u32,
) -> Result<Vec<u8>, AllocError> {
    let mut bytes = key_bytes(alloc, 3, 1)?;
    push_number(&mut bytes, start)?;
    push_number(&mut bytes, end)?;
    bytes.push(if block == 0 { 0 } else { 6 })?;
    if block == 0 {
        return Ok(bytes);
    }
    push_number(&mut bytes, block)?;
    for i in 0..end.saturating_sub(start) {
        push_number(&mut bytes, block.wrapping_add(i))?;
        push_number(&mut bytes, step)?;
    }
    Ok(bytes)
}

fn device_bytes(
    alloc: Global,
    start: u32,
    end: u32,
    is_taken: bool,
) -> Result<Vec<u8>, AllocError> {
    let mut bytes = [6].to_vec(alloc)?;
    push_number(&mut bytes, start)?;
    push_number(&mut bytes, end)?;
    bytes.push(if is_taken { 7 } else { 0 })?;
    Ok(bytes)
}

fn slot(kind: u8, id: u8) -> u32 {
    u32::from(kind).wrapping_mul(4).wrapping_add(u32::from(id))
}

/// A key, or that nothing stands under it any more.
fn push_key(
    alloc: Global,
    set: &mut LayerSet<Batch>,
    points: &mut Points,
    dice: &mut Dice,
    kind: u8,
) -> Result<(), AllocError> {
    let id = dice.below(4) as u8;
    let what = if dice.below(3) == 0 {
        0
    } else {
        1 + dice.below(199) as u8
    };
    let what = if kind == 5 && what > 0 { 1 } else { what };
    let bytes = item_bytes(alloc, kind, id, what)?;
    push_spelled(alloc, set, bytes.as_slice())?;
    put(&mut points.keys, slot(kind, id), u64::from(what));
    Ok(())
}

/// From a block on at most 32, within the blocks that are looked at.
fn range(dice: &mut Dice) -> (u32, u32) {
    let start = dice.below(BLOCKS);
    let count = 1 + dice.below(32);
    (start, start.saturating_add(count).min(BLOCKS))
}

fn push_file(
    alloc: Global,
    set: &mut LayerSet<Batch>,
    points: &mut Points,
    dice: &mut Dice,
    step: u32,
) -> Result<(), AllocError> {
    let (start, end) = range(dice);
    let block = if dice.below(4) == 0 {
        0
    } else {
        100 + dice.below(9_000)
    };
    let bytes = file_bytes(alloc, start, end, block, step)?;
    push_spelled(alloc, set, bytes.as_slice())?;
    for i in start..end {
        let sum = u64::from(step) << 32 | u64::from(block.wrapping_add(i.wrapping_sub(start)));
        put(&mut points.file, i, if block == 0 { 0 } else { sum });
    }
    Ok(())
}

fn push_device(
    alloc: Global,
    set: &mut LayerSet<Batch>,
    points: &mut Points,
    dice: &mut Dice,
) -> Result<(), AllocError> {
    let (start, end) = range(dice);
    let is_taken = dice.below(3) > 0;
    let bytes = device_bytes(alloc, start, end, is_taken)?;
    push_spelled(alloc, set, bytes.as_slice())?;
    for i in start..end {
        put(&mut points.device, i, u64::from(is_taken));
    }
    Ok(())
}

fn push_one(
    alloc: Global,
    set: &mut LayerSet<Batch>,
    points: &mut Points,
    dice: &mut Dice,
    step: u32,
) -> Result<(), AllocError> {
    match dice.below(6) {
        0 => push_key(alloc, set, points, dice, 1),
        1 => push_key(alloc, set, points, dice, 2),
        2 => push_key(alloc, set, points, dice, 4),
        3 => push_key(alloc, set, points, dice, 5),
        4 => push_file(alloc, set, points, dice, step),
        _ => push_device(alloc, set, points, dice),
    }
}

/// What a look finds under a key.
fn seen_key(alloc: Global, set: &LayerSet<Batch>, kind: u8, id: u8) -> Result<u64, LookFault> {
    let bytes = item_bytes(alloc, kind, id, 0)?;
    let item = spelled(alloc, bytes.as_slice())?;
    let Some(value) = set.get(alloc, &item.key)? else {
        return Ok(0);
    };
    match value {
        Value::File { length } => Ok(u64::from(length)),
        Value::Attribute { text } => Ok(u64::from(text.as_slice().first().copied().unwrap_or(0))),
        Value::Child { id, .. } => Ok(id),
        Value::Waiting => Ok(1),
        _ => Ok(999),
    }
}

/// What an extent says of a block of the file: its sum, where this names its block.
fn sum_in(item: &Item, block: u32) -> u64 {
    let Key::Extent { start, end, .. } = &item.key else {
        return 0;
    };
    if block < *start || block >= *end {
        return 0;
    }
    let Value::Extent { block: first, sums } = &item.value else {
        return 999;
    };
    let place = block - *start;
    let sum = point(sums.as_slice(), place);
    if sum % (1 << 32) == u64::from(first.wrapping_add(place)) {
        sum
    } else {
        998
    }
}

fn seen_file(alloc: Global, set: &LayerSet<Batch>, block: u32) -> Result<u64, LookFault> {
    let key = Key::Extent {
        store: 1,
        id: 1,
        start: block,
        end: block.saturating_add(1),
    };
    match set.next_from(alloc, &key)? {
        Some(item) => Ok(sum_in(&item, block)),
        None => Ok(0),
    }
}

fn seen_device(alloc: Global, set: &LayerSet<Batch>, block: u32) -> Result<u64, LookFault> {
    let key = Key::Allocation {
        start: block,
        end: block.saturating_add(1),
    };
    let Some(item) = set.next_from(alloc, &key)? else {
        return Ok(0);
    };
    match item.key {
        Key::Allocation { start, end } => Ok(u64::from(start <= block && block < end)),
        _ => Ok(999),
    }
}

fn keys_agree(alloc: Global, set: &LayerSet<Batch>, points: &Points) -> Result<bool, LookFault> {
    for kind in [1, 2, 4, 5] {
        for id in 0..4 {
            if seen_key(alloc, set, kind, id)? != point(&points.keys, slot(kind, id)) {
                return Ok(false);
            }
        }
    }
    Ok(true)
}

fn blocks_agree(alloc: Global, set: &LayerSet<Batch>, points: &Points) -> Result<bool, LookFault> {
    for block in 0..BLOCKS {
        if seen_file(alloc, set, block)? != point(&points.file, block) {
            return Ok(false);
        }
        if seen_device(alloc, set, block)? != point(&points.device, block) {
            return Ok(false);
        }
    }
    Ok(true)
}

fn agree(alloc: Global, set: &LayerSet<Batch>, points: &Points) -> Result<bool, LookFault> {
    Ok(keys_agree(alloc, set, points)? && blocks_agree(alloc, set, points)?)
}

/// One more item, and sometimes one batch, or a layer, in the place of all batches.
fn go_on(
    alloc: Global,
    set: &mut LayerSet<Batch>,
    points: &mut Points,
    dice: &mut Dice,
    step: u32,
) -> Result<(), LookFault> {
    push_one(alloc, set, points, dice, step)?;
    match dice.below(12) {
        0 => tidy_all(alloc, set),
        1 => install_all(alloc, set),
        _ => Ok(()),
    }
}

/// The first step after which a look does not find what stands, also over the snapshot of 50 steps
/// before; or the number of steps.
fn steps_that_agree(alloc: Global, seed: u64) -> Result<u32, LookFault> {
    let mut dice = Dice { state: seed };
    let mut points = Points {
        keys: [0; 24],
        file: [0; 48],
        device: [0; 48],
    };
    let mut set = empty_set(alloc);
    let mut old_points = points;
    let mut old = empty_set(alloc);
    for step in 1..=STEPS {
        go_on(alloc, &mut set, &mut points, &mut dice, step)?;
        if !agree(alloc, &set, &points)? {
            return Ok(step);
        }
        if step % 50 == 0 {
            if !agree(alloc, &old, &old_points)? {
                return Ok(step);
            }
            old = set.snapshot(alloc)?;
            old_points = points;
        }
    }
    Ok(STEPS)
}

#[test]
fn looks_agree_with_a_map_of_points(rt: HostRuntime) -> Result<(), Fail> {
    for seed in [1, 2_024] {
        let steps = steps_that_agree(rt.alloc(), seed).ok().ok_or("no memory")?;
        assert_eq!(rt; steps, STEPS, "from {seed}");
    }
    Ok(())
}
