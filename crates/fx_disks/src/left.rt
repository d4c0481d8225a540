//! What a stop leaves in each block, as it is picked.
ghost use Rattle.std.specs.Prelude.{◌≡◌, ◌↔◌, ℕ, false, ◌+◌, ◌-◌, ◌<◌, ◌≤◌, IsTrue, IfOk, IfSome, IsSome, Option, None, Some, [], map, length, replicate, slice_index_or, slice_set, take, drop, ◌++◌};
ghost use Rattle.fx_disk.specs.Record.{Left};
ghost use Rattle.fx_disk.specs.Loose.{IsWriteOf};
ghost use Rattle.fx_disk.specs.Steps.{IsRecordOf};
ghost use Rattle.fx_disks.specs.Calls.{call_of, bytes_by, record_from};
ghost use Rattle.fx_disks.specs.Tracks.{settled_number, fresh, TrackedAt};
ghost use Rattle.fx_base.specs.Blocks.{zero_bytes};
ghost use Rattle.fx_disks.specs.Picks.{CanBeLeft, Wrote, ArePicks, IsImageOf};
ghost use Rattle.fx_disks.specs.Left.{bytes_of_choice, Chooses, AreChosen, AreNoPicks, HoldsChoices};

use crate::call::Made;
use crate::pick::{HALF_BYTES, Loose, Pick};
use crate::track::{Track, follow};
use fx_base::{BLOCK_BYTES, zero_block};
use std::alloc::{AllocError, Global};

/// The bytes that the write with this number put into the block, or those at entry where there is
/// no such write.
pub fn bytes_by<'a>(
    entry: &'a [[u8; BLOCK_BYTES]],
    calls: &'a [Made],
    block: usize,
    number: u64,
) -> &'a [u8; BLOCK_BYTES]
    requires { block < length entry.now }
    ensures { result.now ≡ bytes_by entry.now (map call_of calls.now) block number }
{
    if number == 0 || number - 1 >= calls.len() as u64 {
        return &entry[block];
    }
    calls[number as usize - 1].bytes_or(&entry[block])
}

// Whether the call with this number wrote the block by call `moment + 1`.
fn wrote(calls: &[Made], moment: u64, number: u64, block: u32) -> bool
    ensures { IsTrue result ↔ Wrote (map call_of calls.now) moment block number }
{
    if number == 0 || number - 1 > moment {
        return false;
    }
    if number - 1 >= calls.len() as u64 {
        return false;
    }
    calls[number as usize - 1].is_write_of(block)
}

fn can_be_left(calls: &[Made], moment: u64, pick: &Pick) -> bool
    ensures { IsTrue result
        ↔ CanBeLeft (map call_of calls.now) moment pick.now.block pick.now.loose }
{
    match pick.loose {
        Loose::Settled | Loose::Zeros => true,
        Loose::Written(number) | Loose::Half(number) => wrote(calls, moment, number, pick.block),
    }
}

// Makes the pick the choice of its block, where it is one more pick.
fn choose(
    chosen: &mut Vec<Option<Loose>>,
    tracks: &[Track],
    flushed: u64,
    calls: &[Made],
    moment: u64,
    pick: &Pick,
) -> bool
    requires tracked { TrackedAt (map call_of calls.now) moment flushed tracks.now }
    requires len { length tracks.now ≡ length chosen.old.items }
    ensures len { length chosen.new.items ≡ length chosen.old.items }
    ensures chooses { Chooses (map call_of calls.now) moment chosen.old.items chosen.new.items
        pick.now result }
{
    let block = pick.block as usize;
    if block >= chosen.len() {
        return false;
    }
    if tracks[block].is_fixed(flushed) {
        return false;
    }
    if chosen[block].is_some() {
        return false;
    }
    if !can_be_left(calls, moment, pick) {
        return false;
    }
    chosen[block] = Some(pick.loose);
    true
}

// The first half of the written bytes, and then of the settled ones the second.
fn half_of(written: &[u8; BLOCK_BYTES], settled: &[u8; BLOCK_BYTES]) -> [u8; BLOCK_BYTES]
    ensures { result ≡ take HALF_BYTES written.now ++ drop HALF_BYTES settled.now }
{
    let mut bytes = *settled;
    bytes[..HALF_BYTES].copy_from_slice(&written[..HALF_BYTES]);
    bytes
}

/// What is left in a block by a choice, `settled` being the write whose bytes are its settled ones.
fn left_in(
    entry: &[[u8; BLOCK_BYTES]],
    calls: &[Made],
    block: usize,
    settled: u64,
    choice: Option<Loose>,
) -> [u8; BLOCK_BYTES]
    requires { block < length entry.now }
    ensures { result ≡ bytes_of_choice entry.now (map call_of calls.now) block settled choice }
{
    match choice {
        None | Some(Loose::Settled) => *bytes_by(entry, calls, block, settled),
        Some(Loose::Written(number)) => *bytes_by(entry, calls, block, number),
        Some(Loose::Half(number)) => half_of(
            bytes_by(entry, calls, block, number),
            bytes_by(entry, calls, block, settled),
        ),
        Some(Loose::Zeros) => zero_block(),
    }
}

// The choices of the picks, or none where they are not picks.
fn choose_all(
    chosen: &mut Vec<Option<Loose>>,
    tracks: &[Track],
    flushed: u64,
    calls: &[Made],
    moment: u64,
    picks: &[Pick],
) -> bool
    requires tracked { TrackedAt (map call_of calls.now) moment flushed tracks.now }
    requires len { length tracks.now ≡ length chosen.old.items }
    requires none { chosen.old.items ≡ replicate (length tracks.now) None }
    requires moment { moment ≤ length calls.now }
    ensures len { length chosen.new.items ≡ length chosen.old.items }
    ensures are_picks { IsTrue result →
        AreChosen (map call_of calls.now) moment chosen.new.items picks.now }
    ensures refused { result ≡ false →
        AreNoPicks (map call_of calls.now) moment (length tracks.now) picks.now }
{
    for pick in picks {
        if !choose(chosen, tracks, flushed, calls, moment, pick) {
            return false;
        }
    }
    true
}

// The blocks of the image of these choices.
fn left_blocks(
    alloc: Global,
    entry: &[[u8; BLOCK_BYTES]],
    calls: &[Made],
    tracks: &[Track],
    flushed: u64,
    chosen: &[Option<Loose>],
) -> Result<Vec<[u8; BLOCK_BYTES]>, AllocError>
    requires tracks { length tracks.now ≡ length entry.now }
    requires chosen { length chosen.now ≡ length entry.now }
    ensures { IfOk result
        (λ v. HoldsChoices entry.now (map call_of calls.now) tracks.now flushed chosen.now v.items
        (length entry.now)) }
{
    let mut blocks = Vec::with_capacity(alloc, entry.len())?;
    for block in 0..entry.len() {
        let settled = tracks[block].settled_number(flushed);
        blocks.push(left_in(entry, calls, block, settled, chosen[block]))?;
    }
    Ok(blocks)
}

/// The blocks of the image of the picks at the moment, or none where they are no picks.
pub fn picked_blocks(
    alloc: Global,
    entry: &[[u8; BLOCK_BYTES]],
    calls: &[Made],
    moment: u64,
    picks: &[Pick],
) -> Result<Option<Vec<[u8; BLOCK_BYTES]>>, AllocError>
    requires record { IsRecordOf (length entry.now) (length (map call_of calls.now))
        (record_from entry.now (map call_of calls.now)) }
    requires moment { moment ≤ length calls.now }
    ensures picks { IfOk result
        (λ o. IsSome o ↔ ArePicks (record_from entry.now (map call_of calls.now)) moment
        picks.now) }
    ensures image { IfOk result
        (λ o. IfSome o (λ v. IsImageOf (record_from entry.now (map call_of calls.now)) moment
        picks.now v.items)) }
    ensures left { IfOk result
        (λ o. IfSome o (λ v. Left (record_from entry.now (map call_of calls.now)) moment v.items)) }
{
    let mut tracks = Vec::new(alloc);
    tracks.resize(entry.len(), Track::fresh())?;
    let flushed = follow(&mut tracks, calls, moment as usize);
    let mut chosen = Vec::new(alloc);
    chosen.resize(entry.len(), None)?;
    if !choose_all(&mut chosen, &tracks, flushed, calls, moment, picks) {
        return Ok(None);
    }
    let blocks = left_blocks(alloc, entry, calls, &tracks, flushed, &chosen)?;
    Ok(Some(blocks))
}
