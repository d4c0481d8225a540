//! What a stop leaves: each image of a run is mounted again, and told which commits it has kept.
use crate::images::{formatted, left_as, left_at, left_by};
use crate::rows::{expect_count, expect_same, halves, number_of, shown};
use crate::runs::{Run, expect, expect_disk, told_failing, told_fresh, told_on};
use fx_disk::Disk;
use fx_disks::{Loose, MemDisk, Pick};
use fxfs::Entry;
use std::alloc::{AllocError, Global};
use std::process::Abort;

/// What `list /` tells of the disk.
fn listed_on(alloc: Global, disk: MemDisk) -> Result<String, AllocError> {
    let run = told_on(alloc, disk, b"list /\n")?;
    shown(alloc, &run.text)
}

/// What `list /` tells of the image that a stop of the disk leaves at a place, `MOMENT | PICKS`.
/// Such an image is left.
fn listed_at(alloc: Global, disk: &MemDisk, place: &str) -> Result<String, AllocError> {
    let (moment, picks) = halves(place, " | ");
    let again = left_as(alloc, disk, number_of(moment), picks)?;
    listed_on(alloc, again)
}

/// What is told where this is listed.
fn list_told(alloc: Global, listed: &str) -> Result<String, AllocError> {
    format!(in alloc; "1 1 list {listed}~")
}

/// Asserts what is told of a row, `MOMENT | PICKS => LISTED`, behind the client and the line.
fn expect_listed(
    rt: &(impl Abort + AllocGlobal),
    disk: &MemDisk,
    row: &str,
) -> Result<(), AllocError> {
    let (place, listed) = halves(row, " => ");
    let told = listed_at(rt.alloc(), disk, place)?;
    let wanted = list_told(rt.alloc(), listed)?;
    expect_same(rt, told.as_str(), wanted.as_str(), row);
    Ok(())
}

/// Asserts what is told of each row.
fn expect_rows(
    rt: &(impl Abort + AllocGlobal),
    disk: &MemDisk,
    rows: &str,
) -> Result<(), AllocError> {
    for row in rows.lines() {
        expect_listed(rt, disk, row)?;
    }
    Ok(())
}

/// The disk after two commits with a sync in between.
fn two_synced_blocks(rt: &(impl Abort + AllocGlobal)) -> Result<MemDisk, AllocError> {
    let run = told_fresh(rt.alloc(), b"mkdir /v\nsync\nmkdir /w\n")?;
    expect_disk(rt, run, "0 6 1 1 ok 1~1 2 synced 1 4~1 3 ok 2~")
}

/// For each moment each of the texts that its loose block may hold, as the call that writes it
/// leaves it, and what is listed then: the number of commits that were kept, and the names.
const LEFT: &str = "\
0 | 1 settled => 0 0
0 | 1 written 1 => 0 0
0 | 1 half 1 => 0 0
0 | 1 zeros => 0 0
1 | 1 settled => 0 0
1 | 1 written 1 => 0 0
1 | 1 half 1 => 0 0
1 | 1 zeros => 0 0
2 | 2 settled => 0 0
2 | 2 written 3 => 1 1 v
2 | 2 half 3 => 0 0
2 | 2 zeros => 0 0
3 | 2 settled => 0 0
3 | 2 written 3 => 1 1 v
3 | 2 half 3 => 0 0
3 | 2 zeros => 0 0
4 | 3 settled => 1 1 v
4 | 3 written 5 => 2 2 v w
4 | 3 half 5 => 1 1 v
4 | 3 zeros => 1 1 v
5 | 3 settled => 1 1 v
5 | 3 written 5 => 2 2 v w
5 | 3 half 5 => 1 1 v
5 | 3 zeros => 1 1 v
6 => 2 2 v w
";

// Calls 1 and 2 mount; the sync is calls 3 and 4, and the end of the shell 5 and 6.
#[test]
fn what_is_left_at_each_moment(rt: HostRuntime) -> Result<(), AllocError> {
    let disk = two_synced_blocks(&rt)?;
    expect_rows(&rt, &disk, LEFT)?;
    expect_count(&rt, LEFT, 25);
    Ok(())
}

/// The disk after two commits, each in a block of its own, of which neither was flushed: the sync
/// in between fails at its flush, call 4, and the shell's end is stopped before its own, call 6.
fn two_loose_blocks(rt: &(impl Abort + AllocGlobal)) -> Result<MemDisk, AllocError> {
    let run = told_failing(rt.alloc(), b"mkdir /a\nsync\nmkdir /b\n", 4)?;
    expect_disk(rt, run, "0 6 1 1 ok 1~1 2 err 1 0 device~1 3 ok 2~")
}

/// What is listed where the first and the second block hold this.
const TORN: &str = "\
5 | 2 settled, 3 settled => 0 0
5 | 2 settled, 3 written 5 => 0 0
5 | 2 settled, 3 half 5 => 0 0
5 | 2 settled, 3 zeros => 0 0
5 | 2 written 3, 3 settled => 1 1 a
5 | 2 written 3, 3 written 5 => 2 2 a b
5 | 2 written 3, 3 half 5 => 1 1 a
5 | 2 written 3, 3 zeros => 1 1 a
5 | 2 half 3, 3 settled => 0 0
5 | 2 half 3, 3 written 5 => 0 0
5 | 2 half 3, 3 half 5 => 0 0
5 | 2 half 3, 3 zeros => 0 0
5 | 2 zeros, 3 settled => 0 0
5 | 2 zeros, 3 written 5 => 0 0
5 | 2 zeros, 3 half 5 => 0 0
5 | 2 zeros, 3 zeros => 0 0
";

#[test]
fn a_block_behind_a_torn_one_is_not_read(rt: HostRuntime) -> Result<(), AllocError> {
    let disk = two_loose_blocks(&rt)?;
    expect_rows(&rt, &disk, TORN)?;
    expect_count(&rt, TORN, 16);
    Ok(())
}

/// The first commit made again on the image that a stop of the disk leaves by these picks.
fn second_run(alloc: Global, disk: &MemDisk, picks: &str) -> Result<Run, AllocError> {
    let again = left_as(alloc, disk, 5, picks)?;
    told_on(alloc, again, b"list /\nmkdir /a\nsync\n")
}

/// Makes the first commit again on an image whose second block alone was written, and gives the
/// disk.
fn second_session(rt: &(impl Abort + AllocGlobal), picks: &str) -> Result<MemDisk, AllocError> {
    let disk = two_loose_blocks(rt)?;
    let run = second_run(rt.alloc(), &disk, picks)?;
    expect_disk(rt, run, "0 5 1 1 list 0 0~1 2 ok 1~1 3 synced 1 4~")
}

/// Asserts that the first commit alone is kept then.
fn expect_first(rt: &(impl Abort + AllocGlobal), picks: &str) -> Result<(), AllocError> {
    let disk = second_session(rt, picks)?;
    expect_listed(rt, &disk, "5 => 1 1 a")
}

/// The second block is of the first session's chain, which the second session's first block breaks.
const EARLIER: &str = "\
2 zeros, 3 written 5
2 half 3, 3 written 5
2 settled, 3 written 5
";

#[test]
fn a_block_of_an_earlier_session_is_not_read(rt: HostRuntime) -> Result<(), AllocError> {
    for picks in EARLIER.lines() {
        expect_first(&rt, picks)?;
    }
    expect_count(&rt, EARLIER, 3);
    Ok(())
}

/// Ten lines with two syncs, and eight commits.
const LINES: &str = "\
mkdir /v
create /v/a
mkdir /w
sync
write /v/a 5 xy
mkdir /v/d
create /w/b
sync
create /v/d/e
mkdir /x
";

/// What is looked at after each stop.
const LOOKS: &[u8] = b"list /\nlist /v\nlist /w\nlist /v/d\nstat /v/a\nstat /w/b\nstat /v/d/e\n";

/// What is told by the looks on the disk.
fn looked(alloc: Global, disk: MemDisk) -> Result<Vec<u8>, AllocError> {
    let run = told_on(alloc, disk, LOOKS)?;
    Ok(run.text)
}

/// What is told by the looks on the disk that the run leaves.
fn looked_behind(alloc: Global, run: &Run) -> Result<Vec<u8>, AllocError> {
    looked(alloc, left_by(alloc, &run.ended.disk)?)
}

/// What is told by the looks after the script, on a disk of its own that was mounted again.
fn told_after(alloc: Global, script: &str) -> Result<Vec<u8>, AllocError> {
    let run = told_fresh(alloc, script.as_bytes())?;
    looked_behind(alloc, &run)
}

/// What is told by the looks after each front of the lines.
fn told_by_fronts(alloc: Global) -> Result<Vec<Vec<u8>>, AllocError> {
    let mut told = Vec::new(alloc);
    let mut script = String::new(alloc);
    told.push(looked(alloc, formatted(alloc)?)?)?;
    for line in LINES.lines() {
        script.push_str(line)?;
        script.push_str("\n")?;
        told.push(told_after(alloc, script.as_str())?)?;
    }
    Ok(told)
}

/// The number of the last commit that a flush had settled by this moment.
fn settled_by(history: &[Entry], moment: u64) -> u64 {
    let mut last = 0;
    for entry in history {
        if 0 < entry.settled && entry.settled <= moment {
            last = entry.number;
        }
    }
    last
}

/// What may be left in a loose block, by a number: its settled bytes, zeros, and then for each call
/// all and half of what it wrote.
fn loose_by(number: u64) -> Loose {
    let call = number / 2;
    match (call, number % 2) {
        (0, 0) => Loose::Settled,
        (0, _) => Loose::Zeros,
        (_, 0) => Loose::Written(call),
        _ => Loose::Half(call),
    }
}

/// Appends the images that a stop at this moment may leave by a pick of this block: its settled
/// bytes, zeros, and each write by the call after the moment.
fn push_images(
    alloc: Global,
    images: &mut Vec<MemDisk>,
    disk: &MemDisk,
    moment: u64,
    block: u32,
) -> Result<(), AllocError> {
    for number in 0..moment.saturating_add(2).saturating_mul(2) {
        let loose = loose_by(number);
        if let Some(again) = left_at(alloc, disk, moment, &[Pick { block, loose }])? {
            images.push(again)?;
        }
    }
    Ok(())
}

/// The images that a stop at this moment may leave in which at most one loose block, of the first
/// eight, has other bytes than its settled ones.
fn images_at(alloc: Global, disk: &MemDisk, moment: u64) -> Result<Vec<MemDisk>, AllocError> {
    let mut images = Vec::new(alloc);
    for block in 0..8 {
        push_images(alloc, &mut images, disk, moment, block)?;
    }
    if images.is_empty() {
        images.push(left_as(alloc, disk, moment, "")?)?;
    }
    Ok(images)
}

/// Looks at an image, which has kept a front of the lines with `least` commits or more.
fn look(
    rt: &(impl Abort + AllocGlobal),
    disk: MemDisk,
    least: u64,
    fronts: &[Vec<u8>],
) -> Result<Run, AllocError> {
    let run = told_on(rt.alloc(), disk, LOOKS)?;
    assert_eq!(rt; run.ended.status, 0);
    assert!(rt; fronts.contains(&run.text));
    assert!(rt; least <= run.ended.base);
    Ok(run)
}

/// Looks at an image, of which this is told.
fn expect_looked(
    rt: &(impl Abort + AllocGlobal),
    disk: MemDisk,
    text: &[u8],
    moment: u64,
) -> Result<(), AllocError> {
    let told = looked(rt.alloc(), disk)?;
    assert_eq!(rt; told.as_slice(), text, "at {moment}");
    Ok(())
}

/// Looks at each image that a stop of a look at this moment may leave, which has kept the same.
/// Gives how many there are.
fn look_again_at(
    rt: &(impl Abort + AllocGlobal),
    run: &Run,
    moment: u64,
) -> Result<u64, AllocError> {
    let mut count = 0u64;
    for disk in images_at(rt.alloc(), &run.ended.disk, moment)? {
        expect_looked(rt, disk, run.text.as_slice(), moment)?;
        count = count.saturating_add(1);
    }
    Ok(count)
}

/// Looks at each image that a stop of a look may leave. Gives how many there are.
fn look_again(rt: &(impl Abort + AllocGlobal), run: &Run) -> Result<u64, AllocError> {
    let mut count = 0u64;
    for moment in 0..run.ended.disk.calls().saturating_add(1) {
        count = count.saturating_add(look_again_at(rt, run, moment)?);
    }
    Ok(count)
}

/// Looks at an image, and at each that a stop of the look may leave. Gives how many these are.
fn look_twice(
    rt: &(impl Abort + AllocGlobal),
    disk: MemDisk,
    least: u64,
    fronts: &[Vec<u8>],
) -> Result<u64, AllocError> {
    let run = look(rt, disk, least, fronts)?;
    look_again(rt, &run)
}

/// Looks at each image that a stop at this moment may leave, and again. Gives how many images there
/// were, and how many in the looks.
fn look_at(
    rt: &(impl Abort + AllocGlobal),
    run: &Run,
    moment: u64,
    fronts: &[Vec<u8>],
) -> Result<(u64, u64), AllocError> {
    let least = settled_by(run.ended.history.as_slice(), moment);
    let mut images = 0u64;
    let mut again = 0u64;
    for disk in images_at(rt.alloc(), &run.ended.disk, moment)? {
        images = images.saturating_add(1);
        again = again.saturating_add(look_twice(rt, disk, least, fronts)?);
    }
    Ok((images, again))
}

/// Asserts how many images there were at this moment, and in the looks.
fn expect_looks(
    rt: &(impl Abort + AllocGlobal),
    run: &Run,
    moment: u64,
    fronts: &[Vec<u8>],
    wanted: (u64, u64),
) -> Result<(), AllocError> {
    let looks = look_at(rt, run, moment, fronts)?;
    assert_eq!(rt; looks, wanted, "at {moment}");
    Ok(())
}

// At eight of the nine moments one block is loose, which holds one of four texts. A look makes
// three calls, at two of whose moments one is, so it leaves ten images.
fn look_at_each(
    rt: &(impl Abort + AllocGlobal),
    run: &Run,
    fronts: &[Vec<u8>],
) -> Result<(), AllocError> {
    for moment in 0..8 {
        expect_looks(rt, run, moment, fronts, (4, 40))?;
    }
    expect_looks(rt, run, 8, fronts, (1, 10))
}

#[test]
fn every_stop_keeps_a_front_of_the_lines(rt: HostRuntime) -> Result<(), AllocError> {
    let fronts = told_by_fronts(rt.alloc())?;
    let run = told_fresh(rt.alloc(), LINES.as_bytes())?;
    look_at_each(&rt, &run, &fronts)?;
    assert_eq!(rt; run.ended.disk.calls(), 8);
    Ok(())
}

/// For each call of the disk that fails: how many images are left by the last call, and the status,
/// the calls and what is told.
const FAILING: &str = "\
0 | 1 => 0 8 1 1 ok 1~1 2 ok 2~1 3 ok 3~1 4 synced 3 4~1 5 ok 4~1 6 ok 5~1 7 ok 6~1 8 synced 6 6~1 9 ok 7~1 10 ok 8~
3 | 1 => 0 8 1 1 ok 1~1 2 ok 2~1 3 ok 3~1 4 err 3 0 device~1 5 ok 4~1 6 ok 5~1 7 ok 6~1 8 synced 6 6~1 9 ok 7~1 10 ok 8~
4 | 1 => 0 8 1 1 ok 1~1 2 ok 2~1 3 ok 3~1 4 err 3 0 device~1 5 ok 4~1 6 ok 5~1 7 ok 6~1 8 synced 6 6~1 9 ok 7~1 10 ok 8~
5 | 1 => 0 8 1 1 ok 1~1 2 ok 2~1 3 ok 3~1 4 synced 3 4~1 5 ok 4~1 6 ok 5~1 7 ok 6~1 8 err 6 0 device~1 9 ok 7~1 10 ok 8~
6 | 1 => 0 8 1 1 ok 1~1 2 ok 2~1 3 ok 3~1 4 synced 3 4~1 5 ok 4~1 6 ok 5~1 7 ok 6~1 8 err 6 0 device~1 9 ok 7~1 10 ok 8~
7 | 4 => 4 7 1 1 ok 1~1 2 ok 2~1 3 ok 3~1 4 synced 3 4~1 5 ok 4~1 6 ok 5~1 7 ok 6~1 8 synced 6 6~1 9 ok 7~1 10 ok 8~stop 4 device~
8 | 4 => 4 8 1 1 ok 1~1 2 ok 2~1 3 ok 3~1 4 synced 3 4~1 5 ok 4~1 6 ok 5~1 7 ok 6~1 8 synced 6 6~1 9 ok 7~1 10 ok 8~stop 4 device~
";

/// Runs the lines where this call fails, and asserts how they end.
fn failing_run(
    rt: &(impl Abort + AllocGlobal),
    call: u64,
    wanted: &str,
) -> Result<Run, AllocError> {
    let run = told_failing(rt.alloc(), LINES.as_bytes(), call)?;
    expect(rt, &run, wanted)?;
    Ok(run)
}

/// Asserts how many images are left by the last call of the run, and looks at each.
fn expect_left(
    rt: &(impl Abort + AllocGlobal),
    run: &Run,
    fronts: &[Vec<u8>],
    wanted: u64,
) -> Result<(), AllocError> {
    let (left, _) = look_at(rt, run, run.ended.disk.calls(), fronts)?;
    assert_eq!(rt; left, wanted);
    Ok(())
}

/// Checks a row of these.
fn check_failing(
    rt: &(impl Abort + AllocGlobal),
    row: &str,
    fronts: &[Vec<u8>],
) -> Result<(), AllocError> {
    let (head, wanted) = halves(row, " => ");
    let (call, images) = halves(head, " | ");
    let run = failing_run(rt, number_of(call), wanted)?;
    expect_left(rt, &run, fronts, number_of(images))
}

// Where the shell's own sync fails one block is loose at the end, which holds one of four texts.
#[test]
fn each_call_fails_in_turn(rt: HostRuntime) -> Result<(), AllocError> {
    let fronts = told_by_fronts(rt.alloc())?;
    for row in FAILING.lines() {
        check_failing(&rt, row, &fronts)?;
    }
    expect_count(&rt, FAILING, 7);
    Ok(())
}
