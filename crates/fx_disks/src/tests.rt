ghost use Rattle.std.specs.Prelude.{◌<◌, is_ok};
ghost use Rattle.fx_disk.specs.Seen.{HasCalled};

use super::*;
use fx_disk::{BLOCK_BYTES, Disk, DiskFailed};
use std::alloc::{AllocError, Global};
use std::fs::{self, File, Files, OpenOptions};
use std::process::Abort;
use std::test::Fail;

// A block of one byte all over.
fn block(byte: u8) -> [u8; BLOCK_BYTES] {
    [byte; BLOCK_BYTES]
}

fn may_be_sent<T: Send + Drop>(_value: T) {}

// The first and the last byte of each block of the image, or nothing where there is none.
fn ends(alloc: Global, image: Option<Image>) -> Result<Vec<(u8, u8)>, AllocError> {
    let mut all = Vec::new(alloc);
    if let Some(image) = image {
        for block in image.blocks() {
            all.push((block[0], block[4095]))?;
        }
    }
    Ok(all)
}

// Asks for a write and a flush through the trait, and counts the answers that were Ok.
fn ask<D: Disk>(disk: &mut D, byte: u8) -> u8 {
    let mut good = 0;
    if disk.blocks() > 0 && disk.write(0, &block(byte)).is_ok() {
        good += 1;
    }
    if disk.flush().is_ok() {
        good += 1;
    }
    good
}

fn picked(block: u32, loose: Loose) -> Pick {
    Pick { block, loose }
}

/// A disk with these blocks.
fn disk_of(alloc: Global, blocks: Vec<[u8; BLOCK_BYTES]>) -> Option<MemDisk> {
    if blocks.len() > 3 {
        return None;
    }
    Some(MemDisk::from_image(alloc, Image::from_blocks(blocks)))
}

/// A disk whose blocks 0 to 2 begin as 1, 2 and 3, and whose calls 4 and 5 fail.
fn begun(alloc: Global) -> Result<Option<MemDisk>, AllocError> {
    let mut blocks = Vec::new(alloc);
    for byte in 1..4 {
        blocks.push(block(byte))?;
    }
    let Some(mut disk) = disk_of(alloc, blocks) else {
        return Ok(None);
    };
    disk.fail_calls([5, 4].to_vec(alloc)?);
    Ok(Some(disk))
}

/// Asks for a write, where the disk has the block.
fn put<D: Disk>(disk: &mut D, at: u32, byte: u8) {
    if at < disk.blocks() {
        let _ = disk.write(at, &block(byte));
    }
}

/// Asks for a flush.
fn flush<D: Disk>(disk: &mut D) {
    let _ = disk.flush();
}

// Calls: 1 writes 11 to block 0; 2 flushes; 3 writes 12 to block 0; 4 fails to write 22 to block 1;
// 5 fails to flush; 6 flushes; 7 writes 13 to block 0.
fn written(alloc: Global) -> Result<Option<MemDisk>, AllocError> {
    let Some(mut disk) = begun(alloc)? else {
        return Ok(None);
    };
    put(&mut disk, 0, 11);
    flush(&mut disk);
    put(&mut disk, 0, 12);
    put(&mut disk, 1, 22);
    flush(&mut disk);
    flush(&mut disk);
    put(&mut disk, 0, 13);
    Ok(Some(disk))
}

/// A moment, a pick, and the first and the last byte of blocks 0 and 1 of the image.
type Row = (u64, Pick, (u8, u8), (u8, u8));

/// The images of the first two calls.
fn images_before_the_second_write() -> [Row; 6] {
    [
        // before the first call, and within it
        (0, picked(0, Loose::Settled), (1, 1), (2, 2)),
        (0, picked(0, Loose::Written(1)), (11, 11), (2, 2)),
        (0, picked(0, Loose::Half(1)), (11, 1), (2, 2)),
        (0, picked(0, Loose::Zeros), (0, 0), (2, 2)),
        // before the good flush is done the first write is loose, and then it is settled
        (1, picked(0, Loose::Settled), (1, 1), (2, 2)),
        (2, picked(0, Loose::Settled), (11, 11), (2, 2)),
    ]
}

/// The images of the calls behind them.
fn images_behind() -> [Row; 9] {
    [
        (2, picked(0, Loose::Written(3)), (12, 12), (2, 2)),
        // after the failed flush, with the failed write
        (5, picked(0, Loose::Written(1)), (11, 11), (2, 2)),
        (5, picked(0, Loose::Half(3)), (12, 11), (2, 2)),
        (5, picked(1, Loose::Written(4)), (11, 11), (22, 22)),
        (5, picked(1, Loose::Half(4)), (11, 11), (22, 2)),
        // after the good flush the failed write is loose still
        (6, picked(1, Loose::Half(4)), (12, 12), (22, 2)),
        (6, picked(1, Loose::Zeros), (12, 12), (0, 0)),
        (7, picked(0, Loose::Written(7)), (13, 13), (2, 2)),
        (7, picked(0, Loose::Half(3)), (12, 12), (2, 2)),
    ]
}

/// Moments and picks of which there is no image.
fn refused() -> [(u64, Pick); 8] {
    [
        (8, picked(0, Loose::Settled)),
        (7, picked(3, Loose::Settled)),
        (7, picked(2, Loose::Zeros)),
        (3, picked(1, Loose::Written(3))),
        (2, picked(0, Loose::Written(7))),
        (7, picked(0, Loose::Written(0))),
        (7, picked(0, Loose::Written(8))),
        (7, picked(0, Loose::Half(6))),
    ]
}

/// Asserts the image of each row.
fn expect_images(
    rt: &(impl Abort + AllocGlobal),
    disk: &MemDisk,
    rows: &[Row],
) -> Result<(), AllocError> {
    for (moment, pick, first, second) in rows {
        let image = disk.image_at(rt.alloc(), *moment, [*pick].as_slice())?;
        let got = ends(rt.alloc(), image)?;
        assert_eq!(rt;
            got.as_slice(),
            [*first, *second, (3, 3)].as_slice(),
            "{moment} {pick:?}"
        );
    }
    Ok(())
}

/// Asserts that each row has no image.
fn expect_refused(rt: &(impl Abort + AllocGlobal), disk: &MemDisk) -> Result<(), AllocError> {
    for (moment, pick) in refused() {
        let image = disk.image_at(rt.alloc(), moment, [pick].as_slice())?;
        assert!(rt; image.is_none(), "{moment} {pick:?}");
    }
    Ok(())
}

/// Asserts that a block is not picked twice, and that two are picked in any order.
fn expect_pairs(rt: &(impl Abort + AllocGlobal), disk: &MemDisk) -> Result<(), AllocError> {
    let twice = [picked(0, Loose::Settled), picked(0, Loose::Zeros)];
    assert!(rt; disk.image_at(rt.alloc(), 7, twice.as_slice())?.is_none());
    let both = [picked(1, Loose::Zeros), picked(0, Loose::Zeros)];
    let got = ends(rt.alloc(), disk.image_at(rt.alloc(), 7, both.as_slice())?)?;
    assert_eq!(rt; got.as_slice(), [(0, 0), (0, 0), (3, 3)].as_slice());
    Ok(())
}

/// Asserts what images there are, and what none.
fn expect_all(rt: &(impl Abort + AllocGlobal), disk: &MemDisk) -> Result<(), AllocError> {
    expect_images(rt, disk, &images_before_the_second_write())?;
    expect_images(rt, disk, &images_behind())?;
    expect_refused(rt, disk)?;
    expect_pairs(rt, disk)
}

#[test]
fn gives_every_image(rt: HostRuntime) -> Result<(), Fail> {
    let disk = written(rt.alloc())?.ok_or("made")?;
    assert_eq!(rt; (disk.calls(), disk.faults(), disk.starved()), (7, 2, 0));
    expect_all(&rt, &disk)?;
    may_be_sent(disk);
    Ok(())
}

/// Reads a block, if the disk has it.
fn read<D: Disk>(disk: &mut D, at: u32, into: &mut [u8; BLOCK_BYTES]) -> Result<(), DiskFailed> {
    if at < disk.blocks() {
        disk.read(at, into)
    } else {
        Err(DiskFailed)
    }
}

#[test]
fn fails_by_number(rt: HostRuntime) -> Result<(), Fail> {
    let mut disk = MemDisk::new(rt.alloc(), 2)?;
    disk.fail_calls([2, 3].to_vec(rt.alloc())?);
    disk.fail_reads([2].to_vec(rt.alloc())?);
    assert_eq!(rt; disk.blocks(), 2);
    assert_eq!(rt; ask(&mut disk, 5), 1);
    assert_eq!(rt; ask(&mut disk, 6), 1);
    let mut into = block(9);
    let answers = [
        read(&mut disk, 0, &mut into),
        read(&mut disk, 0, &mut into),
        read(&mut disk, 1, &mut into),
    ];
    assert_eq!(rt; answers, [Ok(()), Err(DiskFailed), Ok(())]);
    assert_eq!(rt; into[7], 0);
    assert_eq!(rt; read(&mut disk, 0, &mut into), Ok(()));
    assert_eq!(rt; into[7], 5);
    assert_eq!(rt;
        (disk.calls(), disk.reads(), disk.faults(), disk.starved()),
        (4, 4, 3, 0)
    );
    Ok(())
}

/// The first and the last byte of a block, as it is read from the disk.
fn bytes_at<D: Disk>(disk: &mut D, at: u32) -> Result<(u8, u8), DiskFailed> {
    let mut into = block(0);
    read(disk, at, &mut into)?;
    Ok((into[0], into[4095]))
}

/// Makes a file of so many bytes, each 7.
fn make_file(rt: &(impl Files + AllocGlobal), path: &str, len: usize) -> Result<(), Fail> {
    let bytes = vec![in rt.alloc(); 7u8; len]?;
    fs::write(rt, path, bytes.as_slice())?;
    Ok(())
}

fn expect_written(
    rt: &(impl Abort + Files<File = File> + AllocGlobal),
    path: &str,
) -> Result<(), Fail> {
    let mut disk = FileDisk::on(rt, path)?;
    assert_eq!(rt; disk.blocks(), 2);
    assert_eq!(rt; ask(&mut disk, 5), 2);
    may_be_sent(disk);
    Ok(())
}

fn expect_read(
    rt: &(impl Abort + Files<File = File> + AllocGlobal),
    path: &str,
) -> Result<(), Fail> {
    let mut again = FileDisk::on(rt, path)?;
    assert_eq!(rt; again.blocks(), 2);
    assert_eq!(rt; bytes_at(&mut again, 0), Ok((5, 5)));
    assert_eq!(rt; bytes_at(&mut again, 1), Ok((7, 7)));
    // cut short behind the disk's back
    make_file(rt, path, 4095)?;
    assert_eq!(rt; bytes_at(&mut again, 0), Err(DiskFailed));
    assert_eq!(rt; (again.calls(), again.reads(), again.faults()), (0, 3, 1));
    Ok(())
}

#[test]
fn keeps_a_file(rt: HostRuntime) -> Result<(), Fail> {
    let path = "disk.img";
    make_file(&rt, path, 9000)?;
    expect_written(&rt, path)?;
    expect_read(&rt, path)?;
    assert_eq!(rt; FileDisk::on(&rt, path)?.blocks(), 0);
    fs::remove_file(&rt, path)?;
    assert!(rt; FileDisk::on(&rt, path).is_err());
    // a file that cannot be written to
    assert!(rt; FileDisk::on(&rt, "/proc/version").is_err());
    Ok(())
}

#[test]
fn holds_a_file_alone(rt: HostRuntime) -> Result<(), Fail> {
    let path = "held.img";
    make_file(&rt, path, 9000)?;
    let first = FileDisk::on(&rt, path)?;
    assert!(rt; FileDisk::on(&rt, path).is_err());
    assert!(rt; FileDisk::to_read(&rt, path).is_err());
    drop(first);
    let reader = FileDisk::to_read(&rt, path)?;
    let second = FileDisk::to_read(&rt, path)?;
    assert!(rt; FileDisk::on(&rt, path).is_err());
    drop(reader);
    drop(second);
    assert!(rt; FileDisk::on(&rt, path).is_ok());
    fs::remove_file(&rt, path)?;
    Ok(())
}

#[test]
fn only_reads_where_it_was_opened_to_read(rt: HostRuntime) -> Result<(), Fail> {
    let path = "read.img";
    make_file(&rt, path, 9000)?;
    let mut disk = FileDisk::to_read(&rt, path)?;
    assert_eq!(rt; ask(&mut disk, 5), 0);
    assert_eq!(rt; bytes_at(&mut disk, 0), Ok((7, 7)));
    assert_eq!(rt; (disk.calls(), disk.reads(), disk.faults()), (0, 1, 2));
    drop(disk);
    fs::remove_file(&rt, path)?;
    Ok(())
}

#[test]
fn writes_nothing_after_a_failed_sync(rt: HostRuntime) -> Result<(), Fail> {
    // a device that takes and gives any bytes, and cannot be synced
    let path = "/dev/zero";
    assert!(rt; FileDisk::on(&rt, path).is_err());
    let file = OpenOptions::new().read(true).write(true).open(&rt, path)?;
    let mut disk = FileDisk::over(file, 8192, true);
    assert_eq!(rt; ask(&mut disk, 5), 1);
    assert_eq!(rt; (disk.calls(), disk.faults()), (2, 1));
    assert_eq!(rt; ask(&mut disk, 5), 0);
    assert_eq!(rt; (disk.calls(), disk.faults()), (2, 3));
    assert_eq!(rt; bytes_at(&mut disk, 1), Ok((0, 0)));
    assert_eq!(rt; (disk.reads(), disk.faults()), (1, 3));
    Ok(())
}

/// Writes a block and flushes.
#[tactic(auto, using(fx_disk::proofs::Frames::write_called, fx_disk::proofs::Frames::flush_called, fx_disk::proofs::Frames::called_then))]
fn write_through<D: Disk>(
    disk: &mut D,
    at: u32,
    bytes: &[u8; BLOCK_BYTES],
) -> Result<(), DiskFailed>
    requires { at < (D.seen disk.old).size }
    ensures disk { HasCalled (D.seen disk.old) (D.seen disk.new) (is_ok result) }
{
    let Ok(()) = disk.write(at, bytes) else {
        return Err(DiskFailed);
    };
    disk.flush()
}

#[test]
fn stops_at_the_first_failure(rt: HostRuntime) -> Result<(), Fail> {
    let mut disk = MemDisk::new(rt.alloc(), 2)?;
    disk.fail_calls([3].to_vec(rt.alloc())?);
    if disk.blocks() > 1 {
        assert_eq!(rt; write_through(&mut disk, 1, &block(5)), Ok(()));
        assert_eq!(rt; write_through(&mut disk, 0, &block(6)), Err(DiskFailed));
    }
    assert_eq!(rt; (disk.calls(), disk.faults()), (3, 1));
    Ok(())
}
