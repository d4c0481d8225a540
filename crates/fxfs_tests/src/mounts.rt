//! Lines on a mounted disk, over mounts.
use fx_disk::Disk;
use fx_disks::MemDisk;
use fx_history::{Outcome, result_text};
use fx_item::Bytes;
use fx_mount::{mkfs, mount};
use fx_script::{Tasks, read_script};
use fx_store::Store;
use std::alloc::Global;
use std::test::Fail;

/// The fewest blocks of a disk with a ring of 256 blocks.
const BLOCKS: u32 = 1_088;

/// Lines and how they end. The disk is mounted before the first one, and again at each empty line:
/// the format makes 260 calls, a mount two, and a sync one for each block that waits and one more.
const ROWS: &str = "mkdir /v => ok 1
create /v/a => ok 2
write /v/a 0 hi => ok 3
read /v/a 0 9 => read 3 2 hi
mkdir /v => err 3 1 exists
write /v 0 x => err 3 1 isdir
sync => synced 3 264
sync => synced 3 265
mkdir /v/lost => ok 4

list /v => list 3 1 a
stat /v/a => stat 3 file 0 0
mkdir /v/d => ok 4
create /v/d/e => ok 5
mkdir /w => ok 6
sync => synced 6 269

list / => list 6 2 v w
list /v => list 6 2 a d
stat /v/d/e => stat 6 file 0 0
write /v/d/e 3 x => ok 7
read /v/d/e 3 1 => read 7 1 x
";

/// Formats the disk, or says that it could not.
fn is_formatted<D: Disk>(disk: &mut D) -> bool {
    mkfs(disk, 256).is_ok()
}

/// The disk mounted, if it could be.
fn mounted<D: Disk + Drop>(alloc: Global, disk: D) -> Option<Store<D>> {
    mount(alloc, disk).ok()
}

/// The disk that was mounted.
fn unmounted<D: Disk>(store: Store<D>) -> D {
    store.end().disk
}

/// How the first line of the script ends on the store.
fn outcome_of<D: Disk>(alloc: Global, store: &mut Store<D>, tasks: &Tasks) -> Option<Outcome> {
    let line = tasks.lines().next()?;
    let Ok(task) = line.task(alloc) else {
        return None;
    };
    Some(store.exec(alloc, task))
}

/// What is told of the line.
fn told_of<D: Disk>(alloc: Global, store: &mut Store<D>, words: &str) -> Result<String, Fail> {
    let script = Bytes::new(Vec::from_slice(alloc, words.as_bytes())?);
    let Ok(tasks) = read_script(script, false) else {
        return Err(Fail::from("not a line"));
    };
    if tasks.len() != 1 {
        return Err(Fail::from("not one line"));
    }
    let Some(outcome) = outcome_of(alloc, store, &tasks) else {
        return Err(Fail::from("no line"));
    };
    Ok(result_text(alloc, &tasks, &[outcome])?)
}

/// The rows as the lines of them end on the store.
fn ends<D: Disk>(alloc: Global, store: &mut Store<D>, rows: &str) -> Result<String, Fail> {
    let mut text = String::new(alloc);
    for row in rows.lines() {
        let (words, _) = row.split_once(" => ").unwrap_or((row, ""));
        let told = told_of(alloc, store, words)?;
        let end = told.as_str().trim_start_matches("1 1 ");
        write!(text, "{words} => {end}")?;
    }
    Ok(text)
}

/// The rows as they end on the disk, which is mounted for them, and the disk behind them.
fn session<D: Disk + Drop>(alloc: Global, disk: D, rows: &str) -> Result<(String, D), Fail> {
    let Some(mut store) = mounted(alloc, disk) else {
        return Err(Fail::from("not mounted"));
    };
    let text = ends(alloc, &mut store, rows);
    let disk = unmounted(store);
    Ok((text?, disk))
}

#[test]
fn lines_over_mounts(rt: HostRuntime) -> Result<(), Fail> {
    let alloc = rt.alloc();
    let mut disk = MemDisk::new(alloc, BLOCKS)?;
    if !is_formatted(&mut disk) {
        return Err(Fail::from("not formatted"));
    }
    for rows in ROWS.split("\n\n") {
        let (text, left) = session(alloc, disk, rows)?;
        disk = left;
        assert_eq!(rt; text.as_str().trim_end(), rows.trim_end());
    }
    Ok(())
}
