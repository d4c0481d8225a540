//! Scripts, and what the top call makes of them. Each end of the script is in memory, and so is the
//! disk.
use crate::images::{disk_of, formatted, left_at};
use crate::rows::{expect_count, expect_same, halves, lines_of};
use crate::runs::{NONE, Run, fails_of, summary, told, told_fresh, told_on};
use fx_disks::{Loose, MemDisk, Pick};
use std::alloc::{AllocError, Global};
use std::process::Abort;

/// Scripts on a formatted disk, and how they end: the status, the calls of the disk and the output.
/// A `~` stands for a line feed.
const SCRIPTS: &str = "\
mkdir /v~mkdir /v~mkdir /v/w~mkdir /x/y~ => 0 4 1 1 ok 1~1 2 err 1 1 exists~1 3 ok 2~1 4 err 2 1 notfound~
mkdir /v~create /v/a~create /v/a~ => 0 4 1 1 ok 1~1 2 ok 2~1 3 err 2 1 exists~
mkdir /v~create /v/a~write /v/a 0 hi~read /v/a 0 9~ => 0 4 1 1 ok 1~1 2 ok 2~1 3 ok 3~1 4 read 3 2 hi~
mkdir /v~create /v/a~write /v/a 4095 xy~read /v/a 4094 9~stat /v/a => 0 4 1 1 ok 1~1 2 ok 2~1 3 ok 3~1 4 read 3 3 %00xy~1 5 stat 3 file 4097 2~
mkdir /v~create /v/a~write /v/a 16777215 x~write /v/a 16777216 x~stat /v/a~ => 0 4 1 1 ok 1~1 2 ok 2~1 3 ok 3~1 4 err 3 1 toolong~1 5 stat 3 file 16777216 1~
mkdir /v~create /v/a~write /v/a 16777215 x~read /v/a 16777214 9~ => 0 4 1 1 ok 1~1 2 ok 2~1 3 ok 3~1 4 read 3 2 %00x~
mkdir /v%C3%A9~create /v%C3%A9/%25~write /v%C3%A9/%25 0 %3B%~read /v%C3%A9/%25 0 1048576~read /v%C3%A9/%25 2 0~ => 0 4 1 1 ok 1~1 2 ok 2~1 3 ok 3~1 4 read 3 2 %3B%25~1 5 read 3 0~
 => 0 3 
list /~stat /~sync~ => 0 4 1 1 list 0 0~1 2 stat 0 dir 0 0~1 3 synced 0 3~
mkdir /v~stat /~list /~stat /v~list /v~ => 0 4 1 1 ok 1~1 2 stat 1 dir 1 0~1 3 list 1 1 v~1 4 stat 1 dir 0 0~1 5 list 1 0~
mkdir /v~mkdir /v/b~mkdir /v/b/c~list /v/b~stat /v/b/c~stat /v/b~ => 0 4 1 1 ok 1~1 2 ok 2~1 3 ok 3~1 4 list 3 1 c~1 5 stat 3 dir 0 0~1 6 stat 3 dir 1 0~
mkdir /v~mkdir /v/b~create /v/a%20b~create /v/a~list /v~stat /v~stat /v/a~ => 0 4 1 1 ok 1~1 2 ok 2~1 3 ok 3~1 4 ok 4~1 5 list 4 3 a a%20b b~1 6 stat 4 dir 3 0~1 7 stat 4 file 0 0~
mkdir /w~mkdir /v~mkdir /v%C3%A9~mkdir /v/x~list /~stat /~ => 0 4 1 1 ok 1~1 2 ok 2~1 3 ok 3~1 4 ok 4~1 5 list 4 3 v v%C3%A9 w~1 6 stat 4 dir 3 0~
";

/// How the script ends on a formatted disk, with ends that move so many bytes a call.
fn ends_by(alloc: Global, script: &str, piece: u32) -> Result<String, AllocError> {
    let script = lines_of(alloc, script)?;
    let run = told(alloc, formatted(alloc)?, "shell", &script, piece, NONE)?;
    summary(alloc, &run)
}

/// Asserts how a script ends, whatever its ends move in a call.
fn expect_script(rt: &(impl Abort + AllocGlobal), row: &str) -> Result<(), AllocError> {
    let (script, wanted) = halves(row, " => ");
    for piece in [1, 3, 4096] {
        let told = ends_by(rt.alloc(), script, piece)?;
        expect_same(rt, told.as_str(), wanted, script);
    }
    Ok(())
}

#[test]
fn scripts_and_their_results(rt: HostRuntime) -> Result<(), AllocError> {
    for row in SCRIPTS.lines() {
        expect_script(&rt, row)?;
    }
    expect_count(&rt, SCRIPTS, 13);
    Ok(())
}

/// Lines behind `mkdir /v`, `mkdir /v/d` and `create /v/f`, and the word of their refusal.
const REFUSALS: &str = "\
mkdir / => exists
mkdir /x/y => notfound
mkdir /v/x/y => notfound
mkdir /v/f/y => notdir
mkdir /v/f/x/y => notdir
mkdir /v/f => exists
create / => notvolume
create /x => notvolume
create /v => notvolume
create /x/y => notfound
create /v/f/y => notdir
create /v/d => exists
write / 0 x => isdir
write /x/y 16777216 x => notfound
write /v/f/y 16777216 x => notdir
write /v/x 16777216 x => notfound
write /v/d 16777216 x => isdir
write /v/f 16777216 x => toolong
read /x/y 0 1048577 => notfound
read /v/f/y 0 1048577 => notdir
read /v/x 0 1048577 => notfound
read /v/d 0 1048577 => isdir
read /v/f 0 1048577 => toolong
list /x => notfound
list /x/y => notfound
list /v/x/y => notfound
list /v/f/y => notdir
list /v/f/x/y => notdir
list /v/x => notfound
list /v/f => notdir
stat /x => notfound
stat /x/y => notfound
stat /v/f/y => notdir
stat /v/f/x/y => notdir
stat /v/x => notfound
";

/// How the line ends behind the three that make its tree, and before one more.
fn ends_between(alloc: Global, line: &str) -> Result<String, AllocError> {
    let script = format!(in alloc; "mkdir /v\nmkdir /v/d\ncreate /v/f\n{line}\ncreate /v/g\n")?;
    let run = told_fresh(alloc, script.as_bytes())?;
    summary(alloc, &run)
}

/// What is told where it is refused with this word.
fn refusal_told(alloc: Global, word: &str) -> Result<String, AllocError> {
    format!(in alloc; "0 4 1 1 ok 1~1 2 ok 2~1 3 ok 3~1 4 err 3 1 {word}~1 5 ok 4~")
}

/// Asserts how a line is refused.
fn expect_refusal(rt: &(impl Abort + AllocGlobal), row: &str) -> Result<(), AllocError> {
    let (line, word) = halves(row, " => ");
    let told = ends_between(rt.alloc(), line)?;
    let wanted = refusal_told(rt.alloc(), word)?;
    expect_same(rt, told.as_str(), wanted.as_str(), line);
    Ok(())
}

#[test]
fn refusals_in_their_order(rt: HostRuntime) -> Result<(), AllocError> {
    for row in REFUSALS.lines() {
        expect_refusal(&rt, row)?;
    }
    expect_count(&rt, REFUSALS, 35);
    Ok(())
}

/// Runs the words on the disk of this name, with pieces of 8 bytes, over `SCRIPT | FAILS`.
fn told_case(alloc: Global, disk: &str, words: &str, rest: &str) -> Result<Run, AllocError> {
    let (script, fails) = halves(rest, "|");
    let disk = disk_of(alloc, disk.trim())?;
    let script = lines_of(alloc, script.trim())?;
    let fails = fails_of(fails.trim());
    told(alloc, disk, words.trim(), &script, 8, fails)
}

/// How a case of a table ends, `DISK | WORDS | SCRIPT | FAILS`.
fn case_ends(alloc: Global, case: &str) -> Result<String, AllocError> {
    let (disk, case) = halves(case, "|");
    let (words, rest) = halves(case, "|");
    let run = told_case(alloc, disk, words, rest)?;
    summary(alloc, &run)
}

/// Asserts how a case ends.
fn expect_case(rt: &(impl Abort + AllocGlobal), row: &str) -> Result<(), AllocError> {
    let (case, wanted) = halves(row, " => ");
    let told = case_ends(rt.alloc(), case)?;
    expect_same(rt, told.as_str(), wanted, case);
    Ok(())
}

/// Each row is a case, and then the status, the number of device calls and the output. A `~` stands
/// for a line feed.
const CASES: &str = "\
formatted | shell | | => 0 3 
formatted | shell | mkdir /v~ | => 0 4 1 1 ok 1~
formatted | shell | mkdir /v~mkdirr /w~ | => 8 0 stop 8 badline 2 unknownword~
formatted | shell | mkdir /v~~ | => 8 0 stop 8 badline 2 empty~
formatted | shell extra | mkdir /v~ | => 2 0 stop 2 badwords~
formatted | | mkdir /v~ | => 2 0 stop 2 badwords~
formatted | shell | mkdir /v~ | source 1 => 5 0 stop 5 read~
formatted | shell | mkdir /v~ | source 2 => 5 0 stop 5 read~
formatted | shell | mkdir /v~ | source 3 => 5 0 stop 5 read~
formatted | shell | mkdir /v~ | sink 1 => 6 4 
formatted | shell | mkdir /v~ | sink 2 => 6 4 1 1 ok 1
formatted | shell extra | mkdir /v~ | sink 1 => 2 0 
formatted | shell extra | mkdir /v~ | sink 2 => 2 0 stop 2 b
blank 1088 | shell | mkdir /v~ | => 3 0 stop 3 nosuper~
blank 1 | shell | mkdir /v~ | => 3 0 stop 3 nosuper~
version | shell | mkdir /v~ | => 3 0 stop 3 version 7~
size | shell | mkdir /v~ | => 3 0 stop 3 disksize 1088~
layer | shell | mkdir /v~ | => 3 0 stop 3 badlayer 300~
allocator | shell | mkdir /v~ | => 3 0 stop 3 badlayer 302~
cramped | shell | mkdir /v~ | => 3 0 stop 3 cramped 0~
version | shell | mkdirr /v~ | => 8 0 stop 8 badline 1 unknownword~
formatted | shell | mkdir /v~ | read 1 => 4 0 stop 4 device~
formatted | shell | mkdir /v~ | read 2 => 4 0 stop 4 device~
formatted | shell | mkdir /v~ | call 1 => 4 1 stop 4 device~
formatted | shell | mkdir /v~ | call 2 => 4 2 stop 4 device~
formatted | shell | mkdir /v~ | read 3 => 4 0 stop 4 device~
formatted | shell | mkdir /v~ | read 4 => 0 4 1 1 ok 1~
formatted | shell | mkdir /v~ | call 3 => 4 3 1 1 ok 1~stop 4 device~
formatted | shell | mkdir /v~ | call 4 => 4 4 1 1 ok 1~stop 4 device~
formatted | shell | sync~ | call 3 => 0 4 1 1 err 0 0 device~
formatted | shell | sync~sync~ | call 4 => 0 5 1 1 synced 0 3~1 2 err 0 0 device~
formatted | shell | mkdir /v~sync~mkdir /w~ | => 0 6 1 1 ok 1~1 2 synced 1 4~1 3 ok 2~
formatted | shell | mkdir /v~sync~mkdir /w~sync~ | call 4 => 0 7 1 1 ok 1~1 2 err 1 0 device~1 3 ok 2~1 4 synced 2 6~
formatted | shell | mkdir /v~sync~mkdir /v~sync~list /~ | => 0 6 1 1 ok 1~1 2 synced 1 4~1 3 err 1 1 exists~1 4 synced 1 5~1 5 list 1 1 v~
blank 1088 | mkfs | | => 0 260 mkfs 1088 256~
blank 1087 | mkfs | | => 11 0 stop 11 size 1087~
blank 4160 | mkfs --journal=1024 | | => 0 1028 mkfs 4160 1024~
blank 4159 | mkfs --journal 1024 | | => 11 0 stop 11 size 4159~
blank 1088 | mkfs --journal 256 | | => 0 260 mkfs 1088 256~
blank 1092 | mkfs --journal=00000000000000000257 | | => 0 261 mkfs 1092 257~
blank 1092 | mkfs --journal 000000000000000000257 | | => 2 0 stop 2 badwords~
blank 1088 | mkfs --journal 255 | | => 2 0 stop 2 badwords~
blank 1088 | mkfs --journal=1025 | | => 2 0 stop 2 badwords~
blank 1088 | mkfs --journal +256 | | => 2 0 stop 2 badwords~
blank 1088 | mkfs --journal | | => 2 0 stop 2 badwords~
blank 1088 | mkfs --journal= | | => 2 0 stop 2 badwords~
blank 1088 | mkfs 256 | | => 2 0 stop 2 badwords~
blank 1088 | mkfs --journal 256 --journal 256 | | => 2 0 stop 2 badwords~
blank 1088 | mkfs --journal=256 --journal=256 | | => 2 0 stop 2 badwords~
blank 1088 | mkfs --journal=18446744073709551616 | | => 2 0 stop 2 badwords~
blank 1088 | mkfs | | call 1 => 4 1 stop 4 device~
blank 1088 | mkfs | | call 260 => 4 260 stop 4 device~
blank 1088 | mkfs | | sink 1 => 6 260 
blank 1088 | mkfs | | sink 2 => 6 260 mkfs 108
";

#[test]
fn causes_and_their_statuses(rt: HostRuntime) -> Result<(), AllocError> {
    for row in CASES.lines() {
        expect_case(&rt, row)?;
    }
    expect_count(&rt, CASES, 54);
    Ok(())
}

/// The status of a shell on the disk.
fn status_on(alloc: Global, disk: MemDisk) -> Result<u8, AllocError> {
    let run = told_on(alloc, disk, b"")?;
    Ok(run.ended.status)
}

/// The status of a shell on the image that a stop of the disk at this moment leaves, if it leaves
/// one.
fn status_after(
    alloc: Global,
    disk: &MemDisk,
    moment: u64,
    pick: Pick,
) -> Result<Option<u8>, AllocError> {
    match left_at(alloc, disk, moment, &[pick])? {
        Some(again) => Ok(Some(status_on(alloc, again)?)),
        None => Ok(None),
    }
}

/// Asserts that status, or that no such image is left.
fn expect_status(
    rt: &(impl Abort + AllocGlobal),
    disk: &MemDisk,
    moment: u64,
    pick: Pick,
    status: Option<u8>,
) -> Result<(), AllocError> {
    let got = status_after(rt.alloc(), disk, moment, pick)?;
    assert_eq!(rt; got, status, "{moment} {pick:?}");
    Ok(())
}

/// What may be left in a loose block that the call with this number wrote.
fn kinds(call: u64) -> [Loose; 4] {
    [
        Loose::Settled,
        Loose::Written(call),
        Loose::Half(call),
        Loose::Zeros,
    ]
}

/// The disk after `mkfs`.
fn formatted_now(alloc: Global) -> Result<MemDisk, AllocError> {
    let blank = MemDisk::new(alloc, 1_088)?;
    let run = told(alloc, blank, "mkfs", b"", 4096, NONE)?;
    Ok(run.ended.disk)
}

/// Asserts that there is no superblock where a stop leaves this block, which the call of its number
/// writes.
fn expect_none_within(
    rt: &(impl Abort + AllocGlobal),
    disk: &MemDisk,
    block: u32,
) -> Result<(), AllocError> {
    let call = u64::from(block);
    for loose in kinds(call) {
        expect_status(
            rt,
            disk,
            call.saturating_sub(1),
            Pick { block, loose },
            Some(3),
        )?;
    }
    Ok(())
}

// Calls 1 to 257 write zeros, each to the block of its number, and call 258 is a flush.
#[test]
fn a_stop_before_the_superblock_leaves_none(rt: HostRuntime) -> Result<(), AllocError> {
    let disk = formatted_now(rt.alloc())?;
    for block in 1..258u32 {
        expect_none_within(&rt, &disk, block)?;
    }
    Ok(())
}

/// Asserts the status where a stop leaves block 0 so, which call 259 writes and call 260 flushes.
fn expect_at_superblock(
    rt: &(impl Abort + AllocGlobal),
    disk: &MemDisk,
    loose: Loose,
    status: u8,
) -> Result<(), AllocError> {
    let pick = Pick { block: 0, loose };
    expect_status(rt, disk, 258, pick, Some(status))?;
    expect_status(rt, disk, 259, pick, Some(status))?;
    expect_status(rt, disk, 260, pick, None)
}

#[test]
fn a_stop_at_the_superblock_leaves_none_or_the_first(rt: HostRuntime) -> Result<(), AllocError> {
    let disk = formatted_now(rt.alloc())?;
    expect_at_superblock(&rt, &disk, Loose::Settled, 3)?;
    expect_at_superblock(&rt, &disk, Loose::Written(259), 0)?;
    expect_at_superblock(&rt, &disk, Loose::Half(259), 3)?;
    expect_at_superblock(&rt, &disk, Loose::Zeros, 3)?;
    Ok(())
}

/// The lines `mkdir /d`, `mkdir /d/d` and so on, to a path of so many names.
fn deep_script(alloc: Global, count: u64) -> Result<String, AllocError> {
    let mut script = String::new(alloc);
    let mut path = String::new(alloc);
    for _ in 0..count {
        path.push_str("/d")?;
        script.push_str("mkdir ")?;
        script.push_str(path.as_str())?;
        script.push_str("\n")?;
    }
    Ok(script)
}

/// How they end where each is done.
fn deep_told(alloc: Global, count: u64) -> Result<String, AllocError> {
    let mut told = String::from_str(alloc, "0 4 ")?;
    for number in 1..count.saturating_add(1) {
        write!(told, "1 {number} ok {number}~")?;
    }
    Ok(told)
}

/// How the lines to a path of so many names end.
fn deep_ends(alloc: Global, count: u64) -> Result<String, AllocError> {
    let script = deep_script(alloc, count)?;
    let run = told_fresh(alloc, script.as_bytes())?;
    summary(alloc, &run)
}

/// Asserts how they end.
fn expect_deep(
    rt: &(impl Abort + AllocGlobal),
    count: u64,
    wanted: &str,
) -> Result<(), AllocError> {
    let told = deep_ends(rt.alloc(), count)?;
    expect_same(rt, told.as_str(), wanted, "deep");
    Ok(())
}

#[test]
fn paths_of_64_names(rt: HostRuntime) -> Result<(), AllocError> {
    let wanted = deep_told(rt.alloc(), 64)?;
    expect_deep(&rt, 64, wanted.as_str())?;
    expect_deep(&rt, 65, "8 0 stop 8 badline 65 badpath~")?;
    Ok(())
}
