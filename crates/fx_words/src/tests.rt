//! Lines and scripts of all words, read and printed; the words of faults, and what is built by
//! default.
use super::*;
use fx_item::Bytes;
use fx_script::LineFault;
use std::alloc::{AllocError, Global};
use std::process::Abort;
use std::test::Fail;

#[test]
fn faults_have_words(rt: HostRuntime) -> Result<(), Fail> {
    truncation_lines();
    removal_lines();
    setattr_lines();
    attribute_lines();
    group_lines();
    lone_lines();
    assert_eq!(rt; WordFault::TooManySteps.word(), "toomanysteps");
    assert_eq!(rt; WordFault::Basic(LineFault::BadText).word(), "badtext");
    Ok(())
}

#[test]
fn nothing_is_built_by_default(rt: HostRuntime) -> Result<(), Fail> {
    word_laws();
    rule_laws();
    unbuilt_lines();
    let none = Built::default();
    assert!(rt; !none.groups);
    assert!(rt; !none.removal);
    Ok(())
}

/// All words.
const ALL: Built = Built {
    truncation: true,
    groups: true,
    compaction: true,
    removal: true,
};

/// Lines, and after ` => ` what each is: its fault, or how it is printed.
const LINES: &str = "trunc /v/%66 5000 => trunc /v/f 5000
rm / => rm /
mv /v/a /v/%62 => mv /v/a /v/b
setattr /v k%2B a;b => setattr /v k%2B a%3Bb
setattr /v ; x => wordcount
delattr /v %3b => delattr /v %3B
attr /v/a k => attr /v/a k
create /v/a;b => create /v/a%3Bb
compact => compact
sync => sync
read / 0 1 => read / 0 1
mkdir /v ; rm /v => mkdir /v ; rm /v
mkdir /v ; write /v/a;b 0 ;; => mkdir /v ; write /v/a%3Bb 0 %3B%3B
mkdir /v ; create /v/a ; mv /v/a /v/b => mkdir /v ; create /v/a ; mv /v/a /v/b
; => unknownword
 ; => unknownword
mkdir /v ; => unknownword
mkdir /v ;  => unknownword
mkdir /v ; ; => unknownword
mkdir v ; foo => badpath
foo ; mkdir v => unknownword
mkdir /v ; compact x => groupedline
mkdir /v ; stat => groupedline
trunc /v -1 => badnumber
mv /v => wordcount
setattr /v %2F %zz => badname
setattr /v .. x => badname
attr /v %FF => badname
 compact => unknownword
 => empty
ré => notascii";

/// The fault of a line, or how it is printed.
fn told_of(alloc: Global, line: &[u8]) -> Result<Bytes, AllocError> {
    match read_full_line(alloc, ALL, line)? {
        Ok(line) => print_full_line(alloc, &line),
        Err(fault) => Ok(Bytes::new(Vec::from_slice(alloc, fault.word().as_bytes())?)),
    }
}

#[test]
fn lines_are_read_and_printed(rt: HostRuntime) -> Result<(), Fail> {
    for row in LINES.lines() {
        let (line, wanted) = row.split_once(" => ").ok_or("a row without an arrow")?;
        let told = told_of(rt.alloc(), line.as_bytes())?;
        assert_eq!(rt; told.as_slice(), wanted.as_bytes(), "at {line}");
    }
    Ok(())
}

/// The bytes so many times over, behind others.
fn repeated(
    alloc: Global,
    first: &[u8],
    bytes: &[u8],
    count: usize,
) -> Result<Vec<u8>, AllocError> {
    let mut all = Vec::from_slice(alloc, first)?;
    for _ in 0..count {
        all.extend_from_slice(bytes)?;
    }
    Ok(all)
}

/// The steps of a group of a removal and so many more, or its fault.
fn group_of(alloc: Global, more: usize) -> Result<Result<usize, WordFault>, AllocError> {
    let line = repeated(alloc, b"rm /v".as_slice(), b" ; rm /v".as_slice(), more)?;
    match check_full_line(ALL, line.as_slice()) {
        Ok(FullWords::Group(group)) => Ok(Ok(group.copy(alloc)?.as_slice().len())),
        Ok(_) => Ok(Ok(0)),
        Err(fault) => Ok(Err(fault)),
    }
}

#[test]
fn groups_have_64_steps_at_most(rt: HostRuntime) -> Result<(), Fail> {
    let alloc = rt.alloc();
    assert_eq!(rt; group_of(alloc, 0)?, Ok(0), "no group");
    assert_eq!(rt; group_of(alloc, 1)?, Ok(2));
    assert_eq!(rt; group_of(alloc, 63)?, Ok(64));
    assert_eq!(rt; group_of(alloc, 64)?, Err(WordFault::TooManySteps));
    Ok(())
}

/// How many lines a script has that has so many and one more without a line feed, or its first wrong
/// line.
fn lines_of(alloc: Global, ended: usize) -> Result<Result<u32, BadFullLine>, AllocError> {
    let mut text = repeated(alloc, b"".as_slice(), b"2 compact\n".as_slice(), ended)?;
    text.extend_from_slice(b"1 sync".as_slice())?;
    match read_full_script(ALL, Bytes::new(text), true) {
        Ok(tasks) => Ok(Ok(tasks.len())),
        Err(bad) => Ok(Err(bad)),
    }
}

#[test]
fn scripts_have_65536_lines_at_most(rt: HostRuntime) -> Result<(), Fail> {
    let late = BadFullLine {
        number: 65_537,
        fault: WordFault::Basic(LineFault::TooManyLines),
    };
    assert_eq!(rt; lines_of(rt.alloc(), 65_535)?, Ok(65_536));
    assert_eq!(rt; lines_of(rt.alloc(), 65_536)?, Err(late));
    Ok(())
}

/// The clients and lines of a script, or the first wrong line.
fn told_script(alloc: Global, text: &[u8]) -> Result<Vec<u8>, AllocError> {
    let mut told = Vec::new(alloc);
    match read_full_script(ALL, Bytes::new(Vec::from_slice(alloc, text)?), true) {
        Ok(tasks) => {
            for sent in tasks.lines() {
                push_task(&mut told, alloc, &sent.task(alloc)?)?;
            }
        }
        Err(bad) => {
            let end = format!(in alloc; "{} {}", bad.number, bad.fault.word())?;
            told.extend_from_slice(end.as_bytes())?;
        }
    }
    Ok(told)
}

fn push_task(told: &mut Vec<u8>, alloc: Global, task: &FullTask) -> Result<(), AllocError> {
    let head = format!(in alloc; "{} {} ", task.client, task.number)?;
    told.extend_from_slice(head.as_bytes())?;
    let line = print_full_line(alloc, &task.line)?;
    told.extend_from_slice(line.as_slice())?;
    told.push(b'|')?;
    Ok(())
}

/// Scripts of many clients, with `$` for each line feed, and after ` => ` what each is.
const SCRIPTS: &str = "1 compact$16 rm /v ; mkdir /v => 1 1 compact|16 2 rm /v ; mkdir /v|
3 trunc /v/f 1 => 3 1 trunc /v/f 1|
2 => 1 empty
2  => 1 empty
1 sync$0 rm v => 2 badclient
rm /v => 1 badclient
1 sync$1 rm v ; foo => 2 badpath
1 sync$1 mkdir /v ; sync => 2 groupedline";

#[test]
fn scripts_are_read_up_to_the_first_wrong_line(rt: HostRuntime) -> Result<(), Fail> {
    let alloc = rt.alloc();
    for row in SCRIPTS.lines() {
        let (script, wanted) = row.split_once(" => ").ok_or("a row without an arrow")?;
        let script: Vec<u8> = script
            .bytes()
            .map(|b| if b == b'$' { b'\n' } else { b })
            .collect(alloc)?;
        let told = told_script(alloc, script.as_slice())?;
        assert_eq!(rt; told.as_slice(), wanted.as_bytes(), "at {row}");
    }
    Ok(())
}
