//! Steps on a tree that begins as the root alone. A row is a step in words, an arrow, and what it
//! answers: `done`, the refusal's name in small letters, the text that is read after a `=`, the
//! names of a directory, or what a node is.
use crate::{
    Answer, Kind, Names, Path, Plain, Refusal, Step, Steps, bare_laws, change_laws, children_laws,
    copy_path, size_laws, step_laws,
};
use fx_item::{Bytes, Name, Sizes};
use std::alloc::{AllocError, Global};
use std::process::Abort;
use std::test::Fail;

const REFUSALS: &str = "mkdir /v -> done
mkdir /v/d -> done
create /v/f -> done
write /v/f 0 hi -> done
mkdir / -> exists
mkdir /x/y -> notfound
mkdir /x/y/z -> notfound
mkdir /v/f/y -> notdir
mkdir /v/f/y/z -> notdir
mkdir /v -> exists
mkdir /v/f -> exists
create / -> notvolume
create /v -> notvolume
create /x -> notvolume
create /x/y -> notfound
create /v/f/y -> notdir
create /v/f -> exists
create /v/d -> exists
write /x/y 16777216 x -> notfound
write /v/f/y 16777216 x -> notdir
write /v/x 16777216 x -> notfound
write / 16777216 x -> isdir
write /v/d 0 x -> isdir
write /v/f 16777216 x -> toolong
write /v/f 16777215 xy -> toolong
write /v/f 4294967295 x -> toolong
read /x/y 0 1048577 -> notfound
read /v/f/y 0 1048577 -> notdir
read /v/x 0 1048577 -> notfound
read /v 0 1048577 -> isdir
read / 0 0 -> isdir
read /v/f 0 1048577 -> toolong
read /v/f 0 1048576 -> =hi";

const FILES: &str = "mkdir /v -> done
create /v/a -> done
read /v/a 0 9 -> =
write /v/a 0 hi -> done
read /v/a 0 9 -> =hi
read /v/a 0 1 -> =h
read /v/a 1 0 -> =
read /v/a 2 9 -> =
read /v/a 4294967295 9 -> =
write /v/a 5 xy -> done
read /v/a 0 9 -> =hi\0\0\0xy
write /v/a 1 - -> done
read /v/a 0 9 -> =h-\0\0\0xy
create /v/b -> done
write /v/b 4095 xy -> done
read /v/b 4094 9 -> =\0xy
create /v/c -> done
write /v/c 16777215 x -> done
write /v/c 16777216 x -> toolong
read /v/c 16777214 9 -> =\0x";

const LISTINGS: &str = "list / -> names:
stat / -> dir 0 0
mkdir /v -> done
list /v -> names:
create /v/a -> done
write /v/a 4095 xy -> done
stat /v/a -> file 4097 2
write /v/a 16777215 x -> done
stat /v/a -> file 16777216 3
mkdir /w -> done
mkdir /w/ab -> done
mkdir /w/a -> done
create /w/a.b -> done
create /w/a/x -> done
mkdir /w/a/y -> done
create /w/a/y/z -> done
create /w/ab/c -> done
mkdir /wx -> done
create /wx/q -> done
list /w -> names:a,a.b,ab
list /w/a -> names:x,y
list /w/a/y -> names:z
list / -> names:v,w,wx
stat / -> dir 3 0
stat /w -> dir 3 0
stat /w/a -> dir 2 0
stat /w/a.b -> file 0 0
list /w/a.b -> notdir
list /w/a.b/x -> notdir
list /w/b -> notfound
list /x/y -> notfound
stat /w/a.b/x -> notdir
stat /w/b -> notfound
stat /x/y -> notfound";

fn path_of(alloc: Global, text: &str) -> Result<Path, AllocError> {
    let mut names = Vec::new(alloc);
    for name in text.split('/') {
        if !name.is_empty() {
            names.push(Name::new(Vec::from_slice(alloc, name.as_bytes())?))?;
        }
    }
    Ok(Path::new(names))
}

fn step_of(alloc: Global, text: &str) -> Result<Step, Fail> {
    let mut words = text.split(' ');
    let word = words.next().ok_or("no word")?;
    let path = path_of(alloc, words.next().ok_or("no path")?)?;
    if word == "mkdir" {
        return Ok(Step::Mkdir { path });
    }
    if word == "create" {
        return Ok(Step::Create { path });
    }
    if word == "list" {
        return Ok(Step::List { path });
    }
    if word == "stat" {
        return Ok(Step::Stat { path });
    }
    let at = words.next().ok_or("no place")?.parse::<u32>()?;
    let last = words.next().ok_or("no text or count")?;
    if word == "write" {
        let text = Bytes::new(Vec::from_slice(alloc, last.as_bytes())?);
        return Ok(Step::Write { path, at, text });
    }
    let count = last.parse::<u32>()?;
    Ok(Step::Read { path, at, count })
}

fn word_of(refusal: Refusal) -> &'static str {
    match refusal {
        Refusal::NotFound => "notfound",
        Refusal::NotDir => "notdir",
        Refusal::IsDir => "isdir",
        Refusal::Exists => "exists",
        Refusal::NotVolume => "notvolume",
        Refusal::TooLong => "toolong",
    }
}

/// The names with commas between them.
fn joined(alloc: Global, names: &Names) -> Result<Vec<u8>, AllocError> {
    let mut text = Vec::new(alloc);
    for name in names.as_slice() {
        if !text.is_empty() {
            text.push(b',')?;
        }
        text.extend_from_slice(name.as_slice())?;
    }
    Ok(text)
}

/// Whether the text is this mark and then these bytes.
fn is_marked(text: &str, mark: &str, bytes: &[u8]) -> bool {
    match text.strip_prefix(mark) {
        Some(rest) => rest.as_bytes() == bytes,
        None => false,
    }
}

fn is_wanted(
    alloc: Global,
    answer: &Result<Answer, Refusal>,
    wanted: &str,
) -> Result<bool, AllocError> {
    match answer {
        Ok(Answer::Done) => Ok(wanted == "done"),
        Ok(Answer::Text(text)) => Ok(is_marked(wanted, "=", text.as_slice())),
        Ok(Answer::Names(names)) => {
            let text = joined(alloc, names)?;
            Ok(is_marked(wanted, "names:", text.as_slice()))
        }
        Ok(Answer::Stat { kind, size, blocks }) => {
            let word = match kind {
                Kind::Dir => "dir",
                Kind::File => "file",
            };
            let mut text = String::new(alloc);
            write!(text, "{word} {size} {blocks}")?;
            Ok(wanted == text.as_str())
        }
        Err(refusal) => Ok(wanted == word_of(*refusal)),
    }
}

/// Whether what was foretold is what came.
fn is_refusal_of(foretold: Option<Refusal>, answer: &Result<Answer, Refusal>) -> bool {
    match answer {
        Ok(_) => foretold.is_none(),
        Err(refusal) => foretold == Some(*refusal),
    }
}

/// Does the step; a tree of a test has few nodes.
fn do_step(
    alloc: Global,
    plain: &mut Plain,
    step: &Step,
) -> Result<Result<Answer, Refusal>, AllocError> {
    if !plain.is_countable() {
        return Err(AllocError);
    }
    plain.step(alloc, step)
}

/// Does the step of a row, after it is asked whether it would be refused.
fn do_row(rt: &impl Abort, alloc: Global, plain: &mut Plain, row: &str) -> Result<(), Fail> {
    let (text, wanted) = row.split_once(" -> ").ok_or("no arrow")?;
    let step = step_of(alloc, text)?;
    let refusal = plain.refusal(&step);
    let answer = do_step(alloc, plain, &step)?;
    assert!(rt; is_refusal_of(refusal, &answer), "foretold at {row}");
    assert!(rt; is_wanted(alloc, &answer, wanted)?, "at {row}");
    Ok(())
}

#[test]
fn steps_answer_as_the_table_says(rt: HostRuntime) -> Result<(), Fail> {
    for table in [REFUSALS, FILES, LISTINGS] {
        let mut plain = Plain::new(rt.alloc())?;
        for row in table.split('\n') {
            do_row(&rt, rt.alloc(), &mut plain, row)?;
        }
    }
    Ok(())
}

#[test]
fn copies_are_the_same(rt: HostRuntime) -> Result<(), Fail> {
    let path = path_of(rt.alloc(), "/v/a")?;
    let copy = copy_path(&path)?;
    assert_eq!(rt; copy.as_slice(), path.as_slice());
    let step = step_of(rt.alloc(), "mkdir /v")?;
    let mut steps = Vec::new(rt.alloc());
    steps.push(step.clone()?)?;
    let steps = Steps::new(steps);
    let mut plain = Plain::new(rt.alloc())?;
    for step in steps.as_slice() {
        let answer = do_step(rt.alloc(), &mut plain, step)?;
        assert!(rt; is_wanted(rt.alloc(), &answer, "done")?);
    }
    let answer = do_step(rt.alloc(), &mut plain, &step)?;
    assert!(rt; is_wanted(rt.alloc(), &answer, "exists")?);
    step_laws();
    change_laws();
    bare_laws();
    children_laws();
    Ok(())
}

/// What a tree holds after the steps of the first rows, each done or refused.
fn sizes_after(alloc: Global, rows: &[&str], count: u8) -> Result<Sizes, Fail> {
    size_laws();
    let mut plain = Plain::new(alloc)?;
    for i in 0..count {
        let row = rows.get(i as usize).ok_or("no such row")?;
        let step = step_of(alloc, row)?;
        let _answer = plain.step(alloc, &step)?;
    }
    Ok(plain.sizes())
}

const SIZES: [&str; 8] = [
    "mkdir /v",
    "create /v/a",
    "mkdir /v",
    "write /v/a 4095 xy",
    "write /v/a 4095 xyz",
    "write /v/a 16777215 x",
    "create /v/b",
    "write /v/b 16777216 x",
];

// The text of two bytes covers the blocks 0 and 1, the longer one the same, and the last one block
// 4,095.
#[test]
fn sizes_are_counted(rt: HostRuntime) -> Result<(), Fail> {
    for (count, nodes, blocks) in [
        (0, 0, 0),
        (1, 1, 0),
        (3, 2, 0),
        (4, 2, 2),
        (5, 2, 2),
        (6, 2, 3),
        (8, 3, 3),
    ] {
        let wanted = Sizes {
            nodes,
            attributes: 0,
            blocks,
        };
        assert_eq!(rt; sizes_after(rt.alloc(), &SIZES, count)?, wanted);
    }
    Ok(())
}
