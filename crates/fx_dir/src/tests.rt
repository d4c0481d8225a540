//! Walks and names over a few items, given as rows: what stands there, whose it is, and what it is.
use crate::sample::Sample;
use crate::{WalkEnd, names, walk_path};
use fx_item::{Item, Key, LockKey, Name, Value};
use fx_plain::{Kind, Path, Refusal};
use std::alloc::{AllocError, Global};
use std::process::Abort;
use std::test::Fail;

const ITEMS: &str = "child 0 0 v 1 0
child 0 0 u 2 0
dir 1 0
dir 2 0
child 1 0 b 1 2
child 1 0 a 1 1
child 1 0 bb 1 4
child 1 0 ab 1 9
file 1 1 5
dir 1 2
file 1 4 0
child 1 2 c 1 3
dir 1 3
child 1 3 e 1 5
file 1 5 7";

/// A path, an arrow, how many directories the walk goes through, and where it ends.
const WALKS: &str = "/ -> 0 dir 0 0
/v -> 1 dir 1 0
/w -> 1 missing
/v/a -> 2 file 1 1
/v/b -> 2 dir 1 2
/v/x -> 2 missing
/v/ab -> 2 missing
/v/b/c/e -> 4 file 1 5
/w/a -> 1 notfound
/v/x/y/z -> 2 notfound
/v/ab/y -> 2 notfound
/v/a/x -> 2 notdir
/v/a/x/y -> 2 notdir
/u/a -> 2 missing
/v/b/c/e/f -> 4 notdir";

/// A node, an arrow, and the names of its children, each after a blank.
const NAMES: &str = "0 0 -> u v
1 0 -> a ab b bb
1 2 -> c
1 3 -> e
2 0 ->
1 1 ->
7 7 ->";

fn name_of(alloc: Global, text: &str) -> Result<Name, AllocError> {
    Ok(Name::new(Vec::from_slice(alloc, text.as_bytes())?))
}

fn path_of(alloc: Global, text: &str) -> Result<Path, AllocError> {
    let mut names = Vec::new(alloc);
    for name in text.split('/') {
        if !name.is_empty() {
            names.push(name_of(alloc, name)?)?;
        }
    }
    Ok(Path::new(names))
}

fn item_in(alloc: Global, row: &str) -> Result<Item, Fail> {
    let mut words = row.split(' ');
    let word = words.next().ok_or("no word")?;
    let store = words.next().ok_or("no store")?.parse::<u32>()?;
    let id = words.next().ok_or("no id")?.parse::<u64>()?;
    if word == "child" {
        let name = name_of(alloc, words.next().ok_or("no name")?)?;
        let key = Key::Child { store, id, name };
        let store = words.next().ok_or("no store")?.parse::<u32>()?;
        let id = words.next().ok_or("no id")?.parse::<u64>()?;
        return Ok(Item {
            key,
            value: Value::Child { store, id },
        });
    }
    let key = Key::Object { store, id };
    if word == "dir" {
        return Ok(Item {
            key,
            value: Value::Dir,
        });
    }
    let length = words.next().ok_or("no length")?.parse::<u32>()?;
    Ok(Item {
        key,
        value: Value::File { length },
    })
}

fn make_sample(alloc: Global) -> Result<Sample, Fail> {
    let mut items = Vec::new(alloc);
    for row in ITEMS.lines() {
        items.push(item_in(alloc, row)?)?;
    }
    Ok(Sample { items })
}

fn end_text(alloc: Global, end: WalkEnd) -> Result<String, AllocError> {
    match end {
        WalkEnd::Node(at, Kind::Dir) => format!(in alloc; "dir {} {}", at.store, at.id),
        WalkEnd::Node(at, Kind::File) => format!(in alloc; "file {} {}", at.store, at.id),
        WalkEnd::Missing => format!(in alloc; "missing"),
        WalkEnd::Stopped(Refusal::NotFound) => format!(in alloc; "notfound"),
        WalkEnd::Stopped(_) => format!(in alloc; "notdir"),
    }
}

fn walk_row(rt: &impl Abort, alloc: Global, look: &Sample, row: &str) -> Result<(), Fail> {
    let (text, wanted) = row.split_once(" -> ").ok_or("no arrow")?;
    let walk = walk_path(alloc, look, &path_of(alloc, text)?)?;
    let end = end_text(alloc, walk.end)?;
    let shown = format!(in alloc; "{} {}", walk.dirs.as_slice().len(), end)?;
    assert_eq!(rt; shown.as_str(), wanted, "at {row}");
    Ok(())
}

#[test]
fn walks(rt: HostRuntime) -> Result<(), Fail> {
    let look = make_sample(rt.alloc())?;
    for row in WALKS.lines() {
        walk_row(&rt, rt.alloc(), &look, row)?;
    }
    let walk = walk_path(rt.alloc(), &look, &path_of(rt.alloc(), "/v/b/c")?)?;
    let dirs = walk.dirs.into_vec();
    assert_eq!(rt; dirs.len(), 3);
    assert_eq!(rt; dirs[0], LockKey { store: 0, id: 0 });
    assert_eq!(rt; dirs[1], LockKey { store: 1, id: 0 });
    assert_eq!(rt; dirs[2], LockKey { store: 1, id: 2 });
    Ok(())
}

fn names_row(rt: &impl Abort, alloc: Global, look: &Sample, row: &str) -> Result<(), Fail> {
    let (at, wanted) = row.split_once(" ->").ok_or("no arrow")?;
    let (store, id) = at.split_once(' ').ok_or("no id")?;
    let at = LockKey {
        store: store.parse::<u32>()?,
        id: id.parse::<u64>()?,
    };
    let found = names(alloc, look, at)?;
    let mut shown = Vec::new(alloc);
    for name in found.as_slice() {
        shown.push(b' ')?;
        shown.extend_from_slice(name.as_slice())?;
    }
    assert!(rt; shown.as_slice() == wanted.as_bytes(), "at {row}");
    Ok(())
}

#[test]
fn lists(rt: HostRuntime) -> Result<(), Fail> {
    let look = make_sample(rt.alloc())?;
    for row in NAMES.lines() {
        names_row(&rt, rt.alloc(), &look, row)?;
    }
    Ok(())
}
