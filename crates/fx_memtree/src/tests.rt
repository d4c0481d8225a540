//! Steps on a tree that begins as the root alone. A row is a step in words, an arrow, and what it
//! answers: `done`, the refusal's name in small letters, a text after a `=`, the names of a
//! directory, or what a node is.
use crate::MemoryTree;
use fx_item::{Bytes, Name, Sizes};
use fx_plain::{Answer, Kind, Names, Path, Step};
use fx_steps::{
    StepRefusal, TreeStep, TreeSteps, change_laws, leave_laws, line_laws, size_laws, tree_laws,
};
use std::alloc::{AllocError, Global};
use std::process::Abort;
use std::test::Fail;

const MOVES: &str = "mkdir /v -> done
mkdir /v/d -> done
create /v/d/f -> done
create /v/a -> done
rm /v/d -> notempty
mv /v/d /v/d/x -> intoitself
mv /v/a /w/a -> crossvolume
create /x -> notvolume
mv / /v/x -> notvolume
mv /v/a / -> notvolume
mv /v/x /v/x -> notfound
mv /w/x /v/x -> notfound
mv /v/a/x /v/x -> notdir
mv /v/d /v/d -> intoitself
mv /v/d /v/x/d -> notfound
mv /v/d /v/a/d -> notdir
mv /v/d /v/a -> exists
mv /v/d/f /v -> exists
write /v/d/f 0 hi -> done
setattr /v/d k v -> done
mv /v/d /v/e -> done
list /v -> names:a,e
stat /v/d -> notfound
read /v/d/f 0 9 -> notfound
read /v/e/f 0 9 -> =hi
attr /v/e k -> =v
mkdir /v/d -> done
attr /v/d k -> noattr
list /v/d -> names:
mv /v/a /v/d/a -> done
mv /v/e /v/d/a/e -> notdir
mv /v/e /v/d/e -> done
read /v/d/e/f 0 9 -> =hi
list /v/d -> names:a,e";

const GOING: &str = "mkdir /v -> done
create /v/a -> done
setattr /v/a k v -> done
attr /v/a k -> =v
trunc /v/a 5 -> done
read /v/a 0 9 -> =\0\0\0\0\0
rm /v/none -> notfound
rm / -> notvolume
rm /v/a/x -> notdir
rm /v/a -> done
stat /v/a -> notfound
create /v/a -> done
attr /v/a k -> noattr
read /v/a 0 9 -> =
rm /v -> notempty
rm /v/a -> done
rm /v -> done
list / -> names:";

const ATTRIBUTES: &str = "mkdir /v -> done
setattr / k v -> notvolume
delattr / k -> notvolume
attr / k -> noattr
setattr /v/x k v -> notfound
delattr /v/x k -> notfound
attr /v/x k -> notfound
delattr /v k -> noattr
setattr /v k one -> done
setattr /v l two -> done
setattr /v k three -> done
attr /v k -> =three
attr /v l -> =two
delattr /v k -> done
delattr /v k -> noattr
attr /v k -> noattr
attr /v l -> =two";

const LENGTHS: &str = "mkdir /v -> done
create /v/a -> done
trunc /v 0 -> isdir
trunc /v/x 16777217 -> notfound
trunc /v/a 16777217 -> toolong
write /v/a 0 hello -> done
write /v/a 8191 xy -> done
stat /v/a -> file 8193 3
trunc /v/a 8192 -> done
stat /v/a -> file 8192 2
trunc /v/a 4097 -> done
stat /v/a -> file 4097 2
trunc /v/a 4096 -> done
stat /v/a -> file 4096 1
trunc /v/a 2 -> done
read /v/a 0 9 -> =he
trunc /v/a 4 -> done
read /v/a 0 9 -> =he\0\0
trunc /v/a 0 -> done
stat /v/a -> file 0 0
trunc /v/a 16777216 -> done
stat /v/a -> file 16777216 0";

fn path_of(alloc: Global, text: &str) -> Result<Path, AllocError> {
    let mut names = Vec::new(alloc);
    for name in text.split('/') {
        if !name.is_empty() {
            names.push(Name::new(Vec::from_slice(alloc, name.as_bytes())?))?;
        }
    }
    Ok(Path::new(names))
}

fn bytes_of(alloc: Global, text: &str) -> Result<Bytes, AllocError> {
    Ok(Bytes::new(Vec::from_slice(alloc, text.as_bytes())?))
}

fn name_of(alloc: Global, text: &str) -> Result<Name, AllocError> {
    Ok(Name::new(Vec::from_slice(alloc, text.as_bytes())?))
}

/// The first word, and what stands behind it.
fn first_word(text: &str) -> (&str, &str) {
    match text.split_once(' ') {
        Some((word, rest)) => (word, rest),
        None => (text, ""),
    }
}

/// A step whose word has a path alone behind it; for any other word, a removal.
fn path_step(word: &str, path: Path) -> TreeStep {
    if word == "mkdir" {
        return TreeStep::Basic(Step::Mkdir { path });
    }
    if word == "create" {
        return TreeStep::Basic(Step::Create { path });
    }
    if word == "list" {
        return TreeStep::Basic(Step::List { path });
    }
    if word == "stat" {
        return TreeStep::Basic(Step::Stat { path });
    }
    TreeStep::Remove { path }
}

fn write_step(alloc: Global, path: &str, rest: &str) -> Result<TreeStep, Fail> {
    let (at, text) = first_word(rest);
    let at = at.parse::<u32>()?;
    let text = bytes_of(alloc, text)?;
    let path = path_of(alloc, path)?;
    Ok(TreeStep::Basic(Step::Write { path, at, text }))
}

fn read_step(alloc: Global, path: &str, rest: &str) -> Result<TreeStep, Fail> {
    let (at, count) = first_word(rest);
    let at = at.parse::<u32>()?;
    let count = count.parse::<u32>()?;
    let path = path_of(alloc, path)?;
    Ok(TreeStep::Basic(Step::Read { path, at, count }))
}

fn cut_step(alloc: Global, path: &str, rest: &str) -> Result<TreeStep, Fail> {
    let size = rest.parse::<u32>()?;
    let path = path_of(alloc, path)?;
    Ok(TreeStep::Truncate { path, size })
}

fn move_step(alloc: Global, from: &str, to: &str) -> Result<TreeStep, AllocError> {
    let from = path_of(alloc, from)?;
    let to = path_of(alloc, to)?;
    Ok(TreeStep::Rename { from, to })
}

fn set_step(alloc: Global, path: &str, rest: &str) -> Result<TreeStep, AllocError> {
    let (name, value) = first_word(rest);
    let path = path_of(alloc, path)?;
    let name = name_of(alloc, name)?;
    let value = bytes_of(alloc, value)?;
    Ok(TreeStep::SetAttr { path, name, value })
}

fn unset_step(alloc: Global, path: &str, name: &str) -> Result<TreeStep, AllocError> {
    let path = path_of(alloc, path)?;
    let name = name_of(alloc, name)?;
    Ok(TreeStep::DelAttr { path, name })
}

fn tell_step(alloc: Global, path: &str, name: &str) -> Result<TreeStep, AllocError> {
    let path = path_of(alloc, path)?;
    let name = name_of(alloc, name)?;
    Ok(TreeStep::GetAttr { path, name })
}

/// A step whose word has more than a path behind it, and no number.
fn longer_step(alloc: Global, word: &str, path: &str, rest: &str) -> Result<TreeStep, AllocError> {
    if word == "mv" {
        return move_step(alloc, path, rest);
    }
    if word == "setattr" {
        return set_step(alloc, path, rest);
    }
    if word == "delattr" {
        return unset_step(alloc, path, rest);
    }
    if word == "attr" {
        return tell_step(alloc, path, rest);
    }
    Ok(path_step(word, path_of(alloc, path)?))
}

fn step_of(alloc: Global, text: &str) -> Result<TreeStep, Fail> {
    let (word, words) = first_word(text);
    let (path, rest) = first_word(words);
    if word == "write" {
        return write_step(alloc, path, rest);
    }
    if word == "read" {
        return read_step(alloc, path, rest);
    }
    if word == "trunc" {
        return cut_step(alloc, path, rest);
    }
    Ok(longer_step(alloc, word, path, rest)?)
}

/// The names with commas between them.
fn joined(alloc: Global, names: &Names) -> Result<Vec<u8>, AllocError> {
    let mut text = Vec::new(alloc);
    for name in names.as_slice() {
        if !text.is_empty() {
            text.push(b',')?;
        }
        text.extend_from_slice(name.as_slice())?;
    }
    Ok(text)
}

/// Whether the text is this mark and then these bytes.
fn is_marked(text: &str, mark: &str, bytes: &[u8]) -> bool {
    match text.strip_prefix(mark) {
        Some(rest) => rest.as_bytes() == bytes,
        None => false,
    }
}

fn is_wanted(
    alloc: Global,
    answer: &Result<Answer, StepRefusal>,
    wanted: &str,
) -> Result<bool, AllocError> {
    match answer {
        Ok(Answer::Done) => Ok(wanted == "done"),
        Ok(Answer::Text(text)) => Ok(is_marked(wanted, "=", text.as_slice())),
        Ok(Answer::Names(names)) => {
            let text = joined(alloc, names)?;
            Ok(is_marked(wanted, "names:", text.as_slice()))
        }
        Ok(Answer::Stat { kind, size, blocks }) => {
            let word = match kind {
                Kind::Dir => "dir",
                Kind::File => "file",
            };
            let mut text = String::new(alloc);
            write!(text, "{word} {size} {blocks}")?;
            Ok(wanted == text.as_str())
        }
        Err(refusal) => Ok(wanted == refusal.word()),
    }
}

/// Does the step; a tree of a test has few nodes.
fn do_step(
    alloc: Global,
    tree: &mut MemoryTree,
    step: &TreeStep,
) -> Result<Result<Answer, StepRefusal>, AllocError> {
    if !tree.is_countable() {
        return Err(AllocError);
    }
    tree.step(alloc, step)
}

fn do_row(rt: &impl Abort, alloc: Global, tree: &mut MemoryTree, row: &str) -> Result<(), Fail> {
    let (text, wanted) = row.split_once(" -> ").ok_or("no arrow")?;
    let step = step_of(alloc, text)?;
    let answer = do_step(alloc, tree, &step)?;
    assert!(rt; is_wanted(alloc, &answer, wanted)?, "at {row}");
    Ok(())
}

#[test]
fn steps_answer_as_the_table_says(rt: HostRuntime) -> Result<(), Fail> {
    for table in [MOVES, GOING, ATTRIBUTES, LENGTHS] {
        let mut tree = MemoryTree::new(rt.alloc())?;
        for row in table.split('\n') {
            do_row(&rt, rt.alloc(), &mut tree, row)?;
        }
    }
    Ok(())
}

/// A path of `/v` and then so many times `/d`.
fn deep_path(alloc: Global, depth: usize) -> Result<Path, AllocError> {
    let mut names = Vec::new(alloc);
    names.push(name_of(alloc, "v")?)?;
    for _ in 0..depth {
        names.push(name_of(alloc, "d")?)?;
    }
    Ok(Path::new(names))
}

fn is_done(alloc: Global, tree: &mut MemoryTree, step: &TreeStep) -> Result<bool, AllocError> {
    let answer = do_step(alloc, tree, step)?;
    is_wanted(alloc, &answer, "done")
}

/// Makes the directory of a deep path.
fn make_one(alloc: Global, tree: &mut MemoryTree, depth: usize) -> Result<bool, AllocError> {
    let path = deep_path(alloc, depth)?;
    let step = TreeStep::Basic(Step::Mkdir { path });
    is_done(alloc, tree, &step)
}

/// The directories of a deep path, from the volume on.
fn make_deep(alloc: Global, tree: &mut MemoryTree, depth: usize) -> Result<bool, AllocError> {
    for i in 0..depth {
        if !make_one(alloc, tree, i)? {
            return Ok(false);
        }
    }
    Ok(true)
}

/// Whether a move answers so.
fn moves_so(
    alloc: Global,
    tree: &mut MemoryTree,
    from: &str,
    to: &str,
    wanted: &str,
) -> Result<bool, AllocError> {
    let step = move_step(alloc, from, to)?;
    let answer = do_step(alloc, tree, &step)?;
    is_wanted(alloc, &answer, wanted)
}

// The path of 64 names may move to one of 64, and not to one of 65.
#[test]
fn no_move_makes_a_path_too_deep(rt: HostRuntime) -> Result<(), Fail> {
    let alloc = rt.alloc();
    let mut tree = MemoryTree::new(alloc)?;
    assert!(rt; make_deep(alloc, &mut tree, 64)?);
    assert!(rt; moves_so(alloc, &mut tree, "/v/d", "/v/e", "done")?);
    assert!(rt; make_one(alloc, &mut tree, 1)?);
    assert!(rt; moves_so(alloc, &mut tree, "/v/e", "/v/d/e", "toolong")?);
    assert!(rt; moves_so(alloc, &mut tree, "/v/e", "/v/d", "exists")?);
    Ok(())
}

#[test]
fn the_root_alone_is_empty(rt: HostRuntime) -> Result<(), Fail> {
    fx_plain::size_laws();
    let tree = MemoryTree::new(rt.alloc())?;
    let none = Sizes {
        nodes: 0,
        attributes: 0,
        blocks: 0,
    };
    assert_eq!(rt; tree.sizes(), none);
    Ok(())
}

#[test]
fn copies_of_steps_are_the_same(rt: HostRuntime) -> Result<(), Fail> {
    let step = path_step("mkdir", path_of(rt.alloc(), "/v")?);
    let mut steps = Vec::new(rt.alloc());
    steps.push(step.clone()?)?;
    let steps = TreeSteps::new(steps);
    let mut tree = MemoryTree::new(rt.alloc())?;
    for step in steps.as_slice() {
        assert!(rt; is_done(rt.alloc(), &mut tree, step)?);
    }
    tree_laws();
    change_laws();
    leave_laws();
    size_laws();
    line_laws();
    Ok(())
}
