//! Steps that are planned over batches, of which each holds the items of one step, and done on a tree
//! in memory. A row is a step in words, an arrow, and `done` or the refusal's word.
ghost use Rattle.std.specs.Prelude.{◌≡◌, ◌≤◌, true, length, All, IfOk, IsTrue};
ghost use Rattle.std.specs.List.{AllByRecursion};
ghost use Rattle.fx_item.specs.Item.{IsItem, items_of};
ghost use Rattle.fx_item.specs.Name.{is_name};
ghost use Rattle.fx_plain.specs.declared.path.TheConstants.{MAX_NAMES};
ghost use Rattle.fx_tree.specs.Planned.{IsOrderedPlan};

use crate::{
    StepPlanned, answer_attr, answer_list, plan_create, plan_del_attr, plan_mkdir, plan_remove,
    plan_set_attr,
};
use fx_batch::Batch;
use fx_item::{Bytes, Items, Look, LookFault, MAX_TEXT, Name, is_name};
use fx_layerset::{LayerSet, Layers, LevelList};
use fx_memtree::MemoryTree;
use fx_plain::{Answer, MAX_NAMES, Path, Step};
use fx_steps::{StepRefusal, TreeStep};
use std::alloc::{AllocError, Global};
use std::process::Abort;
use std::sync::Arc;
use std::test::Fail;

const NAMES: &str = "mkdir / -> exists
create / -> notvolume
create /x -> notvolume
rm / -> notvolume
mkdir /v/d -> notfound
mkdir /v -> done
mkdir /v -> exists
create /v -> notvolume
create /v/a -> done
create /v/a -> exists
mkdir /v/a -> exists
mkdir /v/a/b -> notdir
mkdir /v/d -> done
create /v/d/f -> done
rm /v/d -> notempty
rm /v -> notempty
rm /v/x -> notfound
rm /w/x -> notfound
rm /v/a/x -> notdir
rm /v/d/f -> done
rm /v/d -> done
rm /v/d -> notfound
mkdir /v/d/e -> notfound
mkdir /v/d -> done
create /v/d/g -> done
rm /v/d/g -> done
rm /v/a -> done
create /v/a -> done
mkdir /u -> done
mkdir /u/a -> done
rm /u/a -> done
rm /u -> done
mkdir /u -> done";

const ATTRIBUTES: &str = "setattr / k v -> notvolume
delattr / k -> notvolume
mkdir /v -> done
setattr /v/x k v -> notfound
delattr /v/x k -> notfound
delattr /v k -> noattr
setattr /v k one -> done
setattr /v k two -> done
delattr /v l -> noattr
delattr /v k -> done
delattr /v k -> noattr
create /v/f -> done
setattr /v/f k v -> done
setattr /v/f/x k v -> notdir
delattr /v/f/x k -> notdir
rm /v/f -> done
delattr /v/f k -> notfound
create /v/f -> done
delattr /v/f k -> noattr";

/// What is listed and told.
const TOLD: &str = "mkdir /w -> done
mkdir /v -> done
create /v/b -> done
create /v/a -> done
mkdir /v/ab -> done
rm /v/b -> done
setattr /v k one -> done
setattr /v/a k two -> done
setattr /v/a k three -> done
setattr /w k four -> done
delattr /w k -> done";

/// Goes on after the names.
const AFTERWARDS: &str = "mkdir /v -> exists
create /v/a -> exists
rm /v/d/g -> notfound
rm /v -> notempty
create /v/d/f -> done
rm /v/d -> notempty
rm /u -> done
rm /u -> notfound";

fn path_of(alloc: Global, text: &str) -> Result<Path, AllocError> {
    let mut names = Vec::new(alloc);
    for name in text.split('/') {
        if !name.is_empty() {
            names.push(Name::new(Vec::from_slice(alloc, name.as_bytes())?))?;
        }
    }
    Ok(Path::new(names))
}

/// The first word, and what stands behind it.
fn first_word(text: &str) -> (&str, &str) {
    match text.split_once(' ') {
        Some((word, rest)) => (word, rest),
        None => (text, ""),
    }
}

/// A step whose word has a path alone behind it; for any other word, a removal.
fn path_step(word: &str, path: Path) -> TreeStep {
    if word == "mkdir" {
        return TreeStep::Basic(Step::Mkdir { path });
    }
    if word == "create" {
        return TreeStep::Basic(Step::Create { path });
    }
    TreeStep::Remove { path }
}

fn step_of(alloc: Global, text: &str) -> Result<TreeStep, AllocError> {
    let (word, words) = first_word(text);
    let (path, rest) = first_word(words);
    let (name, value) = first_word(rest);
    let path = path_of(alloc, path)?;
    if rest.is_empty() {
        return Ok(path_step(word, path));
    }
    let name = Name::new(Vec::from_slice(alloc, name.as_bytes())?);
    if value.is_empty() {
        return Ok(TreeStep::DelAttr { path, name });
    }
    let value = Bytes::new(Vec::from_slice(alloc, value.as_bytes())?);
    Ok(TreeStep::SetAttr { path, name, value })
}

/// Whether each of these may name a node.
fn are_names(names: &[Name]) -> bool
    ensures { IsTrue result → AllByRecursion (λ name. is_name name ≡ true) names.now }
{
    names.iter().all(|name| is_name(name.as_slice()))
}

/// Whether the path has few names, of which each may name a node.
fn is_path(path: &Path) -> bool
    ensures names { IsTrue result → AllByRecursion (λ name. is_name name ≡ true) path.now }
    ensures few { IsTrue result → length path.now ≤ MAX_NAMES }
{
    if path.len() > MAX_NAMES {
        return false;
    }
    are_names(path.as_slice())
}

fn plan_basic<L: Look>(
    alloc: Global,
    look: &L,
    step: &Step,
    given: u32,
) -> Result<StepPlanned, LookFault>
    ensures { IfOk result IsOrderedPlan }
{
    match step {
        Step::Mkdir { path } if is_path(path) => {
            plan_mkdir(alloc, look, path, u64::from(given), given)
        }
        Step::Create { path } if is_path(path) => {
            plan_create(alloc, look, path, u64::from(given), given)
        }
        _ => Err(LookFault::OutOfMemory),
    }
}

fn plan_set<L: Look>(
    alloc: Global,
    look: &L,
    path: &Path,
    name: &Name,
    value: &Bytes,
) -> Result<StepPlanned, LookFault>
    ensures { IfOk result IsOrderedPlan }
{
    let text = value.as_slice();
    if text.is_empty() || text.len() > MAX_TEXT || !is_name(name.as_slice()) {
        return Err(LookFault::OutOfMemory);
    }
    plan_set_attr(alloc, look, path, name, value)
}

fn plan_unset<L: Look>(
    alloc: Global,
    look: &L,
    path: &Path,
    name: &Name,
) -> Result<StepPlanned, LookFault>
    ensures { IfOk result IsOrderedPlan }
{
    if !is_name(name.as_slice()) {
        return Err(LookFault::OutOfMemory);
    }
    plan_del_attr(alloc, look, path, name)
}

fn plan_step<L: Look>(
    alloc: Global,
    look: &L,
    step: &TreeStep,
    given: u32,
) -> Result<StepPlanned, LookFault>
    ensures { IfOk result IsOrderedPlan }
{
    match step {
        TreeStep::Basic(step) => plan_basic(alloc, look, step, given),
        TreeStep::Remove { path } if is_path(path) => plan_remove(alloc, look, path),
        TreeStep::SetAttr { path, name, value } => plan_set(alloc, look, path, name, value),
        TreeStep::DelAttr { path, name } => plan_unset(alloc, look, path, name),
        _ => Err(LookFault::OutOfMemory),
    }
}

/// One more batch, of these items.
fn commit(alloc: Global, set: &mut LayerSet<Batch>, items: Items) -> Result<(), AllocError>
    requires { All IsItem (items_of items) }
{
    if items.len() >= 1 << 32 {
        return Err(AllocError);
    }
    let Ok(batch) = Batch::build(items) else {
        return Err(AllocError);
    };
    let batch = Arc::new(alloc, batch)?;
    set.reserve(1)?;
    set.push(batch);
    Ok(())
}

/// Plans the step over the batches and puts its items there. What it came to.
fn do_planned(
    alloc: Global,
    set: &mut LayerSet<Batch>,
    step: &TreeStep,
    given: u32,
) -> Result<&'static str, LookFault> {
    match plan_step(alloc, set, step, given)? {
        StepPlanned::Refused(refusal) => Ok(refusal.word()),
        StepPlanned::Fine(items) => {
            commit(alloc, set, items)?;
            Ok("done")
        }
    }
}

/// Does the step on a tree in memory. What it came to.
fn do_step(
    alloc: Global,
    tree: &mut MemoryTree,
    step: &TreeStep,
) -> Result<&'static str, AllocError> {
    if !tree.is_countable() {
        return Err(AllocError);
    }
    match tree.step(alloc, step)? {
        Ok(_) => Ok("done"),
        Err(refusal) => Ok(refusal.word()),
    }
}

fn do_row(
    rt: &impl Abort,
    alloc: Global,
    set: &mut LayerSet<Batch>,
    tree: &mut MemoryTree,
    row: &str,
    given: u32,
) -> Result<(), Fail> {
    let (text, wanted) = row.split_once(" -> ").ok_or("no arrow")?;
    let step = step_of(alloc, text)?;
    assert_eq!(rt; do_planned(alloc, set, &step, given)?, wanted, "at {row}");
    assert_eq!(rt; do_step(alloc, tree, &step)?, wanted, "in memory at {row}");
    Ok(())
}

fn empty_set(alloc: Global) -> LayerSet<Batch> {
    LayerSet::new(
        alloc,
        Layers {
            objects: LevelList::new(Vec::new(alloc)),
            allocs: LevelList::new(Vec::new(alloc)),
        },
    )
}

/// Does the rows; each new node has the number of its row.
fn do_rows(
    rt: &impl Abort,
    alloc: Global,
    set: &mut LayerSet<Batch>,
    tree: &mut MemoryTree,
    rows: &str,
) -> Result<(), Fail> {
    for (row, given) in rows.lines().zip(1..1000) {
        do_row(rt, alloc, set, tree, row, given)?;
    }
    Ok(())
}

/// Both answer the same, as text.
fn same_answer(
    rt: &impl Abort,
    alloc: Global,
    tree: &mut MemoryTree,
    step: &TreeStep,
    found: Result<Answer, StepRefusal>,
) -> Result<(), Fail> {
    if !tree.is_countable() {
        return Ok(());
    }
    let wanted = tree.step(alloc, step)?;
    let found = format!(in alloc; "{found:?}")?;
    assert_eq!(rt; found, format!(in alloc; "{wanted:?}")?);
    Ok(())
}

/// The directory of the path has the same names.
fn lists_alike(
    rt: &impl Abort,
    alloc: Global,
    set: &LayerSet<Batch>,
    tree: &mut MemoryTree,
    text: &str,
) -> Result<(), Fail> {
    let path = path_of(alloc, text)?;
    let found = answer_list(alloc, set, &path)?;
    same_answer(
        rt,
        alloc,
        tree,
        &TreeStep::Basic(Step::List { path }),
        found,
    )
}

/// The node of the path has the same attribute `k`.
fn tells_alike(
    rt: &impl Abort,
    alloc: Global,
    set: &LayerSet<Batch>,
    tree: &mut MemoryTree,
    text: &str,
) -> Result<(), Fail> {
    let path = path_of(alloc, text)?;
    let name = Name::new(Vec::from_slice(alloc, b"k")?);
    let found = answer_attr(alloc, set, &path, &name)?;
    same_answer(rt, alloc, tree, &TreeStep::GetAttr { path, name }, found)
}

#[test]
fn answers_are_those_of_the_tree(rt: HostRuntime) -> Result<(), Fail> {
    let mut set = empty_set(rt.alloc());
    let mut tree = MemoryTree::new(rt.alloc())?;
    do_rows(&rt, rt.alloc(), &mut set, &mut tree, TOLD)?;
    for path in ["/", "/v", "/w", "/v/a", "/v/a/x", "/v/none", "/none/x"] {
        lists_alike(&rt, rt.alloc(), &set, &mut tree, path)?;
        tells_alike(&rt, rt.alloc(), &set, &mut tree, path)?;
    }
    Ok(())
}

#[test]
fn plans_answer_as_the_tree(rt: HostRuntime) -> Result<(), Fail> {
    for table in [NAMES, ATTRIBUTES] {
        let mut set = empty_set(rt.alloc());
        let mut tree = MemoryTree::new(rt.alloc())?;
        do_rows(&rt, rt.alloc(), &mut set, &mut tree, table)?;
    }
    Ok(())
}

/// The same where all batches are merged into one.
#[test]
fn one_batch_says_the_same(rt: HostRuntime) -> Result<(), Fail> {
    let mut set = empty_set(rt.alloc());
    let mut tree = MemoryTree::new(rt.alloc())?;
    do_rows(&rt, rt.alloc(), &mut set, &mut tree, NAMES)?;
    let merged = set.merged_batches(rt.alloc())?;
    let mut one = empty_set(rt.alloc());
    one.reserve(1)?;
    one.push(Arc::new(rt.alloc(), merged)?);
    for row in AFTERWARDS.lines() {
        do_row(&rt, rt.alloc(), &mut one, &mut tree, row, 1000)?;
    }
    Ok(())
}
