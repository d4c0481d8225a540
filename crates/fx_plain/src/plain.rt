//! The tree in memory, and what a step does to it.
ghost use Rattle.std.specs.Prelude.{ℕ, ◌↔◌, Contains, IsSome, IsTrue, option_map, List, [], ◌∷◌, ◌++◌, ◌≡◌, ◌≢◌, ◌+◌, ◌^◌, ◌<◌, ◌≤◌, true, false, sum_by, length, slice_set as set, option_copied, None, Some, Ok, Err, OnOk, OnErr, IfOk, MatchOption, MatchResult, if◌then◌else◌};
ghost use Rattle.std.specs.FinMap as map;
ghost use Rattle.fx_plain.specs.Node.{Node, File, Attributes, empty_dir, Contents, written};
ghost use Rattle.std.specs.BTreeMap.{values};
ghost use Rattle.fx_plain.specs.Tree.{IsCountable, IsTree, Tree, children, attribute_count, held_count, node_count, root, sizes_of};
ghost use Rattle.fx_plain.specs.declared.step.Step.{Step};
ghost use Rattle.fx_plain.specs.declared.step.Answer.{Answer};
ghost use Rattle.fx_plain.specs.declared.step.Refusal.{Refusal};
ghost use Rattle.fx_plain.specs.Table.{create, do_step, is_reading, list_at, mkdir, obstacle, place, read_at, refused, stat_at, walk, write_at};
ghost use Rattle.fx_plain.specs.Memory.{file_at};
ghost use Rattle.fx_plain.specs.Bare.{IsCreated, IsPlaced, IsWritten, bare, bare_node};
ghost use Rattle.fx_item.specs.Name.{name_cmp};
ghost use Rattle.fx_plain.specs.declared.step.Step.TheVariants.{Mkdir, Create, Write};
ghost use Rattle.std.specs.List.Sorted.{IsStrictlySortedBy};
ghost use Rattle.fx_plain.specs.Listing.{NextName, IsChildPath, IsFirst, children_from, paths_from};
ghost use Rattle.fx_plain.specs.Growth.{Grows, SizesWithin, new_nodes, tree_after_steps};

use crate::contents::{Contents, MAX_FILE, MAX_READ};
use crate::kind::Kind;
use crate::names::Names;
use crate::node::Node;
use crate::step::{Answer, Refusal, Step};
use fx_item::{Name, Sizes};
use std::alloc::{AllocError, Global};
use std::collections::BTreeMap;
use std::marker::Model;

/// A tree in memory: what lies at each path, in a sorted map.
#[derive(Debug, Drop)]
pub struct Plain {
    nodes: BTreeMap<Vec<Name>, Node>,
}

impl Model for Plain {
    ghost use Rattle.fx_plain.specs.Tree.{Tree};
    ghost use Rattle.fx_plain.specs.Codes.{tree_code};
    ghost use Rattle.fx_plain.specs.Memory.{tree_of};

    ghost Value = { Tree };

    ghost coded = { tree_code };

    ghost view = { λ p. tree_of p.nodes.entries };
}

impl Plain {
    /// The root alone.
    pub fn new(alloc: Global) -> Result<Plain, AllocError>
        ensures { IfOk result (λ plain. plain ≡ root) }
    {
        let mut nodes = BTreeMap::new(alloc);
        nodes.insert(Vec::new(alloc), Node::dir())?;
        Ok(Plain { nodes })
    }

    /// Does the step, or refuses it and leaves the tree as it was. An `Err`, for want of memory,
    /// leaves the tree as it was too; a count past 32 bits is no reason for one. Costs the depth of
    /// the path times the logarithm of the number of nodes, and the bytes that are written, or read
    /// and answered; at a directory, to list it or to tell of it costs a look-up for each child.
    pub fn step(
        &mut self,
        alloc: Global,
        step: &Step,
    ) -> Result<Result<Answer, Refusal>, AllocError>
        requires { IsCountable self.old }
        ensures ok { IfOk result (λ answer. do_step self.old step.now ≡ (answer, self.new)) }
        ensures err { OnErr result (self.new ≡ self.old) }
    {
        match step {
            Step::Mkdir { path } => self.mkdir(alloc, path.as_slice()),
            Step::Create { path } => self.create(alloc, path.as_slice()),
            Step::Write { path, at, text } => self.write(path.as_slice(), *at, text.as_slice()),
            Step::Read { path, at, count } => self.read(alloc, path.as_slice(), *at, *count),
            Step::List { path } => self.list(alloc, path.as_slice()),
            Step::Stat { path } => self.stat(alloc, path.as_slice()),
        }
    }

    /// Whether it has fewer than 2^32 nodes, the root among them.
    pub fn is_countable(&self) -> bool
        ensures { IsTrue result ↔ IsCountable self.now }
    {
        self.nodes.len() < 1 << 32
    }

    /// What the tree holds. One pass over the nodes and the blocks of the files.
    pub fn sizes(&self) -> Sizes
        requires nodes { (sizes_of self.now).nodes < 2 ^ 32 }
        requires attributes { (sizes_of self.now).attributes < 2 ^ 32 }
        requires blocks { (sizes_of self.now).blocks < 2 ^ 32 }
        ensures { result ≡ sizes_of self.now }
    {
        Sizes {
            nodes: self.nodes.len().saturating_sub(1) as u32,
            attributes: attributes_of(&self.nodes) as u32,
            blocks: blocks_of(&self.nodes) as u32,
        }
    }

    /// What refuses a step on this tree; nothing where it would be done. Takes no memory. Costs the
    /// depth of the path times the logarithm of the number of nodes.
    pub fn refusal(&self, step: &Step) -> Option<Refusal>
        ensures { result ≡ refused (do_step self.now step.now).0 }
    {
        match step {
            Step::Mkdir { path } => self.mkdir_refusal(path.as_slice()),
            Step::Create { path } => self.create_refusal(path.as_slice()),
            Step::Write { path, at, text } => {
                self.write_refusal(path.as_slice(), *at, text.as_slice())
            }
            Step::Read { path, at, count } => self.read_refusal(path.as_slice(), *at, *count),
            Step::List { path } => self.list_refusal(path.as_slice()),
            Step::Stat { path } => self.stat_refusal(path.as_slice()),
        }
    }

    fn mkdir_refusal(&self, path: &[Name]) -> Option<Refusal>
        ensures { result ≡ refused (mkdir self.now path.now).0 }
    {
        if path.is_empty() {
            return Some(Refusal::Exists);
        }
        self.place_refusal(path)
    }

    fn create_refusal(&self, path: &[Name]) -> Option<Refusal>
        ensures { result ≡ refused (create self.now path.now).0 }
    {
        if path.len() < 2 {
            return Some(Refusal::NotVolume);
        }
        self.place_refusal(path)
    }

    /// What keeps a new node from a path.
    fn place_refusal(&self, path: &[Name]) -> Option<Refusal>
        ensures { (node : Node) →
            result ≡ refused
            (place self.now path.now node (walk self.now path.now) (map.get self.now path.now)).0 }
    {
        if let Some(refusal) = self.walk(path) {
            return Some(refusal);
        }
        if self.get(path).is_some() {
            return Some(Refusal::Exists);
        }
        None
    }

    fn write_refusal(&self, path: &[Name], at: u32, text: &[u8]) -> Option<Refusal>
        ensures { result ≡ refused
            (write_at self.now path.now at text.now (walk self.now path.now)
            (map.get self.now path.now)).0 }
    {
        if let Err(refusal) = self.file(path) {
            return Some(refusal);
        }
        if at as usize + text.len() > MAX_FILE {
            return Some(Refusal::TooLong);
        }
        None
    }

    fn read_refusal(&self, path: &[Name], at: u32, count: u32) -> Option<Refusal>
        ensures { result ≡ refused
            (read_at at count (walk self.now path.now) (map.get self.now path.now)) }
    {
        if let Err(refusal) = self.file(path) {
            return Some(refusal);
        }
        if count as usize > MAX_READ {
            return Some(Refusal::TooLong);
        }
        None
    }

    fn list_refusal(&self, path: &[Name]) -> Option<Refusal>
        ensures { result ≡ refused
            (list_at self.now path.now (walk self.now path.now) (map.get self.now path.now)) }
    {
        if let Some(refusal) = self.walk(path) {
            return Some(refusal);
        }
        self.obstacle(path)
    }

    fn stat_refusal(&self, path: &[Name]) -> Option<Refusal>
        ensures { result ≡ refused
            (stat_at self.now path.now (walk self.now path.now) (map.get self.now path.now)) }
    {
        if let Some(refusal) = self.walk(path) {
            return Some(refusal);
        }
        if self.get(path).is_none() {
            return Some(Refusal::NotFound);
        }
        None
    }

    /// Makes a directory.
    fn mkdir(&mut self, alloc: Global, path: &[Name]) -> Result<Result<Answer, Refusal>, AllocError>
        ensures ok { IfOk result (λ answer. mkdir self.old path.now ≡ (answer, self.new)) }
        ensures err { OnErr result (self.new ≡ self.old) }
    {
        if let Some(refusal) = self.mkdir_refusal(path) {
            return Ok(Err(refusal));
        }
        self.insert(alloc, path, Node::dir())?;
        Ok(Ok(Answer::Done))
    }

    /// Makes an empty file.
    fn create(
        &mut self,
        alloc: Global,
        path: &[Name],
    ) -> Result<Result<Answer, Refusal>, AllocError>
        ensures ok { IfOk result (λ answer. create self.old path.now ≡ (answer, self.new)) }
        ensures err { OnErr result (self.new ≡ self.old) }
    {
        if let Some(refusal) = self.create_refusal(path) {
            return Ok(Err(refusal));
        }
        let node = Node::file(alloc)?;
        self.insert(alloc, path, node)?;
        Ok(Ok(Answer::Done))
    }

    /// Writes the text into the file at a path, from byte `at` on.
    fn write(
        &mut self,
        path: &[Name],
        at: u32,
        text: &[u8],
    ) -> Result<Result<Answer, Refusal>, AllocError>
        ensures ok { IfOk result
            (λ answer.
            write_at self.old path.now at text.now (walk self.old path.now)
            (map.get self.old path.now) ≡ (answer, self.new)) }
        ensures err { OnErr result (self.new ≡ self.old) }
    {
        if let Some(refusal) = self.walk(path) {
            return Ok(Err(refusal));
        }
        let Some(node) = self.nodes.get_mut(path) else {
            return Ok(Err(Refusal::NotFound));
        };
        node.write(at, text)
    }

    /// Reads at most `count` bytes of the file at a path, from byte `at` on.
    fn read(
        &self,
        alloc: Global,
        path: &[Name],
        at: u32,
        count: u32,
    ) -> Result<Result<Answer, Refusal>, AllocError>
        ensures { IfOk result
            (λ answer.
            read_at at count (walk self.now path.now) (map.get self.now path.now) ≡ answer) }
    {
        let contents = match self.file(path) {
            Ok(contents) => contents,
            Err(refusal) => return Ok(Err(refusal)),
        };
        let count = count as usize;
        if count > MAX_READ {
            return Ok(Err(Refusal::TooLong));
        }
        let text = contents.read(alloc, at as usize, count)?;
        Ok(Ok(Answer::Text(text)))
    }

    /// Names what lies in the directory at a path.
    fn list(&self, alloc: Global, path: &[Name]) -> Result<Result<Answer, Refusal>, AllocError>
        ensures { IfOk result
            (λ answer.
            list_at self.now path.now (walk self.now path.now) (map.get self.now path.now)
            ≡ answer) }
    {
        if let Some(refusal) = self.walk(path) {
            return Ok(Err(refusal));
        }
        if let Some(refusal) = self.obstacle(path) {
            return Ok(Err(refusal));
        }
        let names = self.children(alloc, path)?;
        Ok(Ok(Answer::Names(Names::new(names))))
    }

    /// Tells what lies at a path.
    fn stat(&self, alloc: Global, path: &[Name]) -> Result<Result<Answer, Refusal>, AllocError>
        requires { IsCountable self.now }
        ensures { IfOk result
            (λ answer.
            stat_at self.now path.now (walk self.now path.now) (map.get self.now path.now)
            ≡ answer) }
    {
        if let Some(refusal) = self.walk(path) {
            return Ok(Err(refusal));
        }
        let Some(node) = self.get(path) else {
            return Ok(Err(Refusal::NotFound));
        };
        let Some(contents) = node.contents() else {
            let names = self.children(alloc, path)?;
            return Ok(Ok(Answer::Stat {
                kind: Kind::Dir,
                size: names.len() as u32,
                blocks: 0,
            }));
        };
        Ok(Ok(Answer::Stat {
            kind: Kind::File,
            size: contents.len() as u32,
            blocks: contents.held() as u32,
        }))
    }

    /// The names of the children of the directory at a path, in the order of their bytes. What
    /// lies below a child is passed over, so it costs a look-up for each child.
    fn children(&self, alloc: Global, path: &[Name]) -> Result<Vec<Name>, AllocError>
        ensures { IfOk result (λ names. names.items ≡ children self.now path.now) }
    {
        let mut names = Vec::new(alloc);
        let mut from = path.to_vec(alloc)?;
        from.push(Name::new(Vec::new(alloc)))?;
        while let Some((name, is_child)) = self.next_below(path, &from) {
            keep(&mut names, name, is_child)?;
            go_past(&mut from, path.len(), name.as_slice())?;
        }
        Ok(names)
    }

    /// The name with which the first path from `from` on goes on from the directory at `path`, and
    /// whether it ends there.
    fn next_below(&self, path: &[Name], from: &Vec<Name>) -> Option<(&Name, bool)>
        requires { IsChildPath path.now from.now.items }
        ensures { MatchOption result (children_from self.now path.now from.now.items ≡ [])
            (λ next. NextName self.now path.now from.now.items next.0.now next.1) }
    {
        let Some(found) = self.first_from(from) else {
            return None;
        };
        let Some(below) = found.strip_prefix(path) else {
            return None;
        };
        let Some((name, deeper)) = below.split_first() else {
            return None;
        };
        Some((name, deeper.is_empty()))
    }

    /// The first path from `from` on at which something lies.
    fn first_from(&self, from: &Vec<Name>) -> Option<&Vec<Name>>
        ensures { MatchOption result (paths_from self.now from.now.items ≡ [])
            (λ found. IsFirst found.now.items (paths_from self.now from.now.items)) }
    {
        let Some((path, _)) = self.nodes.range(from..).next() else {
            return None;
        };
        Some(path)
    }

    /// The file at a path, or why there is none.
    fn file(&self, path: &[Name]) -> Result<&Contents, Refusal>
        ensures { MatchResult result
            (λ contents.
            file_at (walk self.now path.now) (map.get self.now path.now) ≡ Ok contents.now)
            (λ refusal.
            file_at (walk self.now path.now) (map.get self.now path.now) ≡ Err refusal) }
    {
        if let Some(refusal) = self.walk(path) {
            return Err(refusal);
        }
        match self.get(path) {
            None => Err(Refusal::NotFound),
            Some(node) => match node.contents() {
                None => Err(Refusal::IsDir),
                Some(contents) => Ok(contents),
            },
        }
    }

    /// What stands in the way of a path, first of all.
    fn walk(&self, path: &[Name]) -> Option<Refusal>
        ensures { result ≡ walk self.now path.now }
    {
        for end in 0..path.len() {
            if let Some(refusal) = self.obstacle(&path[..end]) {
                return Some(refusal);
            }
        }
        None
    }

    /// What stands in the way where a path goes through this one.
    fn obstacle(&self, path: &[Name]) -> Option<Refusal>
        ensures { result ≡ obstacle (map.get self.now path.now) }
    {
        match self.get(path) {
            None => Some(Refusal::NotFound),
            Some(node) => match node.contents() {
                None => None,
                Some(_) => Some(Refusal::NotDir),
            },
        }
    }

    /// What lies at a path.
    fn get(&self, path: &[Name]) -> Option<&Node>
        ensures { option_copied result ≡ map.get self.now path.now }
    {
        self.nodes.get(path)
    }

    /// Puts a node at a path.
    fn insert(&mut self, alloc: Global, path: &[Name], node: Node) -> Result<(), AllocError>
        ensures ok { OnOk result (self.new ≡ map.insert self.old path.now node) }
        ensures err { OnErr result (self.new ≡ self.old) }
    {
        self.nodes.insert(path.to_vec(alloc)?, node)?;
        Ok(())
    }
}

/// Adds the name where it is that of a child.
fn keep(names: &mut Vec<Name>, name: &Name, is_child: bool) -> Result<(), AllocError>
    ensures { OnOk result
        (names.new.items ≡ names.old.items ++ (if is_child then name.now ∷ [] else [])) }
{
    if !is_child {
        return Ok(());
    }
    names.push(name.clone()?)?;
    Ok(())
}

/// Turns the name at this place, which is the last, into the first that begins with another.
fn go_past(from: &mut Vec<Name>, last: usize, name: &[u8]) -> Result<(), AllocError>
    requires { last < length from.old.items }
    ensures { OnOk result (from.new.items ≡ set from.old.items last (name.now ++ 0 ∷ [])) }
{
    let alloc = *from.allocator();
    let mut next = Vec::with_capacity(alloc, name.len() + 1)?;
    next.extend_from_slice(name)?;
    next.push(0)?;
    from[last] = Name::new(next);
    Ok(())
}

/// The attributes of all nodes.
fn attributes_of(nodes: &BTreeMap<Vec<Name>, Node>) -> usize
    requires { sum_by attribute_count (values nodes.now) < 2 ^ 32 }
    ensures { result ≡ sum_by attribute_count (values nodes.now) }
{
    nodes.values().map(|node| node.attributes()).sum()
}

/// The held blocks of all files.
fn blocks_of(nodes: &BTreeMap<Vec<Name>, Node>) -> usize
    requires { sum_by held_count (values nodes.now) < 2 ^ 32 }
    ensures { result ≡ sum_by held_count (values nodes.now) }
{
    nodes.values().map(|node| node.held()).sum()
}

/// The root alone is a tree, and so is what a step leaves of a tree. A step that is refused, and
/// one that reads, leaves all as it was. A step that changes the tree has nothing else to answer,
/// and one that reads always has.
pub fn step_laws()
    ensures root { IsTree root }
    ensures kept { (tree : Tree) (step : Step) → IsTree tree → IsTree (do_step tree step).1 }
    ensures refused { (tree : Tree) (step : Step) (refusal : Refusal)
        → (do_step tree step).0 ≡ Err refusal → (do_step tree step).1 ≡ tree }
    ensures read { (tree : Tree) (step : Step) → is_reading step ≡ true
        → (do_step tree step).1 ≡ tree }
    ensures changed { (tree : Tree) (step : Step) (answer : Answer) → is_reading step ≡ false
        → (do_step tree step).0 ≡ Ok answer → answer ≡ Answer.Done }
    ensures seen { (tree : Tree) (step : Step) → is_reading step ≡ true
        → (do_step tree step).0 ≢ Ok Answer.Done }
{}

/// What a tree is without what its files hold: the same nodes at the same paths, where a file has
/// no bytes and holds no block.
pub fn bare_laws()
    ensures get { (tree : Tree) (path : List (List ℕ))
        → map.get (bare tree) path ≡ option_map bare_node (map.get tree path) }
    ensures root { bare root ≡ root }
    ensures again { (tree : Tree) → bare (bare tree) ≡ bare tree }
    ensures insert { (tree : Tree) (path : List (List ℕ)) (node : Node)
        → bare (map.insert tree path node) ≡ map.insert (bare tree) path (bare_node node) }
{}

/// What a step that is done changes: a new node stands below a directory, at a path where nothing
/// lay; a file holds a text, and the tree without what files hold is the same.
pub fn change_laws()
    ensures mkdir { (tree : Tree) (path : List (List ℕ)) (answer : Answer)
        → (do_step tree (Mkdir path)).0 ≡ Ok answer
        → IsPlaced tree path empty_dir (do_step tree (Mkdir path)).1 }
    ensures create { (tree : Tree) (path : List (List ℕ)) (answer : Answer)
        → (do_step tree (Create path)).0 ≡ Ok answer
        → IsCreated tree path (do_step tree (Create path)).1 }
    ensures write { (tree : Tree) (path : List (List ℕ)) (at : ℕ) (text : List ℕ) (answer : Answer)
        → IsTree tree → (do_step tree (Write path at text)).0 ≡ Ok answer
        → IsWritten tree path at text (do_step tree (Write path at text)).1 }
{}

/// The names of a directory's children, as a step lists them: each once, in the order of their
/// bytes, and those at whose path something lies.
pub fn children_laws()
    ensures there { (tree : Tree) (path : List (List ℕ)) (name : List ℕ)
        → Contains (children tree path) name ↔ IsSome (map.get tree (path ++ name ∷ [])) }
    ensures rise { (tree : Tree) (path : List (List ℕ))
        → IsStrictlySortedBy name_cmp (children tree path) }
{}

/// A step adds at most one node, as an insertion does, at most the blocks of a text that it writes
/// and at most those of one file, and no attributes. So after `n` steps from the root alone there
/// are at most `n` nodes and `4096 n` held blocks.
pub fn size_laws()
    ensures counted { (tree : Tree) (step : Step)
        → node_count (do_step tree step).1 ≤ node_count tree + new_nodes step }
    ensures single { node_count root ≡ 1 }
    ensures inserted { (tree : Tree) (path : List (List ℕ)) (node : Node)
        → node_count (map.insert tree path node) ≤ node_count tree + 1 }
    ensures grows { (tree : Tree) (step : Step)
        → Grows step (sizes_of tree) (sizes_of (do_step tree step).1) }
    ensures root { SizesWithin 0 (sizes_of root) }
    ensures within { (steps : List Step)
        → SizesWithin (length steps) (sizes_of (tree_after_steps root steps)) }
{}
