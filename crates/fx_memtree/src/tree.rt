//! The tree in memory, and what a step does to it.
ghost use Rattle.std.specs.Prelude.{ℕ, ◌↔◌, IsSome, IsTrue, List, [], ◌∷◌, ◌++◌, ◌≡◌, ◌^◌, ◌<◌, false, sum_by, length, take, slice_set as set, option_copied, Ok, Err, OnOk, OnErr, IfOk, MatchOption, MatchResult, if◌then◌else◌};
ghost use Rattle.std.specs.FinMap as map;
ghost use Rattle.fx_plain.specs.Node.{Node};
ghost use Rattle.std.specs.BTreeMap.{values};
ghost use Rattle.fx_plain.specs.Tree.{IsCountable, Tree, children, attribute_count, held_count, root, sizes_of};
ghost use Rattle.fx_plain.specs.Table.{create, list_at, mkdir, obstacle, place, read_at, refused, stat_at, walk};
ghost use Rattle.fx_plain.specs.Memory.{file_at};
ghost use Rattle.fx_plain.specs.Listing.{NextName, IsChildPath, IsFirst, children_from, paths_from};
ghost use Rattle.fx_steps.specs.Moved.{has_below, lies_below};
ghost use Rattle.fx_steps.specs.Rows.{do_tree_step, get_attr_at, move_apart, remove_step, rename_step};
ghost use Rattle.fx_memtree.specs.Memory.{step_at_node, step_below_root};
ghost use Rattle.fx_memtree.specs.Carried.{carried_all, carries_of, put_in_place, with_held_places, without_held_places};

use crate::carry::{Carry, carry_of, is_too_deep};
use crate::contents::Contents;
use crate::node::{Node, basic};
use fx_item::{Name, Sizes};
use fx_plain::{Answer, Kind, MAX_READ, Names, Refusal, Step};
use fx_steps::{StepRefusal, TreeStep};
use std::alloc::{AllocError, Global};
use std::collections::BTreeMap;
use std::marker::Model;

/// A tree in memory: what lies at each path, in a sorted map.
#[derive(Debug, Drop)]
pub struct MemoryTree {
    nodes: BTreeMap<Vec<Name>, Node>,
}

impl Model for MemoryTree {
    ghost use Rattle.fx_plain.specs.Tree.{Tree};
    ghost use Rattle.fx_plain.specs.Codes.{tree_code};
    ghost use Rattle.fx_plain.specs.Memory.{tree_of};

    ghost Value = { Tree };

    ghost coded = { tree_code };

    ghost view = { λ p. tree_of p.nodes.entries };
}

impl MemoryTree {
    /// The root alone.
    pub fn new(alloc: Global) -> Result<MemoryTree, AllocError>
        ensures { IfOk result (λ tree. tree ≡ root) }
    {
        let mut nodes = BTreeMap::new(alloc);
        nodes.insert(Vec::new(alloc), Node::dir(alloc))?;
        Ok(MemoryTree { nodes })
    }

    /// Does the step, or refuses it and leaves the tree as it was. An `Err`, for want of memory,
    /// leaves the tree as it was too; a count past 32 bits is no reason for one. Costs the depth of
    /// the path times the logarithm of the number of nodes, and the bytes that are written, or read
    /// and answered; at a directory, to list it, to tell of it or to remove it costs a look-up for
    /// each child, and to move it one for each node that moves.
    pub fn step(
        &mut self,
        alloc: Global,
        step: &TreeStep,
    ) -> Result<Result<Answer, StepRefusal>, AllocError>
        requires { IsCountable self.old }
        ensures ok { IfOk result
            (λ answer. do_tree_step self.old step.now ≡ (answer, self.new)) }
        ensures err { OnErr result (self.new ≡ self.old) }
    {
        match step {
            TreeStep::Basic(basic) => self.basic_step(alloc, step, basic),
            TreeStep::Truncate { path, .. } => self.at_node(path.as_slice(), step),
            TreeStep::Remove { path } => self.remove(alloc, path.as_slice()),
            TreeStep::Rename { from, to } => self.rename(alloc, from.as_slice(), to.as_slice()),
            TreeStep::SetAttr { path, .. } => self.below_root(path.as_slice(), step),
            TreeStep::DelAttr { path, .. } => self.below_root(path.as_slice(), step),
            TreeStep::GetAttr { path, name } => self.tell_attribute(path.as_slice(), name),
        }
    }

    /// Does a basic step, which is `one`.
    fn basic_step(
        &mut self,
        alloc: Global,
        step: &TreeStep,
        one: &Step,
    ) -> Result<Result<Answer, StepRefusal>, AllocError>
        requires countable { IsCountable self.old }
        requires basic { step.now ≡ TreeStep.Basic one.now }
        ensures ok { IfOk result
            (λ answer. do_tree_step self.old (TreeStep.Basic one.now) ≡ (answer, self.new)) }
        ensures err { OnErr result (self.new ≡ self.old) }
    {
        match one {
            Step::Write { path, .. } => self.at_node(path.as_slice(), step),
            Step::Mkdir { path } => {
                let answer = self.mkdir(alloc, path.as_slice())?;
                Ok(basic(answer))
            }
            Step::Create { path } => {
                let answer = self.create(alloc, path.as_slice())?;
                Ok(basic(answer))
            }
            Step::Read { path, at, count } => {
                let answer = self.read(alloc, path.as_slice(), *at, *count)?;
                Ok(basic(answer))
            }
            Step::List { path } => {
                let answer = self.list(alloc, path.as_slice())?;
                Ok(basic(answer))
            }
            Step::Stat { path } => {
                let answer = self.stat(alloc, path.as_slice())?;
                Ok(basic(answer))
            }
        }
    }

    /// Whether it has fewer than 2^32 nodes, the root among them.
    pub fn is_countable(&self) -> bool
        ensures { IsTrue result ↔ IsCountable self.now }
    {
        self.nodes.len() < 1 << 32
    }

    /// What the tree holds. One pass over the nodes and the blocks of the files.
    pub fn sizes(&self) -> Sizes
        requires nodes { (sizes_of self.now).nodes < 2 ^ 32 }
        requires attributes { (sizes_of self.now).attributes < 2 ^ 32 }
        requires blocks { (sizes_of self.now).blocks < 2 ^ 32 }
        ensures { result ≡ sizes_of self.now }
    {
        Sizes {
            nodes: self.nodes.len().saturating_sub(1) as u32,
            attributes: attributes_of(&self.nodes) as u32,
            blocks: blocks_of(&self.nodes) as u32,
        }
    }

    fn mkdir_refusal(&self, path: &[Name]) -> Option<Refusal>
        ensures { result ≡ refused (mkdir self.now path.now).0 }
    {
        if path.is_empty() {
            return Some(Refusal::Exists);
        }
        self.place_refusal(path)
    }

    fn create_refusal(&self, path: &[Name]) -> Option<Refusal>
        ensures { result ≡ refused (create self.now path.now).0 }
    {
        if path.len() < 2 {
            return Some(Refusal::NotVolume);
        }
        self.place_refusal(path)
    }

    /// What keeps a new node from a path.
    fn place_refusal(&self, path: &[Name]) -> Option<Refusal>
        ensures { (node : Node) →
            result ≡ refused
            (place self.now path.now node (walk self.now path.now) (map.get self.now path.now)).0 }
    {
        if let Some(refusal) = self.walk(path) {
            return Some(refusal);
        }
        if self.get(path).is_some() {
            return Some(Refusal::Exists);
        }
        None
    }

    /// Makes a directory.
    fn mkdir(&mut self, alloc: Global, path: &[Name]) -> Result<Result<Answer, Refusal>, AllocError>
        ensures ok { IfOk result (λ answer. mkdir self.old path.now ≡ (answer, self.new)) }
        ensures err { OnErr result (self.new ≡ self.old) }
    {
        if let Some(refusal) = self.mkdir_refusal(path) {
            return Ok(Err(refusal));
        }
        self.insert(alloc, path, Node::dir(alloc))?;
        Ok(Ok(Answer::Done))
    }

    /// Makes an empty file.
    fn create(
        &mut self,
        alloc: Global,
        path: &[Name],
    ) -> Result<Result<Answer, Refusal>, AllocError>
        ensures ok { IfOk result (λ answer. create self.old path.now ≡ (answer, self.new)) }
        ensures err { OnErr result (self.new ≡ self.old) }
    {
        if let Some(refusal) = self.create_refusal(path) {
            return Ok(Err(refusal));
        }
        let node = Node::file(alloc)?;
        self.insert(alloc, path, node)?;
        Ok(Ok(Answer::Done))
    }

    /// Does a step that changes the node at its path.
    fn at_node(
        &mut self,
        path: &[Name],
        step: &TreeStep,
    ) -> Result<Result<Answer, StepRefusal>, AllocError>
        ensures ok { IfOk result
            (λ answer.
            step_at_node self.old path.now step.now (walk self.old path.now)
            (map.get self.old path.now) ≡ (answer, self.new)) }
        ensures err { OnErr result (self.new ≡ self.old) }
    {
        if let Some(refusal) = self.walk(path) {
            return Ok(Err(StepRefusal::Basic(refusal)));
        }
        let Some(node) = self.nodes.get_mut(path) else {
            return Ok(Err(StepRefusal::Basic(Refusal::NotFound)));
        };
        node.step(step)
    }

    /// The same, and it refuses the root.
    fn below_root(
        &mut self,
        path: &[Name],
        step: &TreeStep,
    ) -> Result<Result<Answer, StepRefusal>, AllocError>
        ensures ok { IfOk result
            (λ answer. step_below_root self.old path.now step.now ≡ (answer, self.new)) }
        ensures err { OnErr result (self.new ≡ self.old) }
    {
        if path.is_empty() {
            return Ok(Err(StepRefusal::Basic(Refusal::NotVolume)));
        }
        self.at_node(path, step)
    }

    /// The text of an attribute of the node at a path.
    fn tell_attribute(
        &self,
        path: &[Name],
        name: &Name,
    ) -> Result<Result<Answer, StepRefusal>, AllocError>
        ensures { IfOk result
            (λ answer.
            get_attr_at name.now (walk self.now path.now) (map.get self.now path.now) ≡ answer) }
    {
        if let Some(refusal) = self.walk(path) {
            return Ok(Err(StepRefusal::Basic(refusal)));
        }
        let Some(node) = self.get(path) else {
            return Ok(Err(StepRefusal::Basic(Refusal::NotFound)));
        };
        let Some(value) = node.attribute(name) else {
            return Ok(Err(StepRefusal::NoAttr));
        };
        Ok(Ok(Answer::Text(value.clone()?)))
    }

    /// Takes away what lies at a path, if it is no directory with a child.
    fn remove(
        &mut self,
        alloc: Global,
        path: &[Name],
    ) -> Result<Result<Answer, StepRefusal>, AllocError>
        ensures ok { IfOk result (λ answer. remove_step self.old path.now ≡ (answer, self.new)) }
        ensures err { OnErr result (self.new ≡ self.old) }
    {
        if path.is_empty() {
            return Ok(Err(StepRefusal::Basic(Refusal::NotVolume)));
        }
        if let Some(refusal) = self.walk(path) {
            return Ok(Err(StepRefusal::Basic(refusal)));
        }
        let Some(node) = self.get(path) else {
            return Ok(Err(StepRefusal::Basic(Refusal::NotFound)));
        };
        if node.contents().is_none() {
            let names = self.children(alloc, path)?;
            if !names.is_empty() {
                return Ok(Err(StepRefusal::NotEmpty));
            }
        }
        self.take_away(path);
        Ok(Ok(Answer::Done))
    }

    /// Takes away what lies at a path.
    fn take_away(&mut self, path: &[Name])
        ensures { self.new ≡ map.remove self.old path.now }
    {
        let _ = self.nodes.remove(path);
    }

    /// Moves what lies at a path, and all below it, to another path.
    fn rename(
        &mut self,
        alloc: Global,
        from: &[Name],
        to: &[Name],
    ) -> Result<Result<Answer, StepRefusal>, AllocError>
        ensures ok { IfOk result
            (λ answer. rename_step self.old from.now to.now ≡ (answer, self.new)) }
        ensures err { OnErr result (self.new ≡ self.old) }
    {
        let (Some(volume), Some(other)) = (from.first(), to.first()) else {
            return Ok(Err(StepRefusal::Basic(Refusal::NotVolume)));
        };
        if let Some(refusal) = self.walk(from) {
            return Ok(Err(StepRefusal::Basic(refusal)));
        }
        if self.get(from).is_none() {
            return Ok(Err(StepRefusal::Basic(Refusal::NotFound)));
        }
        if lies_below(from, to) {
            return Ok(Err(StepRefusal::IntoItself));
        }
        if volume != other {
            return Ok(Err(StepRefusal::CrossVolume));
        }
        if let Some(refusal) = self.walk(to) {
            return Ok(Err(StepRefusal::Basic(refusal)));
        }
        self.move_apart(alloc, from, to)
    }

    /// Moves a node to a path that does not lie below it.
    fn move_apart(
        &mut self,
        alloc: Global,
        from: &[Name],
        to: &[Name],
    ) -> Result<Result<Answer, StepRefusal>, AllocError>
        requires there { IsSome (map.get self.old from.now) }
        requires apart { lies_below from.now to.now ≡ false }
        ensures ok { IfOk result
            (λ answer. move_apart self.old from.now to.now ≡ (answer, self.new)) }
        ensures err { OnErr result (self.new ≡ self.old) }
    {
        if self.has_below(alloc, to)? {
            return Ok(Err(StepRefusal::Basic(Refusal::Exists)));
        }
        let carries = self.carries(alloc, from, to)?;
        if is_too_deep(carries.as_slice()) {
            return Ok(Err(StepRefusal::Basic(Refusal::TooLong)));
        }
        if self.make_places(alloc, carries.as_slice()).is_err() {
            self.drop_places(carries.as_slice());
            return Err(AllocError);
        }
        self.carry_all(carries.as_slice());
        Ok(Ok(Answer::Done))
    }

    /// Whether something lies at a path or below it.
    fn has_below(&self, alloc: Global, above: &[Name]) -> Result<bool, AllocError>
        ensures { IfOk result (λ found. found ≡ has_below self.now above.now) }
    {
        let from = above.to_vec(alloc)?;
        let Some(found) = self.first_from(&from) else {
            return Ok(false);
        };
        Ok(lies_below(above, found.as_slice()))
    }

    /// The ways of all nodes at a path and below it, to where they lie once it is moved.
    fn carries(&self, alloc: Global, from: &[Name], to: &[Name]) -> Result<Vec<Carry>, AllocError>
        ensures { IfOk result
            (λ carries. carries.items ≡ carries_of self.now from.now to.now) }
    {
        let mut carries = Vec::new(alloc);
        let first = from.to_vec(alloc)?;
        for (path, _) in self.nodes.range(&first..) {
            if !lies_below(from, path.as_slice()) {
                return Ok(carries);
            }
            carries.push(carry_of(alloc, path, from, to)?)?;
        }
        Ok(carries)
    }

    /// Puts an empty directory at the end of each way.
    fn make_places(&mut self, alloc: Global, carries: &[Carry]) -> Result<(), AllocError>
        ensures ok { OnOk result (self.new ≡ with_held_places self.old carries.now) }
        ensures err { OnErr result
            ((count : ℕ) × (self.new ≡ with_held_places self.old (take count carries.now))) }
    {
        for carry in carries {
            self.insert(alloc, carry.new.as_slice(), Node::dir(alloc))?;
        }
        Ok(())
    }

    /// Takes away what lies at the end of each way.
    fn drop_places(&mut self, carries: &[Carry])
        ensures { self.new ≡ without_held_places self.old carries.now }
    {
        for carry in carries {
            self.take_away(carry.new.as_slice());
        }
    }

    /// Carries each node to the end of its way.
    fn carry_all(&mut self, carries: &[Carry])
        ensures { self.new ≡ carried_all self.old carries.now }
    {
        for carry in carries {
            self.carry(carry.old.as_slice(), carry.new.as_slice());
        }
    }

    /// Carries the node at a path to where another lies.
    fn carry(&mut self, old: &[Name], new: &[Name])
        ensures { self.new
            ≡ put_in_place (map.remove self.old old.now) new.now (map.get self.old old.now) }
    {
        let Some(node) = self.nodes.remove(old) else {
            return;
        };
        let Some(place) = self.nodes.get_mut(new) else {
            return;
        };
        *place = node;
    }

    /// Reads at most `count` bytes of the file at a path, from byte `at` on.
    fn read(
        &self,
        alloc: Global,
        path: &[Name],
        at: u32,
        count: u32,
    ) -> Result<Result<Answer, Refusal>, AllocError>
        ensures { IfOk result
            (λ answer.
            read_at at count (walk self.now path.now) (map.get self.now path.now) ≡ answer) }
    {
        let contents = match self.file(path) {
            Ok(contents) => contents,
            Err(refusal) => return Ok(Err(refusal)),
        };
        let count = count as usize;
        if count > MAX_READ {
            return Ok(Err(Refusal::TooLong));
        }
        let text = contents.read(alloc, at as usize, count)?;
        Ok(Ok(Answer::Text(text)))
    }

    /// Names what lies in the directory at a path.
    fn list(&self, alloc: Global, path: &[Name]) -> Result<Result<Answer, Refusal>, AllocError>
        ensures { IfOk result
            (λ answer.
            list_at self.now path.now (walk self.now path.now) (map.get self.now path.now)
            ≡ answer) }
    {
        if let Some(refusal) = self.walk(path) {
            return Ok(Err(refusal));
        }
        if let Some(refusal) = self.obstacle(path) {
            return Ok(Err(refusal));
        }
        let names = self.children(alloc, path)?;
        Ok(Ok(Answer::Names(Names::new(names))))
    }

    /// Tells what lies at a path.
    fn stat(&self, alloc: Global, path: &[Name]) -> Result<Result<Answer, Refusal>, AllocError>
        requires { IsCountable self.now }
        ensures { IfOk result
            (λ answer.
            stat_at self.now path.now (walk self.now path.now) (map.get self.now path.now)
            ≡ answer) }
    {
        if let Some(refusal) = self.walk(path) {
            return Ok(Err(refusal));
        }
        let Some(node) = self.get(path) else {
            return Ok(Err(Refusal::NotFound));
        };
        let Some(contents) = node.contents() else {
            let names = self.children(alloc, path)?;
            return Ok(Ok(Answer::Stat {
                kind: Kind::Dir,
                size: names.len() as u32,
                blocks: 0,
            }));
        };
        Ok(Ok(Answer::Stat {
            kind: Kind::File,
            size: contents.len() as u32,
            blocks: contents.held() as u32,
        }))
    }

    /// The names of the children of the directory at a path, in the order of their bytes. What
    /// lies below a child is passed over, so it costs a look-up for each child.
    fn children(&self, alloc: Global, path: &[Name]) -> Result<Vec<Name>, AllocError>
        ensures { IfOk result (λ names. names.items ≡ children self.now path.now) }
    {
        let mut names = Vec::new(alloc);
        let mut from = path.to_vec(alloc)?;
        from.push(Name::new(Vec::new(alloc)))?;
        while let Some((name, is_child)) = self.next_below(path, &from) {
            keep(&mut names, name, is_child)?;
            go_past(&mut from, path.len(), name.as_slice())?;
        }
        Ok(names)
    }

    /// The name with which the first path from `from` on goes on from the directory at `path`, and
    /// whether it ends there.
    fn next_below(&self, path: &[Name], from: &Vec<Name>) -> Option<(&Name, bool)>
        requires { IsChildPath path.now from.now.items }
        ensures { MatchOption result (children_from self.now path.now from.now.items ≡ [])
            (λ next. NextName self.now path.now from.now.items next.0.now next.1) }
    {
        let Some(found) = self.first_from(from) else {
            return None;
        };
        let Some(below) = found.strip_prefix(path) else {
            return None;
        };
        let Some((name, deeper)) = below.split_first() else {
            return None;
        };
        Some((name, deeper.is_empty()))
    }

    /// The first path from `from` on at which something lies.
    fn first_from(&self, from: &Vec<Name>) -> Option<&Vec<Name>>
        ensures { MatchOption result (paths_from self.now from.now.items ≡ [])
            (λ found. IsFirst found.now.items (paths_from self.now from.now.items)) }
    {
        let Some((path, _)) = self.nodes.range(from..).next() else {
            return None;
        };
        Some(path)
    }

    /// The file at a path, or why there is none.
    fn file(&self, path: &[Name]) -> Result<&Contents, Refusal>
        ensures { MatchResult result
            (λ contents.
            file_at (walk self.now path.now) (map.get self.now path.now) ≡ Ok contents.now)
            (λ refusal.
            file_at (walk self.now path.now) (map.get self.now path.now) ≡ Err refusal) }
    {
        if let Some(refusal) = self.walk(path) {
            return Err(refusal);
        }
        match self.get(path) {
            None => Err(Refusal::NotFound),
            Some(node) => match node.contents() {
                None => Err(Refusal::IsDir),
                Some(contents) => Ok(contents),
            },
        }
    }

    /// What stands in the way of a path, first of all.
    fn walk(&self, path: &[Name]) -> Option<Refusal>
        ensures { result ≡ walk self.now path.now }
    {
        for end in 0..path.len() {
            if let Some(refusal) = self.obstacle(&path[..end]) {
                return Some(refusal);
            }
        }
        None
    }

    /// What stands in the way where a path goes through this one.
    fn obstacle(&self, path: &[Name]) -> Option<Refusal>
        ensures { result ≡ obstacle (map.get self.now path.now) }
    {
        match self.get(path) {
            None => Some(Refusal::NotFound),
            Some(node) => match node.contents() {
                None => None,
                Some(_) => Some(Refusal::NotDir),
            },
        }
    }

    /// What lies at a path.
    fn get(&self, path: &[Name]) -> Option<&Node>
        ensures { option_copied result ≡ map.get self.now path.now }
    {
        self.nodes.get(path)
    }

    /// Puts a node at a path.
    fn insert(&mut self, alloc: Global, path: &[Name], node: Node) -> Result<(), AllocError>
        ensures ok { OnOk result (self.new ≡ map.insert self.old path.now node) }
        ensures err { OnErr result (self.new ≡ self.old) }
    {
        self.nodes.insert(path.to_vec(alloc)?, node)?;
        Ok(())
    }
}

/// Adds the name where it is that of a child.
fn keep(names: &mut Vec<Name>, name: &Name, is_child: bool) -> Result<(), AllocError>
    ensures { OnOk result
        (names.new.items ≡ names.old.items ++ (if is_child then name.now ∷ [] else [])) }
{
    if !is_child {
        return Ok(());
    }
    names.push(name.clone()?)?;
    Ok(())
}

/// Turns the name at this place, which is the last, into the first that begins with another.
fn go_past(from: &mut Vec<Name>, last: usize, name: &[u8]) -> Result<(), AllocError>
    requires { last < length from.old.items }
    ensures { OnOk result (from.new.items ≡ set from.old.items last (name.now ++ 0 ∷ [])) }
{
    let alloc = *from.allocator();
    let mut next = Vec::with_capacity(alloc, name.len() + 1)?;
    next.extend_from_slice(name)?;
    next.push(0)?;
    from[last] = Name::new(next);
    Ok(())
}

/// The attributes of all nodes.
fn attributes_of(nodes: &BTreeMap<Vec<Name>, Node>) -> usize
    requires { sum_by attribute_count (values nodes.now) < 2 ^ 32 }
    ensures { result ≡ sum_by attribute_count (values nodes.now) }
{
    nodes.values().map(|node| node.attributes()).sum()
}

/// The held blocks of all files.
fn blocks_of(nodes: &BTreeMap<Vec<Name>, Node>) -> usize
    requires { sum_by held_count (values nodes.now) < 2 ^ 32 }
    ensures { result ≡ sum_by held_count (values nodes.now) }
{
    nodes.values().map(|node| node.held()).sum()
}

/// Whether a path lies at another or below it.
fn lies_below(above: &[Name], path: &[Name]) -> bool
    ensures { result ≡ lies_below above.now path.now }
{
    path.starts_with(above)
}
