//! What lies at a path.
ghost use Rattle.std.specs.Prelude.{◌≡◌, option_copied, IfOk, OnOk, OnErr, Some, None};
ghost use Rattle.std.specs.FinMap as map;
ghost use Rattle.fx_plain.specs.Node.{empty_dir, empty_file};
ghost use Rattle.fx_plain.specs.Tree.{attribute_count, held_count};
ghost use Rattle.fx_plain.specs.Memory.{contents_of, write_node};
ghost use Rattle.fx_contents.specs.Marks.{marked_node};
ghost use Rattle.fx_steps.specs.Rows.{attributes_of_node, with_basic};
ghost use Rattle.fx_memtree.specs.Memory.{node_step, truncate_node, unset_node};

use crate::contents::Contents;
use fx_item::{Bytes, Name};
use fx_plain::{Answer, MAX_FILE, Refusal, Step};
use fx_steps::{StepRefusal, TreeStep};
use std::alloc::{AllocError, Global};
use std::collections::BTreeMap;
use std::marker::Model;

/// A directory or a file, with its attributes. What a file holds stands in a box of its own, so that
/// the map of nodes is small.
#[derive(Debug, Drop)]
pub struct Node {
    kind: Kind,
    attributes: BTreeMap<Name, Bytes>,
}

#[derive(Debug, Drop)]
enum Kind {
    Dir,
    File(Box<Contents>),
}

impl Model for Node {
    ghost use Rattle.fx_plain.specs.Node.{Node};
    ghost use Rattle.fx_plain.specs.Codes.{tree_node_code};

    ghost Value = { Node };

    ghost coded = { tree_node_code };

    ghost use Rattle.fx_memtree.specs.Kinds.{node_in};

    ghost view = { λ n. node_in n.kind n.attributes.entries };
}

impl Node {
    /// An empty directory.
    pub fn dir(alloc: Global) -> Node
        ensures { result ≡ empty_dir }
    {
        Node {
            kind: Kind::Dir,
            attributes: BTreeMap::new(alloc),
        }
    }

    /// An empty file.
    pub fn file(alloc: Global) -> Result<Node, AllocError>
        ensures { IfOk result (λ node. node ≡ empty_file) }
    {
        let contents = Box::new(alloc, Contents::new(alloc))?;
        Ok(Node {
            kind: Kind::File(contents),
            attributes: BTreeMap::new(alloc),
        })
    }

    /// What a file holds; nothing for a directory.
    pub fn contents(&self) -> Option<&Contents>
        ensures { option_copied result ≡ contents_of self.now }
    {
        match &self.kind {
            Kind::Dir => None,
            Kind::File(contents) => Some(contents),
        }
    }

    /// How many attributes it has.
    pub fn attributes(&self) -> usize
        ensures { result ≡ attribute_count self.now }
    {
        self.attributes.len()
    }

    /// The text of an attribute.
    pub fn attribute(&self, name: &Name) -> Option<&Bytes>
        ensures { option_copied result ≡ map.get (attributes_of_node self.now) name.now }
    {
        self.attributes.get(name)
    }

    /// How many blocks it holds. One pass over a file's marks.
    pub fn held(&self) -> usize
        ensures { result ≡ held_count self.now }
    {
        match &self.kind {
            Kind::Dir => 0,
            Kind::File(contents) => contents.held(),
        }
    }

    /// Writes the text into a file, from byte `at` on, and refuses it at a directory.
    fn write(&mut self, at: u32, text: &[u8]) -> Result<Result<Answer, Refusal>, AllocError>
        ensures ok { IfOk result (λ answer. write_node at text.now self.old ≡ (answer, self.new)) }
        ensures err { OnErr result (self.new ≡ self.old) }
    {
        let Kind::File(contents) = &mut self.kind else {
            return Ok(Err(Refusal::IsDir));
        };
        let at = at as usize;
        if at + text.len() > MAX_FILE {
            return Ok(Err(Refusal::TooLong));
        }
        contents.write(at, text)?;
        Ok(Ok(Answer::Done))
    }

    /// Cuts a file at the size, or lets it grow to it, and refuses it at a directory.
    fn truncate(&mut self, size: u32) -> Result<Result<Answer, Refusal>, AllocError>
        ensures ok { IfOk result (λ answer. truncate_node size self.old ≡ (answer, self.new)) }
        ensures err { OnErr result (self.new ≡ self.old) }
    {
        let Kind::File(contents) = &mut self.kind else {
            return Ok(Err(Refusal::IsDir));
        };
        let size = size as usize;
        if size > MAX_FILE {
            return Ok(Err(Refusal::TooLong));
        }
        contents.truncate(size)?;
        Ok(Ok(Answer::Done))
    }

    /// Gives it an attribute, in the place of one of that name if there is one.
    fn set_attribute(&mut self, name: &Name, value: &Bytes) -> Result<(), AllocError>
        ensures ok { OnOk result (self.new ≡ marked_node name.now (Some value.now) self.old) }
        ensures err { OnErr result (self.new ≡ self.old) }
    {
        self.attributes.insert(name.clone()?, value.clone()?)?;
        Ok(())
    }

    /// Takes the attribute of that name away.
    fn drop_attribute(&mut self, name: &Name)
        ensures { self.new ≡ marked_node name.now None self.old }
    {
        let _ = self.attributes.remove(name);
    }

    /// Does a step that changes the node at its path; any other one leaves it.
    pub fn step(&mut self, step: &TreeStep) -> Result<Result<Answer, StepRefusal>, AllocError>
        ensures ok { IfOk result (λ answer. node_step step.now self.old ≡ (answer, self.new)) }
        ensures err { OnErr result (self.new ≡ self.old) }
    {
        match step {
            TreeStep::Basic(Step::Write { at, text, .. }) => {
                let answer = self.write(*at, text.as_slice())?;
                Ok(basic(answer))
            }
            TreeStep::Truncate { size, .. } => {
                let answer = self.truncate(*size)?;
                Ok(basic(answer))
            }
            TreeStep::SetAttr { name, value, .. } => {
                self.set_attribute(name, value)?;
                Ok(Ok(Answer::Done))
            }
            TreeStep::DelAttr { name, .. } => Ok(self.unset(name)),
            _ => Ok(Ok(Answer::Done)),
        }
    }

    /// Takes the attribute of that name away, or refuses it where there is none.
    fn unset(&mut self, name: &Name) -> Result<Answer, StepRefusal>
        ensures { unset_node name.now self.old
            (map.get (attributes_of_node self.old) name.now) ≡ (result, self.new) }
    {
        if self.attribute(name).is_none() {
            return Err(StepRefusal::NoAttr);
        }
        self.drop_attribute(name);
        Ok(Answer::Done)
    }
}

/// The same answer, or the same refusal.
pub fn basic(answer: Result<Answer, Refusal>) -> Result<Answer, StepRefusal>
    ensures { result ≡ with_basic answer }
{
    match answer {
        Ok(answer) => Ok(answer),
        Err(refusal) => Err(StepRefusal::Basic(refusal)),
    }
}
