//! What lies at a path.
ghost use Rattle.std.specs.Prelude.{◌≡◌, option_copied, IfOk, OnOk, OnErr};
ghost use Rattle.fx_plain.specs.Node.{empty_dir, empty_file};
ghost use Rattle.fx_plain.specs.Tree.{attribute_count, held_count};
ghost use Rattle.fx_plain.specs.Memory.{contents_of, write_node};

use crate::contents::{Contents, MAX_FILE};
use crate::step::{Answer, Refusal};
use std::alloc::{AllocError, Global};
use std::marker::Model;

/// A directory or a file. It keeps no attributes, since no step makes one. What a file holds stands
/// in a box of its own, so that the map of nodes is small.
#[derive(Debug, Drop)]
pub struct Node {
    kind: Kind,
}

#[derive(Debug, Drop)]
enum Kind {
    Dir,
    File(Box<Contents>),
}

impl Model for Node {
    ghost use Rattle.fx_plain.specs.Node.{Node};
    ghost use Rattle.fx_plain.specs.Codes.{tree_node_code};

    ghost Value = { Node };

    ghost coded = { tree_node_code };

    ghost use Rattle.fx_plain.specs.Kinds.{seen_node};

    ghost view = { λ n. seen_node n.kind };
}

impl Node {
    /// An empty directory.
    pub fn dir() -> Node
        ensures { result ≡ empty_dir }
    {
        Node { kind: Kind::Dir }
    }

    /// An empty file.
    pub fn file(alloc: Global) -> Result<Node, AllocError>
        ensures { IfOk result (λ node. node ≡ empty_file) }
    {
        let contents = Box::new(alloc, Contents::new(alloc))?;
        Ok(Node {
            kind: Kind::File(contents),
        })
    }

    /// What a file holds; nothing for a directory.
    pub fn contents(&self) -> Option<&Contents>
        ensures { option_copied result ≡ contents_of self.now }
    {
        match &self.kind {
            Kind::Dir => None,
            Kind::File(contents) => Some(contents),
        }
    }

    /// How many attributes it has.
    pub fn attributes(&self) -> usize
        ensures { result ≡ attribute_count self.now }
    {
        match &self.kind {
            Kind::Dir => 0,
            Kind::File(_) => 0,
        }
    }

    /// How many blocks it holds. One pass over a file's marks.
    pub fn held(&self) -> usize
        ensures { result ≡ held_count self.now }
    {
        match &self.kind {
            Kind::Dir => 0,
            Kind::File(contents) => contents.held(),
        }
    }

    /// Writes the text into a file, from byte `at` on, and refuses it at a directory.
    pub fn write(&mut self, at: u32, text: &[u8]) -> Result<Result<Answer, Refusal>, AllocError>
        ensures ok { IfOk result (λ answer. write_node at text.now self.old ≡ (answer, self.new)) }
        ensures err { OnErr result (self.new ≡ self.old) }
    {
        let Kind::File(contents) = &mut self.kind else {
            return Ok(Err(Refusal::IsDir));
        };
        let at = at as usize;
        if at + text.len() > MAX_FILE {
            return Ok(Err(Refusal::TooLong));
        }
        contents.write(at, text)?;
        Ok(Ok(Answer::Done))
    }
}
