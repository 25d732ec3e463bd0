//! Nodes that several trees share.
ghost use Rattle.std.specs.Prelude.{◌≡◌, IfOk};
ghost use Rattle.std.specs.Option.{option_map_or};
ghost use Rattle.nl_tree.specs.Tree.{Node, directory, file};

use nl_field::Memory;
use nl_tree_content::FileBuf;
use std::alloc::Global;
use std::marker::Model;
use std::rc::Rc;

/// A directory, or a file.
#[derive(Drop)]
pub struct SharedNode {
    held: Option<Rc<FileBuf>>,
}

impl Model for SharedNode {
    ghost use Rattle.std.specs.Option.{option_map_or};
    ghost use Rattle.nl_tree.specs.Tree.{Node, directory, file};

    ghost Value = { Node };

    ghost view = { λ n. option_map_or (λ f. file f.value) n.held directory };
}

impl SharedNode {
    /// A directory.
    pub fn directory() -> Self
        ensures { result ≡ directory }
    {
        SharedNode { held: None }
    }

    /// A file of this content.
    pub fn of_file(alloc: Global, content: FileBuf) -> Result<Self, Memory>
        ensures { IfOk result (λ n. n ≡ file content) }
    {
        Ok(SharedNode {
            held: Some(Rc::new(alloc, content)?),
        })
    }

    /// This node, shared once more. An error where that is refused.
    pub(crate) fn share(&self) -> Result<Self, Memory>
        ensures { IfOk result (λ n. n ≡ self.now) }
    {
        let held = match &self.held {
            Some(content) => Some(content.clone()?),
            None => None,
        };
        Ok(SharedNode { held })
    }

    /// The content of a file, and none of a directory.
    pub fn content(&self) -> Option<&FileBuf>
        ensures { self.now ≡ option_map_or (λ f. file f.now) result directory }
    {
        match &self.held {
            Some(content) => Some(content.as_ref()),
            None => None,
        }
    }
}
