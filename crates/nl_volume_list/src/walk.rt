ghost use Rattle.std.specs.Prelude.{◌≡◌, ◌+◌, ◌<◌, ◌≤◌, ◌++◌, ◌∷◌, ◌≢◌, [], true, false, IfOk, length, take};

use nl_field::{EntryRec, Memory, Shape};
use nl_tree::WalkPath;
use std::alloc::Global;
use std::marker::Model;

/// A walk over all paths of a tree: a directory comes before what is under it, and the names of a directory come in the order of their
/// bytes. Contracts see the path that it holds, the nodes on its way, and for how many names it has room.
#[derive(Drop)]
pub struct TreeWalk {
    path: WalkPath,
    // the node of the root, and one behind each name of the path; none before the root
    nodes: Vec<u32>,
}

impl Model for TreeWalk {
    ghost use Rattle.std.specs.Prelude.{◌≤◌, vec_capacity};
    ghost use Rattle.nl_volume_list.specs.Walks.{WalkState};

    ghost Value = { WalkState };

    ghost view = { λ w. record { path = w.path.names; nodes = w.nodes.items; room = w.path.room } };

    ghost invariant = { λ w. w.path.room ≤ vec_capacity w.nodes };
}

/// The place at which a walk goes on: it keeps so many names of its path, and this entry comes behind them.
#[derive(Debug, Drop)]
pub(crate) struct Onward {
    pub(crate) kept: u32,
    pub(crate) entry: EntryRec,
}

impl TreeWalk {
    /// A walk before the root, with room for the longest path of a volume of these numbers.
    pub fn new(alloc: Global, shape: &Shape) -> Result<TreeWalk, Memory>
        ensures { IfOk result (λ w. w ≡ record { path = []; nodes = []; room = shape.now.nodes }) }
    {
        let path = WalkPath::new(alloc, shape.nodes)?;
        let nodes = Vec::with_capacity(alloc, shape.nodes as usize)?;
        Ok(TreeWalk { path, nodes })
    }

    /// The path that the walk holds, the root before the first.
    pub fn path(&self) -> &WalkPath
        ensures { result.now.names ≡ self.now.path }
    {
        &self.path
    }

    /// The walk holds a path.
    pub(crate) fn has_begun(&self) -> bool
        ensures some { result ≡ true → self.now.nodes ≢ [] }
        ensures none { result ≡ false → self.now.nodes ≡ [] }
    {
        !self.nodes.is_empty()
    }

    /// The nodes on the way.
    pub(crate) fn nodes(&self) -> &[u32]
        ensures { result.now ≡ self.now.nodes }
    {
        &self.nodes
    }

    /// The walk holds the root.
    pub(crate) fn begin(&mut self)
        requires before { self.old.nodes ≡ [] }
        requires room { 0 < self.old.room }
        ensures { self.new ≡ record self.old { nodes = 0 ∷ [] } }
    {
        self.nodes.push_reserved(0);
    }

    /// The walk holds the path of an entry behind so many of its names.
    pub(crate) fn move_to(&mut self, to: Onward)
        requires kept { to.kept ≤ length self.old.path }
        requires room { to.kept + 1 < self.old.room }
        ensures path { self.new.path ≡ take to.kept self.old.path ++ to.entry.name ∷ [] }
        ensures nodes { self.new.nodes ≡ take (to.kept + 1) self.old.nodes ++ to.entry.ino ∷ [] }
        ensures room { self.new.room ≡ self.old.room }
    {
        let Onward { kept, entry } = to;
        let EntryRec {
            ino,
            generation: _,
            name,
        } = entry;
        self.path.shorten(kept);
        self.nodes.truncate(kept as usize + 1);
        self.path.push(name);
        self.nodes.push_reserved(ino);
    }
}
