ghost use Rattle.std.specs.Prelude.{◌≡◌};
ghost use Rattle.nl_volume_list.specs.Walks.{is_path};

/// What stands at the next path of a walk.
#[derive(Clone, Copy, Debug, PartialEq, Eq)]
pub enum TreeItem {
    /// A directory with so many entries.
    Dir(u32),
    /// A file with its size, and how many of its pages hold bytes.
    File { size: u64, pages: u32 },
    /// No path is left.
    End,
    /// A read failed.
    Fault,
    /// A page does not hold the sequence number under which it was written.
    Lost { wanted: u64, found: u64 },
}

impl TreeItem {
    // A path was given.
    pub(crate) fn is_path(&self) -> bool
        ensures { result ≡ is_path self.now }
    {
        matches!(self, TreeItem::Dir(_) | TreeItem::File { .. })
    }
}
